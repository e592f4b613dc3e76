//! What a run reports of a hook.

use child_port::Fault;
use hook_base::{Bytes, Items, Text};

/// What a run reports of one hook.
#[derive(Debug, Drop)]
pub struct HookResult {
    /// The hook's name, with which the first line begins.
    pub name: Text,
    /// The hook's id, with which its details begin.
    pub id: Text,
    /// Whether the hook's details are reported even if it didn't fail.
    pub verbose: bool,
    /// How it ended.
    pub ending: Ending,
}

/// How a hook ended.
#[derive(Debug, Drop)]
pub enum Ending {
    /// It was skipped because the run was asked to skip it.
    SkippedAsked,
    /// It was skipped because no file was selected for it.
    SkippedNoFiles,
    /// It was run.
    Ran {
        /// Its exit code.
        status: u8,
        /// The faults of its parts, in the order of the parts.
        faults: Items<LineFault>,
        /// Whether it changed or removed a file of the run.
        modified: bool,
        /// The output of its parts, one after another.
        output: Bytes,
    },
}

/// A failure of a hook other than an exit code.
#[derive(Clone, Copy, Debug, PartialEq, Eq)]
pub enum LineFault {
    /// A child failed.
    Child(Fault),
    /// A name, or the words alone, don't fit the command.
    Misfit,
}

impl Ending {
    ghost use Rattle.std.specs.Prelude.{◌≡◌};
    ghost use Rattle.report_text.specs.Report.{is_failed};

    /// Whether a hook that ended in this way failed.
    pub fn is_failed(&self) -> bool
        ensures { result ≡ is_failed self.now }
    {
        match self {
            Ending::SkippedAsked | Ending::SkippedNoFiles => false,
            Ending::Ran {
                status,
                faults,
                modified,
                ..
            } => *status != 0 || !faults.as_slice().is_empty() || *modified,
        }
    }
}
