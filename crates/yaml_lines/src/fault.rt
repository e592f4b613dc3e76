//! Why a text can't be read, and where.
//!
//! The contracts cite `specs/Faults.antt`.

ghost use Rattle.std.specs.Prelude.{◌≡◌};

use std::alloc::{AllocError, AllocFailed};
use thiserror::Error;

/// Why a text can't be read.
#[derive(Clone, Copy, Debug, PartialEq, Eq, Error)]
pub enum YamlKind {
    /// The bytes aren't UTF-8.
    #[error("not UTF-8")]
    NotUtf8,
    /// A tab where only spaces can indent. (YAML 1.2.2, section 6.1.)
    #[error("a tab in the indentation")]
    TabIndent,
    /// The text uses a form of YAML that this profile leaves out.
    #[error("not supported")]
    Unsupported,
    /// The lines don't form a node.
    #[error("bad layout")]
    Layout,
    /// A quoted text doesn't end on its line, or an escape names no character.
    #[error("bad quoted text")]
    Quote,
    /// The table already has this key.
    #[error("doubled key")]
    DoubledKey,
    /// A node is nested within too many others.
    #[error("nested too deeply")]
    TooDeep,
    /// The text has too many bytes.
    #[error("too large")]
    TooLarge,
    /// Memory was refused.
    #[error("out of memory")]
    OutOfMemory,
}

impl YamlKind {
    ghost use Rattle.yaml_lines.specs.Faults.{yaml_fault_number};

    /// The refusal's number, from 1 to 9.
    pub fn number(&self) -> u8
        ensures { result ≡ yaml_fault_number self.now }
    {
        match *self {
            YamlKind::NotUtf8 => 1,
            YamlKind::TabIndent => 2,
            YamlKind::Unsupported => 3,
            YamlKind::Layout => 4,
            YamlKind::Quote => 5,
            YamlKind::DoubledKey => 6,
            YamlKind::TooDeep => 7,
            YamlKind::TooLarge => 8,
            YamlKind::OutOfMemory => 9,
        }
    }
}

/// A refusal to read a text, and its line.
#[derive(Clone, Copy, Debug, PartialEq, Eq, Error)]
#[error("line {line}: {kind}")]
pub struct YamlFault {
    /// Why it can't be read.
    pub kind: YamlKind,
    /// The first line at which the text can't be read, from 1. It is 0 if memory was refused.
    pub line: usize,
}

impl YamlFault {
    ghost use Rattle.std.specs.Prelude.{◌≡◌};
    ghost use Rattle.yaml_lines.specs.Faults.{StandsAt};

    // The fault of this kind, found in this line.
    pub(crate) fn at(kind: YamlKind, line: usize) -> Self
        ensures kind { result.kind ≡ kind }
        ensures place { StandsAt line result }
    {
        match kind {
            YamlKind::OutOfMemory => YamlFault { kind, line: 0 },
            _ => YamlFault { kind, line },
        }
    }
}

impl From<AllocError> for YamlFault {
    ghost use Rattle.yaml_lines.specs.declared.fault.YamlKind.TheVariants.{OutOfMemory};
    ghost use Rattle.std.specs.Prelude.{◌≡◌};

    ghost from_gives = { λ _ fault. (fault.kind ≡ OutOfMemory) × (fault.line ≡ 0) };

    fn from(_refused: AllocError) -> Self {
        YamlFault {
            kind: YamlKind::OutOfMemory,
            line: 0,
        }
    }
}

impl<T: Drop> From<AllocFailed<T>> for YamlFault {
    ghost use Rattle.yaml_lines.specs.declared.fault.YamlKind.TheVariants.{OutOfMemory};
    ghost use Rattle.std.specs.Prelude.{◌≡◌};

    ghost from_gives = { λ _ fault. (fault.kind ≡ OutOfMemory) × (fault.line ≡ 0) };

    fn from(refused: AllocFailed<T>) -> Self {
        YamlFault::from(AllocError::from(refused))
    }
}
