//! Which step comes next.
//!
//! The contracts cite `specs/NextSteps.antt`.

ghost use Rattle.std.specs.Prelude.{◌≡◌};
ghost use Rattle.next_steps.specs.NextSteps.{advice_after, advice_for, configuration_step};

use crate::NextStep;

// The exit statuses of a command (docs/REFERENCE.md, "The command line").
const DONE: u8 = 0;

const HOOK_FAILED: u8 = 1;

const REFUSED: u8 = 3;

/// What a command needs, and is refused for if the repository lacks it.
#[derive(Clone, Copy, Debug)]
pub enum Requirement {
    /// A configuration that can be read.
    Configuration,
    /// Fixes.
    Fixes,
    /// Nothing that a hint is about.
    Nothing,
}

/// How a command ended.
#[derive(Clone, Copy, Debug)]
pub struct CommandEnd {
    /// Its exit status.
    pub status: u8,
    /// Whether it staged other bytes for a file than the file's fix has.
    pub is_undoing: bool,
    /// Whether the repository has fixes after it.
    pub has_fixes: bool,
    /// What it needed.
    pub needs: Requirement,
}

/// What a user is told of after a command.
#[derive(Clone, Copy, Debug)]
pub enum Advice {
    /// How to get the bytes of the fix that was undone.
    UndoneFix,
    /// This step.
    Step(NextStep),
    /// The step that `configuration_step` gives.
    OfConfiguration,
    /// Nothing.
    Nothing,
}

/// What a user is told of after a command that ended so.
pub fn advice_after(end: CommandEnd) -> Advice
    ensures { result ≡ advice_after end }
{
    match end.status {
        DONE if end.is_undoing => Advice::UndoneFix,
        HOOK_FAILED if end.has_fixes => Advice::Step(NextStep::AcceptFixes),
        REFUSED => advice_for(end.needs, end.has_fixes),
        _ => Advice::Nothing,
    }
}

// What a user is told of after a refused command that needs this.
fn advice_for(needs: Requirement, has_fixes: bool) -> Advice
    ensures { result ≡ advice_for needs has_fixes }
{
    match needs {
        Requirement::Configuration => Advice::OfConfiguration,
        Requirement::Fixes if !has_fixes => Advice::Step(NextStep::MakeFixes),
        Requirement::Fixes | Requirement::Nothing => Advice::Nothing,
    }
}

/// The configuration of a repository.
#[derive(Clone, Copy, Debug)]
pub enum ConfigurationState {
    /// None is staged.
    NotStaged {
        /// Whether the working folder has one.
        is_written: bool,
    },
    /// The staged one can't be read.
    Refused {
        /// Whether that of the working folder has the same bytes.
        is_same: bool,
    },
    /// The staged one can be read.
    Taken,
}

/// The step that leads to a configuration that can be read, or `None` if there is one.
pub fn configuration_step(state: ConfigurationState) -> Option<NextStep>
    ensures { result ≡ configuration_step state }
{
    match state {
        ConfigurationState::NotStaged { is_written: true } => Some(NextStep::StageConfiguration),
        ConfigurationState::NotStaged { is_written: false } => {
            Some(NextStep::WriteAndStageConfiguration)
        }
        ConfigurationState::Refused { is_same: true } => Some(NextStep::ExplainConfiguration),
        ConfigurationState::Refused { is_same: false } => {
            Some(NextStep::ExplainStagedConfiguration)
        }
        ConfigurationState::Taken => None,
    }
}
