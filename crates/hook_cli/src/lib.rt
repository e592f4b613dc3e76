//! The commands of `hookhost` over a repository (`command_over`) and its look-ups (`look_up_over`), with what
//! they print and their exit statuses. `message_over` also gives the message that hooks leave.
//!
//! What a program needs besides these is in other crates. `command_line` reads the command line (`line_of`),
//! and `configuration_run` runs and checks a configuration without a repository (`try_over`, `check_text`).
//!
//! The contracts cite `specs/CommandOver.antt` (what each command changes, prints and exits with), which uses
//! `specs/StagingOver.antt` (what several changes do, and what is printed of a refusal). These build on the
//! definitions of `commit_flow` and the texts of `repository_text`. They also use `specs/RunText.antt` (runs
//! and commits), `specs/MemoryText.antt` (cached results), `specs/RefusalText.antt` (refusals) and
//! `specs/Printing.antt` (which text is on which output).
#![tactic(auto)]

mod command_ending;
pub mod laws;
mod look_up;
mod over_answers;
mod over_host;
mod over_messages;
mod over_runs;
mod over_staging;
mod printing;
mod run_printing;

pub use command_ending::CommandEnding;
pub use command_line::{
    AnswerLimit, ColorChoice, CommandLine, CommitHook, FileChoice, FileVersion, HookChoice, LookUp,
    PathSource, RunChoice, StageChoice, Standalone, Update, line_of,
};
pub use configuration_run::{
    MOST_CONFIGURATION_BYTES, TryFault, check_text, skip_list_of, try_over,
};
pub use look_up::look_up_over;
pub use over_host::command_over;
pub use over_messages::{MessageOver, message_over};
