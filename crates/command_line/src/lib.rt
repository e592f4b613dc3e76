//! The command line of `hookhost`: what a line of words asks for (`line_of`), as a value (`CommandLine`), and the
//! help. A line that limits the cached results holds an `AnswerLimit`.
//!
//! The contracts cite `specs/CommandLine.antt`, which states the command line as `clap` sees it.
#![tactic(auto)]

mod command_line;
mod commands;
mod commit_hooks;
mod help;
mod help_length;
mod line;
mod message_words;
mod paths;
mod repository_help;
mod values;
mod version;

pub use command_line::line_of;
pub use line::{
    ColorChoice, CommandLine, CommitHook, FileChoice, FileVersion, HookChoice, LookUp, PathSource,
    RunChoice, StageChoice, Standalone, Update,
};
pub use store_faults::AnswerLimit;
