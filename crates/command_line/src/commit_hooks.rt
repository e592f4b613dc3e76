//! The hooks of a stage of a commit, and the errors if a line names no such stage, or its file is missing or too
//! many.
//!
//! The contracts cite `specs/CommandLine.antt`.

ghost use Rattle.std.specs.Prelude.{◌≡◌, ◌∷◌, [], codes};
ghost use Rattle.clap.specs.Words.{HasKind, first_of, found_of, rows_of};
ghost use Rattle.clap.specs.declared.error.kind.ErrorKind.TheVariants.{InvalidValue};
ghost use Rattle.command_line.specs.CommandLine.{IsValueOf, commit_hook_in, without_file, word_in};

use crate::CommitHook;
use crate::commands::hook_command;
use crate::help_length::HelpLength;
use crate::values::{error_of, maybe_text_of, word_of};
use clap::{ArgMatches, Error};
use hook_base::Text;
use std::alloc::{AllocError, Global};

// The stages, as the error for another one lists them.
const STAGES: &str = "pre-commit, prepare-commit-msg, commit-msg and post-commit";

/// The hooks of the stage that the line names. Another word is an error. So is a stage about a message without
/// its file, and another with a file; these errors have the words that `clap` uses for its own.
pub(crate) fn commit_hook_of(alloc: Global, values: &ArgMatches<'_>) -> Result<CommitHook, Error>
    ensures { IsValueOf (commit_hook_in (word_in (codes "STAGE") (rows_of (found_of values.now)))
        (first_of (codes "FILE") (rows_of (found_of values.now)))) result }
{
    let file = maybe_text_of(alloc, values, "FILE")?;
    commit_hook(alloc, word_of(values, "STAGE"), file)
}

fn commit_hook(alloc: Global, stage: &str, file: Option<Text>) -> Result<CommitHook, Error>
    ensures { IsValueOf (commit_hook_in stage.now file) result }
{
    match stage {
        "pre-commit" => without_file(alloc, CommitHook::PreCommit, file),
        "prepare-commit-msg" => match file {
            Some(file) => Ok(CommitHook::PrepareCommitMsg(file)),
            None => Err(missing_error(alloc)),
        },
        "commit-msg" => match file {
            Some(file) => Ok(CommitHook::CommitMsg(file)),
            None => Err(missing_error(alloc)),
        },
        "post-commit" => without_file(alloc, CommitHook::PostCommit, file),
        _ => Err(stage_error(alloc, stage)),
    }
}

fn without_file(alloc: Global, hook: CommitHook, file: Option<Text>) -> Result<CommitHook, Error>
    ensures { IsValueOf (without_file hook file) result }
{
    match file {
        None => Ok(hook),
        Some(file) => Err(unexpected_error(alloc, file.as_str())),
    }
}

fn missing_error(alloc: Global) -> Error
    ensures { HasKind (InvalidValue ∷ []) result }
{
    error_of(
        hook_command(alloc, HelpLength::Short),
        "the following required arguments were not provided:\n  <FILE>",
    )
}

fn unexpected_error(alloc: Global, file: &str) -> Error
    ensures { HasKind (InvalidValue ∷ []) result }
{
    match unexpected_message(alloc, file) {
        Ok(message) => error_of(hook_command(alloc, HelpLength::Short), message.as_str()),
        Err(refused) => Error::from(refused),
    }
}

fn unexpected_message(alloc: Global, file: &str) -> Result<String, AllocError> {
    format!(in alloc; "unexpected argument '{file}' found")
}

fn stage_error(alloc: Global, stage: &str) -> Error
    ensures { HasKind (InvalidValue ∷ []) result }
{
    match stage_message(alloc, stage) {
        Ok(message) => error_of(hook_command(alloc, HelpLength::Short), message.as_str()),
        Err(refused) => Error::from(refused),
    }
}

fn stage_message(alloc: Global, stage: &str) -> Result<String, AllocError> {
    format!(in alloc; "invalid value '{stage}' for '<STAGE>': only {STAGES} are allowed")
}
