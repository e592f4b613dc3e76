//! The paths of a command, in words or in a file, and the errors if they are in neither or in both.
//!
//! The contracts cite `specs/CommandLine.antt`.

ghost use Rattle.std.specs.Prelude.{◌≡◌, ◌∷◌, IfOk, [], codes};
ghost use Rattle.clap.specs.Words.{HasKind, found_of, rows_of};
ghost use Rattle.clap.specs.declared.error.kind.ErrorKind.TheVariants.{InvalidValue};
ghost use Rattle.command_line.specs.CommandLine.{IsValueOf, paths_in, source_in};

use crate::PathSource;
use crate::commands::{add_command, remove_command, run_files_command};
use crate::help_length::HelpLength;
use crate::values::{error_of, maybe_text_of, texts_of};
use clap::{ArgMatches, Command, Error};
use hook_base::{Items, Text};
use std::alloc::{AllocError, Global};

/// Where the paths of the command of this name are written. Words together with `--paths-from` are an error,
/// and so is neither. The errors have the words that `clap` uses for its own.
pub(crate) fn paths_of(
    alloc: Global,
    command: &str,
    values: &ArgMatches<'_>,
) -> Result<PathSource, Error>
    ensures { IsValueOf (paths_in (rows_of (found_of values.now))) result }
{
    let words = texts_of(alloc, values, "PATH")?;
    let from = maybe_text_of(alloc, values, "paths-from")?;
    source_of(alloc, command, words, from)
}

fn source_of(
    alloc: Global,
    command: &str,
    words: Items<Text>,
    from: Option<Text>,
) -> Result<PathSource, Error>
    ensures { IsValueOf (source_in words from) result }
{
    match from {
        None if words.is_empty() => Err(missing_error(alloc, command)),
        None => Ok(PathSource::Words(words)),
        Some(from) if words.is_empty() => Ok(PathSource::Listed(from)),
        Some(_) => Err(both_error(alloc, command)),
    }
}

fn missing_error(alloc: Global, command: &str) -> Error
    ensures { HasKind (InvalidValue ∷ []) result }
{
    error_of(
        command_with_paths(alloc, command),
        "the following required arguments were not provided:\n  <PATH>...",
    )
}

fn both_error(alloc: Global, command: &str) -> Error
    ensures { HasKind (InvalidValue ∷ []) result }
{
    error_of(
        command_with_paths(alloc, command),
        "the argument '--paths-from <FILE>' cannot be used with '[PATH]...'",
    )
}

fn command_with_paths<'a>(alloc: Global, name: &str) -> Result<Command<'a>, AllocError> {
    match name {
        "add" => add_command(alloc, HelpLength::Short),
        "rm" => remove_command(alloc, HelpLength::Short),
        _ => run_files_command(alloc, HelpLength::Short),
    }
}
