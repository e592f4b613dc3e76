//! The command line: what a line of words asks for.
//!
//! The contracts cite `specs/CommandLine.antt`, which states the command line as `clap` sees it.

ghost use Rattle.std.specs.Prelude.{◌≡◌, IfOk, Some, is_some, map, option_map, true};
ghost use Rattle.clap.specs.Words.{FailsBy, fault_of, found_of, rows_of, subcommand_of, subcommand_rows_of};
ghost use Rattle.command_line.specs.CommandLine.{IsValueOf, add_line, cat_line, choice_in, commit_line, explain_line, files_in, hook_choice_in, hook_line, hookhost_app, is_command, line_asked, line_by, line_fault, line_fault_of, line_in, memory_line, named_in, remove_line, run_files_line, run_line, show_line, try_line};

use crate::commands::hookhost;
use crate::commit_hooks::commit_hook_of;
use crate::help_length::help_asked;
use crate::message_words::around_message;
use crate::paths::paths_of;
use crate::values::{
    color_of, flag_of, jobs_of, limit_of, maybe_text_of, mode_of, number_of, stage_of, text_of,
    texts_of, version_of,
};
use crate::{
    CommandLine, FileChoice, HookChoice, LookUp, PathSource, RunChoice, Standalone, Update,
};
use clap::{ArgMatches, Error};
use std::alloc::{AllocError, Global};

/// What the words, without the program's own name, ask for. The word after the first `-m` of a commit is its
/// message, whatever it begins with.
///
/// An error's text says what the words lack or which value can't be taken, or it is the help that they ask
/// for. Its kind is `OutOfMemory` if memory was refused, or the one that `clap` states for these words.
/// Otherwise it is `InvalidValue`, for one of:
/// - a `--chmod` other than `+x`, a `--hook-stage` other than `pre-commit` and `manual`, or a `--color` other
///   than `auto`, `always` and `never`;
/// - `--commit` together with `--fixed`;
/// - a number of `show` or `--commit` that isn't one of 32 bits, a number of `--limit` that isn't from 1 to
///   100,000, or one of `--jobs` that isn't from 1 to 256;
/// - neither a path nor `--paths-from`, or both;
/// - a stage of `hook` that isn't one of the four, a stage about a message without its file, or another with
///   one.
pub fn line_of<'a>(alloc: Global, words: &'a [&'a str]) -> Result<CommandLine, Error>
    ensures line { IfOk result (λ line. line_asked (map (λ s. s.now) words.entry.now) ≡ Some line) }
    ensures fault { FailsBy (line_fault (map (λ s. s.now) words.entry.now)) result }
{
    match around_message(words) {
        Some(around) => {
            let joined = around.joined(alloc)?;
            let words = around.with_joined(alloc, joined.as_str())?;
            line_in(alloc, words.as_slice())
        }
        None => line_in(alloc, words),
    }
}

// What the words ask for, as `clap` gets them.
fn line_in<'a>(alloc: Global, words: &'a [&'a str]) -> Result<CommandLine, Error>
    ensures line { IfOk result (λ line. line_in (map (λ s. s.now) words.entry.now) ≡ Some line) }
    ensures fault { FailsBy (line_fault_of (map (λ s. s.now) words.entry.now)) result }
{
    let matches = matches_of(alloc, words)?;
    match command_of(&matches) {
        Some((name, values)) => line_by(alloc, name, values),
        None => unreachable!(),
    }
}

// What `clap` finds in the words. A command must be there.
fn matches_of<'a>(alloc: Global, words: &'a [&'a str]) -> Result<ArgMatches<'a>, Error>
    ensures rows { IfOk result (λ m. subcommand_rows_of m
        ≡ subcommand_of hookhost_app (map (λ s. s.now) words.entry.now)) }
    ensures met { IfOk result (λ m. is_some (subcommand_rows_of m) ≡ true) }
    ensures fault { FailsBy (fault_of hookhost_app (map (λ s. s.now) words.entry.now)) result }
{
    hookhost(alloc, help_asked(words))?.try_get_matches_from(words)
}

// The command that was met, with its values.
fn command_of<'m, 'a>(matches: &'m ArgMatches<'a>) -> Option<(&'a str, &'m ArgMatches<'a>)>
    ensures { option_map (λ p. (p.0.now, rows_of (found_of p.1.now))) result ≡ subcommand_rows_of matches.now }
{
    matches.subcommand()
}

// What a command asks for with its values.
fn line_by(alloc: Global, name: &str, values: &ArgMatches<'_>) -> Result<CommandLine, Error>
    requires { is_command name.now ≡ true }
    ensures { IsValueOf (line_by name.now (rows_of (found_of values.now))) result }
{
    match name {
        "init" => Ok(CommandLine::Standalone(Standalone::Init)),
        "try" => try_line(alloc, values),
        "check" => Ok(CommandLine::Standalone(Standalone::Check)),
        "explain" => Ok(explain_line(alloc, values)?),
        "status" => Ok(CommandLine::LookUp(LookUp::Status)),
        "fixes" => Ok(CommandLine::LookUp(LookUp::Fixes)),
        "cat" => cat_line(alloc, values),
        "log" => Ok(CommandLine::LookUp(LookUp::Log)),
        "show" => show_line(alloc, values),
        "memory" => memory_line(alloc, values),
        "add" => add_line(alloc, values),
        "rm" => remove_line(alloc, values),
        "run" => run_line(alloc, values),
        "run-files" => run_files_line(alloc, values),
        "hook" => hook_line(alloc, values),
        "accept" => Ok(CommandLine::Update(Update::Accept)),
        "commit" => commit_line(alloc, values),
        "forget" => Ok(CommandLine::Update(Update::Forget)),
        _ => unreachable!(),
    }
}

fn try_line(alloc: Global, values: &ArgMatches<'_>) -> Result<CommandLine, Error>
    ensures { IsValueOf (try_line (rows_of (found_of values.now))) result }
{
    let color = color_of(alloc, "try", values)?;
    let jobs = jobs_of(alloc, "try", values)?;
    Ok(CommandLine::Standalone(Standalone::Try {
        config: text_of(alloc, values, "CONFIG")?,
        paths: texts_of(alloc, values, "PATH")?,
        color,
        jobs,
    }))
}

fn explain_line(alloc: Global, values: &ArgMatches<'_>) -> Result<CommandLine, AllocError>
    ensures { IfOk result (λ line. line ≡ explain_line (rows_of (found_of values.now))) }
{
    Ok(CommandLine::Standalone(Standalone::Explain {
        file: maybe_text_of(alloc, values, "FILE")?,
    }))
}

fn add_line(alloc: Global, values: &ArgMatches<'_>) -> Result<CommandLine, Error>
    ensures { IsValueOf (add_line (rows_of (found_of values.now))) result }
{
    let paths = paths_of(alloc, "add", values)?;
    let mode = mode_of(alloc, values)?;
    Ok(CommandLine::Update(Update::Add { paths, mode }))
}

fn remove_line(alloc: Global, values: &ArgMatches<'_>) -> Result<CommandLine, Error>
    ensures { IsValueOf (remove_line (rows_of (found_of values.now))) result }
{
    Ok(CommandLine::Update(Update::Remove {
        paths: paths_of(alloc, "rm", values)?,
    }))
}

fn run_line(alloc: Global, values: &ArgMatches<'_>) -> Result<CommandLine, Error>
    ensures { IsValueOf (run_line (rows_of (found_of values.now))) result }
{
    let stage = stage_of(alloc, "run", values)?;
    let options = choice_of(alloc, "run", values)?;
    Ok(CommandLine::Update(Update::Run {
        files: files_of(values),
        only: maybe_text_of(alloc, values, "ID")?,
        stage,
        fresh: flag_of(values, "fresh"),
        options,
    }))
}

// What the options `--cautious`, `--verbose`, `--color` and `--jobs` ask of a run. `command` names the
// command, for its usage in an error.
fn choice_of(alloc: Global, command: &str, values: &ArgMatches<'_>) -> Result<RunChoice, Error>
    ensures { IsValueOf (choice_in (rows_of (found_of values.now))) result }
{
    let color = color_of(alloc, command, values)?;
    let jobs = jobs_of(alloc, command, values)?;
    Ok(RunChoice {
        cautious: flag_of(values, "cautious"),
        verbose: flag_of(values, "verbose"),
        color,
        jobs,
    })
}

fn files_of(values: &ArgMatches<'_>) -> FileChoice
    ensures { result ≡ files_in (rows_of (found_of values.now)) }
{
    if flag_of(values, "all-files") {
        FileChoice::All
    } else {
        FileChoice::Changed
    }
}

fn run_files_line(alloc: Global, values: &ArgMatches<'_>) -> Result<CommandLine, Error>
    ensures { IsValueOf (run_files_line (rows_of (found_of values.now))) result }
{
    let paths = paths_of(alloc, "run-files", values)?;
    let stage = stage_of(alloc, "run-files", values)?;
    let options = choice_of(alloc, "run-files", values)?;
    Ok(CommandLine::Update(Update::Run {
        files: named_by(paths),
        only: maybe_text_of(alloc, values, "only")?,
        stage,
        fresh: flag_of(values, "fresh"),
        options,
    }))
}

fn named_by(paths: PathSource) -> FileChoice
    ensures { result ≡ named_in paths }
{
    match paths {
        PathSource::Words(words) => FileChoice::Named(words),
        PathSource::Listed(from) => FileChoice::Listed(from),
    }
}

fn hook_line(alloc: Global, values: &ArgMatches<'_>) -> Result<CommandLine, Error>
    ensures { IsValueOf (hook_line (rows_of (found_of values.now))) result }
{
    let options = hook_choice_of(alloc, values)?;
    let hook = commit_hook_of(alloc, values)?;
    Ok(CommandLine::Update(Update::Hook {
        hook,
        fresh: flag_of(values, "fresh"),
        options,
    }))
}

// What the options `--cautious`, `--color` and `--jobs` ask of the hooks of a stage.
fn hook_choice_of(alloc: Global, values: &ArgMatches<'_>) -> Result<HookChoice, Error>
    ensures { IsValueOf (hook_choice_in (rows_of (found_of values.now))) result }
{
    let color = color_of(alloc, "hook", values)?;
    let jobs = jobs_of(alloc, "hook", values)?;
    Ok(HookChoice {
        cautious: flag_of(values, "cautious"),
        color,
        jobs,
    })
}

fn commit_line(alloc: Global, values: &ArgMatches<'_>) -> Result<CommandLine, Error>
    ensures { IsValueOf (commit_line (rows_of (found_of values.now))) result }
{
    let color = color_of(alloc, "commit", values)?;
    let jobs = jobs_of(alloc, "commit", values)?;
    Ok(CommandLine::Update(Update::Commit {
        message: text_of(alloc, values, "message")?,
        no_verify: flag_of(values, "no-verify"),
        color,
        jobs,
    }))
}

fn cat_line(alloc: Global, values: &ArgMatches<'_>) -> Result<CommandLine, Error>
    ensures { IsValueOf (cat_line (rows_of (found_of values.now))) result }
{
    Ok(CommandLine::LookUp(LookUp::Cat {
        path: text_of(alloc, values, "PATH")?,
        version: version_of(alloc, values)?,
    }))
}

fn show_line(alloc: Global, values: &ArgMatches<'_>) -> Result<CommandLine, Error>
    ensures { IsValueOf (show_line (rows_of (found_of values.now))) result }
{
    Ok(CommandLine::LookUp(LookUp::Show {
        number: number_of(alloc, values)?,
    }))
}

// With a limit it changes the cache, and without one it only looks it up.
fn memory_line(alloc: Global, values: &ArgMatches<'_>) -> Result<CommandLine, Error>
    ensures { IsValueOf (memory_line (rows_of (found_of values.now))) result }
{
    match limit_of(alloc, values)? {
        Some(limit) => Ok(CommandLine::Update(Update::Limit(limit))),
        None => Ok(CommandLine::LookUp(LookUp::Memory)),
    }
}
