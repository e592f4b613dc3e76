//! The values of a command, and the errors for those that can't be taken.
//!
//! The contracts cite `specs/CommandLine.antt`.

ghost use Rattle.std.specs.Prelude.{◌≡◌, ◌∷◌, IfOk, Some, [], codes, false, map};
ghost use Rattle.clap.specs.Words.{HasKind, first_of, found_of, rows_of};
ghost use Rattle.clap.specs.declared.error.kind.ErrorKind.TheVariants.{InvalidValue};
ghost use Rattle.command_line.specs.CommandLine.{IsValueOf, color_in, flag_in, jobs_in, jobs_number, limit_in, limit_number, mode_in, number_in, asked_stage_in, version_in, word_in, words_in};

use crate::commands::{
    add_command, cat_command, commit_command, hook_command, memory_command, run_command,
    run_files_command, show_command, try_command,
};
use crate::help_length::HelpLength;
use crate::{AnswerLimit, ColorChoice, FileVersion, StageChoice};
use clap::error::ErrorKind;
use clap::{ArgMatches, Command, Error};
use hook_base::{Items, Mode, Text};
use std::alloc::{AllocError, Global};
use store_faults::MOST_ANSWERS;

// The most commands that may run at the same time.
const MOST_JOBS: u32 = 256;

/// A value of one word.
pub(crate) fn text_of(alloc: Global, values: &ArgMatches<'_>, id: &str) -> Result<Text, AllocError>
    ensures { IfOk result (λ text. text ≡ word_in id.now (rows_of (found_of values.now))) }
{
    Ok(Text::from(String::from_str(alloc, word_of(values, id))?))
}

/// A value of one word, as the words of the line hold it.
pub(crate) fn word_of<'a>(values: &ArgMatches<'a>, id: &str) -> &'a str
    ensures { result.now ≡ word_in id.now (rows_of (found_of values.now)) }
{
    values.get_str(id).unwrap_or("")
}

/// A value of one word, or `None` if it was left out.
pub(crate) fn maybe_text_of(
    alloc: Global,
    values: &ArgMatches<'_>,
    id: &str,
) -> Result<Option<Text>, AllocError>
    ensures { IfOk result (λ text. text ≡ first_of id.now (rows_of (found_of values.now))) }
{
    match values.get_str(id) {
        Some(text) => Ok(Some(Text::from(String::from_str(alloc, text)?))),
        None => Ok(None),
    }
}

/// Whether a flag was given.
pub(crate) fn flag_of(values: &ArgMatches<'_>, id: &str) -> bool
    ensures { result ≡ flag_in id.now (rows_of (found_of values.now)) }
{
    word_of(values, id) == "true"
}

/// A value of several words.
pub(crate) fn texts_of(
    alloc: Global,
    values: &ArgMatches<'_>,
    id: &str,
) -> Result<Items<Text>, AllocError>
    ensures { IfOk result (λ texts. texts ≡ words_in id.now (rows_of (found_of values.now))) }
{
    match values.get_strs(id) {
        Some(texts) => Ok(Items::from(copied(alloc, texts)?)),
        None => Ok(Items::from(Vec::new(alloc))),
    }
}

fn copied(alloc: Global, texts: &[&str]) -> Result<Vec<Text>, AllocError>
    ensures { IfOk result (λ copies. copies.items ≡ map (λ s. s.now) texts.now) }
{
    let mut copies = Vec::new(alloc);
    for text in texts {
        copies.push(Text::from(String::from_str(alloc, text)?))?;
    }
    Ok(copies)
}

/// The mode that `--chmod` asks for. A value other than `+x` is an error.
pub(crate) fn mode_of(alloc: Global, values: &ArgMatches<'_>) -> Result<Option<Mode>, Error>
    ensures { IsValueOf (mode_in (first_of (codes "chmod") (rows_of (found_of values.now)))) result }
{
    match values.get_str("chmod") {
        None => Ok(None),
        Some("+x") => Ok(Some(Mode::Executable)),
        Some(text) => Err(chmod_error(alloc, text)),
    }
}

/// The stage that `--hook-stage` asks for. A value other than `pre-commit` and `manual` is an error, with the
/// usage of the command of this name.
pub(crate) fn stage_of(
    alloc: Global,
    command: &str,
    values: &ArgMatches<'_>,
) -> Result<StageChoice, Error>
    ensures { IsValueOf (asked_stage_in (first_of (codes "hook-stage") (rows_of (found_of values.now)))) result }
{
    match values.get_str("hook-stage") {
        None => Ok(StageChoice::PreCommit),
        Some("pre-commit") => Ok(StageChoice::PreCommit),
        Some("manual") => Ok(StageChoice::Manual),
        Some(text) => Err(stage_error(alloc, command, text)),
    }
}

/// When the report has colors, as `--color` asks for it. A value other than `auto`, `always` and `never` is
/// an error, with the usage of the command of this name.
pub(crate) fn color_of(
    alloc: Global,
    command: &str,
    values: &ArgMatches<'_>,
) -> Result<ColorChoice, Error>
    ensures { IsValueOf (color_in (first_of (codes "color") (rows_of (found_of values.now)))) result }
{
    match values.get_str("color") {
        None => Ok(ColorChoice::Auto),
        Some("auto") => Ok(ColorChoice::Auto),
        Some("always") => Ok(ColorChoice::Always),
        Some("never") => Ok(ColorChoice::Never),
        Some(text) => Err(color_error(alloc, command, text)),
    }
}

/// The number of `show`. A text that is no number of 32 bits is an error.
pub(crate) fn number_of(alloc: Global, values: &ArgMatches<'_>) -> Result<u32, Error>
    ensures { IsValueOf (number_in (word_in (codes "N") (rows_of (found_of values.now)))) result }
{
    let text = word_of(values, "N");
    match text.parse::<u32>() {
        Ok(number) => Ok(number),
        Err(_) => Err(number_error(alloc, text)),
    }
}

/// The bytes that `--fixed` or `--commit` asks for. Both together are an error, and so is a commit that is no
/// number of 32 bits.
pub(crate) fn version_of(alloc: Global, values: &ArgMatches<'_>) -> Result<FileVersion, Error>
    ensures { IsValueOf (version_in (flag_in (codes "fixed") (rows_of (found_of values.now)))
        (first_of (codes "commit") (rows_of (found_of values.now)))) result }
{
    let is_fixed = flag_of(values, "fixed");
    match values.get_str("commit") {
        None if is_fixed => Ok(FileVersion::Fixed),
        None => Ok(FileVersion::Staged),
        Some(text) if is_fixed => Err(versions_error(alloc, text)),
        Some(text) => commit_of(alloc, text),
    }
}

// The commit with the number that the text writes.
fn commit_of(alloc: Global, text: &str) -> Result<FileVersion, Error>
    ensures { IsValueOf (version_in false (Some text.now)) result }
{
    match text.parse::<u32>() {
        Ok(number) => Ok(FileVersion::Committed(number)),
        Err(_) => Err(commit_error(alloc, text)),
    }
}

/// The number that `--limit` asks for, or `None` if it is left out. A text that is no number from 1 to
/// 100,000 is an error.
pub(crate) fn limit_of(alloc: Global, values: &ArgMatches<'_>) -> Result<Option<AnswerLimit>, Error>
    ensures { IsValueOf (limit_in (first_of (codes "limit") (rows_of (found_of values.now)))) result }
{
    match values.get_str("limit") {
        None => Ok(None),
        Some(text) => limit_from(alloc, text),
    }
}

// The limit that the text writes.
fn limit_from(alloc: Global, text: &str) -> Result<Option<AnswerLimit>, Error>
    ensures { IsValueOf (limit_in (Some text.now)) result }
{
    match limit_number(text) {
        Some(limit) => Ok(Some(limit)),
        None => Err(limit_error(alloc, text)),
    }
}

fn limit_number(text: &str) -> Option<AnswerLimit>
    ensures { result ≡ limit_number text.now }
{
    match text.parse::<u32>() {
        Ok(number) => AnswerLimit::read(number),
        Err(_) => None,
    }
}

/// How many commands may run at the same time, as `--jobs` asks for it, or `None` if it is left out. A text
/// that is no number from 1 to 256 is an error, with the usage of the command of this name.
pub(crate) fn jobs_of(
    alloc: Global,
    command: &str,
    values: &ArgMatches<'_>,
) -> Result<Option<u32>, Error>
    ensures { IsValueOf (jobs_in (first_of (codes "jobs") (rows_of (found_of values.now)))) result }
{
    match values.get_str("jobs") {
        None => Ok(None),
        Some(text) => jobs_from(alloc, command, text),
    }
}

// The number of commands that the text writes.
fn jobs_from(alloc: Global, command: &str, text: &str) -> Result<Option<u32>, Error>
    ensures { IsValueOf (jobs_in (Some text.now)) result }
{
    match jobs_number(text) {
        Some(jobs) => Ok(Some(jobs)),
        None => Err(jobs_error(alloc, command, text)),
    }
}

fn jobs_number(text: &str) -> Option<u32>
    ensures { result ≡ jobs_number text.now }
{
    match text.parse::<u32>() {
        Ok(number) if 1 <= number && number <= MOST_JOBS => Some(number),
        _ => None,
    }
}

fn chmod_error(alloc: Global, text: &str) -> Error
    ensures { HasKind (InvalidValue ∷ []) result }
{
    match chmod_message(alloc, text) {
        Ok(message) => error_of(add_command(alloc, HelpLength::Short), message.as_str()),
        Err(refused) => Error::from(refused),
    }
}

fn chmod_message(alloc: Global, text: &str) -> Result<String, AllocError> {
    format!(in alloc; "invalid value '{text}' for '--chmod <MODE>': only +x is allowed")
}

fn stage_error(alloc: Global, command: &str, text: &str) -> Error
    ensures { HasKind (InvalidValue ∷ []) result }
{
    match stage_message(alloc, text) {
        Ok(message) => error_of(command_of_reports(alloc, command), message.as_str()),
        Err(refused) => Error::from(refused),
    }
}

fn stage_message(alloc: Global, text: &str) -> Result<String, AllocError> {
    format!(in alloc;
        "invalid value '{text}' for '--hook-stage <STAGE>': only pre-commit and manual are allowed"
    )
}

fn color_error(alloc: Global, command: &str, text: &str) -> Error
    ensures { HasKind (InvalidValue ∷ []) result }
{
    match color_message(alloc, text) {
        Ok(message) => error_of(command_of_reports(alloc, command), message.as_str()),
        Err(refused) => Error::from(refused),
    }
}

fn color_message(alloc: Global, text: &str) -> Result<String, AllocError> {
    format!(in alloc;
        "invalid value '{text}' for '--color <WHEN>': only auto, always and never are allowed"
    )
}

// The command of this name, one of those that print a report.
fn command_of_reports<'a>(alloc: Global, name: &str) -> Result<Command<'a>, AllocError> {
    match name {
        "try" => try_command(alloc, HelpLength::Short),
        "commit" => commit_command(alloc, HelpLength::Short),
        "run-files" => run_files_command(alloc, HelpLength::Short),
        "hook" => hook_command(alloc, HelpLength::Short),
        _ => run_command(alloc, HelpLength::Short),
    }
}

fn number_error(alloc: Global, text: &str) -> Error
    ensures { HasKind (InvalidValue ∷ []) result }
{
    match number_message(alloc, text, "<N>") {
        Ok(message) => error_of(show_command(alloc, HelpLength::Short), message.as_str()),
        Err(refused) => Error::from(refused),
    }
}

fn commit_error(alloc: Global, text: &str) -> Error
    ensures { HasKind (InvalidValue ∷ []) result }
{
    match number_message(alloc, text, "--commit <N>") {
        Ok(message) => error_of(cat_command(alloc, HelpLength::Short), message.as_str()),
        Err(refused) => Error::from(refused),
    }
}

fn limit_error(alloc: Global, text: &str) -> Error
    ensures { HasKind (InvalidValue ∷ []) result }
{
    match most_message(alloc, text, "limit", MOST_ANSWERS) {
        Ok(message) => error_of(memory_command(alloc, HelpLength::Short), message.as_str()),
        Err(refused) => Error::from(refused),
    }
}

fn jobs_error(alloc: Global, command: &str, text: &str) -> Error
    ensures { HasKind (InvalidValue ∷ []) result }
{
    match most_message(alloc, text, "jobs", MOST_JOBS) {
        Ok(message) => error_of(command_of_reports(alloc, command), message.as_str()),
        Err(refused) => Error::from(refused),
    }
}

// What is wrong with the text of an option that takes a number from 1 to `most`.
fn most_message(alloc: Global, text: &str, name: &str, most: u32) -> Result<String, AllocError> {
    format!(in alloc;
        "invalid value '{text}' for '--{name} <N>': it has to be a number from 1 to {most}"
    )
}

fn number_message(alloc: Global, text: &str, name: &str) -> Result<String, AllocError> {
    format!(in alloc;
        "invalid value '{text}' for '{name}': it has to be a number up to {}",
        u32::MAX
    )
}

fn versions_error(alloc: Global, text: &str) -> Error
    ensures { HasKind (InvalidValue ∷ []) result }
{
    match versions_message(alloc, text) {
        Ok(message) => error_of(cat_command(alloc, HelpLength::Short), message.as_str()),
        Err(refused) => Error::from(refused),
    }
}

fn versions_message(alloc: Global, text: &str) -> Result<String, AllocError> {
    format!(in alloc; "invalid value '{text}' for '--commit <N>': it can't be used with --fixed")
}

/// The error of a value that the command doesn't take, with its usage.
pub(crate) fn error_of(command: Result<Command<'_>, AllocError>, message: &str) -> Error
    ensures { HasKind (InvalidValue ∷ []) result }
{
    let made = match command {
        Ok(command) => made_by(command, message),
        Err(refused) => Err(refused),
    };
    match made {
        Ok(error) => error,
        Err(refused) => Error::from(refused),
    }
}

fn made_by(command: Command<'_>, message: &str) -> Result<Error, AllocError>
    ensures { IfOk result (HasKind (InvalidValue ∷ [])) }
{
    let mut command = command;
    command.error(ErrorKind::InvalidValue, message)
}
