//! Several changes of the staged files, all or none. (docs/REFERENCE.md, "Several files".)
//!
//! The contracts cite `specs/StagingOver.antt`.

ghost use Rattle.std.specs.Prelude.{◌≡◌, ◌≢◌, ◌⊎◌, [], OnErr, OnOk, option_map};
ghost use Rattle.report_text.specs.Report.{line};
ghost use Rattle.text_output.specs.Outputs.{Has, HasBeginning, output_of};
ghost use Rattle.text_output.specs.QuotedPaths.{told_path};
ghost use Rattle.hook_cli.specs.declared.command_ending.CommandEnding.TheVariants as ends;
ghost use Rattle.hook_cli.specs.Printing.{IsPrintedOnStandardError};
ghost use Rattle.hook_cli.specs.StagingOver.{AreStaged, at_path_text, at_text, path_at, path_of_edit, stop_text};

use crate::CommandEnding;
use crate::printing::tell;
use commit_flow::{Host, StagingEdit, StagingStop};
use sqlite::Alter;
use std::io::Write;
use text_output::{Unwritten, write_path, write_pieces};

/// Makes several changes of the staged files by one call of the host, all or none. There must be at least one.
/// If they are made, nothing is printed. If they are refused, `err` has why, as for the command that makes the
/// refused change alone, and on the next line its path. If memory or the database refuses all of them together,
/// there is no such line.
pub(crate) fn staged<S: Alter, E: Write>(
    edits: &[StagingEdit],
    host: &mut Host<S>,
    err: &mut E,
) -> CommandEnding
    requires { edits.now ≢ [] }
    ensures staged { AreStaged S.Store host.old host.new edits.now (output_of (E.contents err.old) (E.contents err.new))
        result }
    ensures one_of { (result ≡ ends.Done) ⊎ (result ≡ ends.Refused) ⊎ (result ≡ ends.Untold) }
{
    match host.stage_all(edits) {
        Ok(()) => CommandEnding::Done,
        Err(stop) => tell_stop(edits, &stop, err),
    }
}

// Reports why the changes are refused, and at which path.
fn tell_stop<E: Write>(edits: &[StagingEdit], stop: &StagingStop, err: &mut E) -> CommandEnding
    ensures told { IsPrintedOnStandardError ends.Refused (output_of (E.contents err.old) (E.contents err.new))
        (stop_text edits.now stop.now) result }
    ensures one_of { (result ≡ ends.Refused) ⊎ (result ≡ ends.Untold) }
{
    match tell(err, &stop.refusal) {
        CommandEnding::Refused => tell_at(edits, stop.at, err),
        ending => ending,
    }
}

// Reports the path of the change at an index, if there is one.
fn tell_at<E: Write>(edits: &[StagingEdit], at: Option<usize>, err: &mut E) -> CommandEnding
    ensures told { IsPrintedOnStandardError ends.Refused (output_of (E.contents err.old) (E.contents err.new))
        (at_text (path_at edits.now at)) result }
    ensures one_of { (result ≡ ends.Refused) ⊎ (result ≡ ends.Untold) }
{
    match path_at(edits, at) {
        Some(path) => tell_at_path(path, err),
        None => CommandEnding::Refused,
    }
}

fn tell_at_path<E: Write>(path: &str, err: &mut E) -> CommandEnding
    ensures told { IsPrintedOnStandardError ends.Refused (output_of (E.contents err.old) (E.contents err.new))
        (at_path_text path.now) result }
    ensures one_of { (result ≡ ends.Refused) ⊎ (result ≡ ends.Untold) }
{
    match write_at_path(path, err) {
        Ok(()) => CommandEnding::Refused,
        Err(Unwritten) => CommandEnding::Untold,
    }
}

fn write_at_path<E: Write>(path: &str, err: &mut E) -> Result<(), Unwritten>
    ensures ok { OnOk result (Has (output_of (E.contents err.old) (E.contents err.new)) (at_path_text path.now)) }
    ensures err { OnErr result (HasBeginning (output_of (E.contents err.old) (E.contents err.new))
        (at_path_text path.now)) }
{
    write_pieces(err, &["hookhost: at "])?;
    write_path_line(path, err)
}

fn write_path_line<E: Write>(path: &str, err: &mut E) -> Result<(), Unwritten>
    ensures ok { OnOk result (Has (output_of (E.contents err.old) (E.contents err.new)) (line (told_path path.now))) }
    ensures err { OnErr result (HasBeginning (output_of (E.contents err.old) (E.contents err.new))
        (line (told_path path.now))) }
{
    write_path(err, path)?;
    write_pieces(err, &["\n"])
}

fn path_at(edits: &[StagingEdit], at: Option<usize>) -> Option<&str>
    ensures { option_map (λ s. s.now) result ≡ path_at edits.now at }
{
    match at {
        Some(at) => match edits.get(at) {
            Some(edit) => Some(path_of(edit)),
            None => None,
        },
        None => None,
    }
}

fn path_of(edit: &StagingEdit) -> &str
    ensures { result.now ≡ path_of_edit edit.now }
{
    match edit {
        StagingEdit::Add { path, .. } => path.as_str(),
        StagingEdit::Remove { path } => path.as_str(),
    }
}
