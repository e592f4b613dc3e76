//! What runs of hooks and commits say, on the writers for it. Nothing here allocates, since the command is
//! done already.
//!
//! The contracts cite `specs/RunText.antt` and `specs/Printing.antt`.

ghost use Rattle.std.specs.Prelude.{◌≡◌, ◌++◌, OnOk, OnErr, codes};
ghost use Rattle.std.specs.Fmt.{decimal};
ghost use Rattle.std.specs.List.{concat, flat_map};
ghost use Rattle.report_text.specs.Report.{line};
ghost use Rattle.text_output.specs.Outputs.{Has, HasBeginning, output_of};
ghost use Rattle.hook_cli.specs.declared.command_ending.CommandEnding.TheVariants as ends;
ghost use Rattle.hook_cli.specs.Printing.{IsSaid, IsPrintedOnStandardError, ending_of, untaken_line};
ghost use Rattle.hook_cli.specs.RunText.{IsCommitSaid, made_line, reported_text, reused_text, run_text, stopped_text, unsteady_line};

use crate::CommandEnding;
use crate::printing::{UNTAKEN_LINE, ending_of, tell_pieces};
use commit_flow::{PostCommit, StagedRun};
use hook_base::{Bytes, Text};
use hook_run::RunRefusal;
use itoa::Buffer;
use std::io::Write;
use text_output::{Unwritten, write_out, write_pieces};

/// Prints what a run answered: the report, and the ids of the hooks whose answer differs from the cached one.
/// If it is verbose, it also prints how many commands were answered from the cache.
pub(crate) fn say_run<O: Write, E: Write>(
    out: &mut O,
    err: &mut E,
    ran: &StagedRun,
    verbose: bool,
) -> CommandEnding
    ensures { IsSaid (ending_of ran.now.passed) (output_of (O.contents out.old) (O.contents out.new))
        (run_text verbose ran.now) (output_of (E.contents err.old) (E.contents err.new)) untaken_line result }
{
    let ending = ending_of_run(ran.passed);
    ending_of(write_run(out, ran, verbose), ending, err)
}

fn ending_of_run(passed: bool) -> CommandEnding
    ensures { result ≡ ending_of passed }
{
    if passed {
        CommandEnding::Done
    } else {
        CommandEnding::Failed
    }
}

/// Prints what is reported of hooks about a message.
pub(crate) fn say_message<O: Write, E: Write>(
    out: &mut O,
    err: &mut E,
    report: &[u8],
    passed: bool,
) -> CommandEnding
    ensures { IsSaid (ending_of passed) (output_of (O.contents out.old) (O.contents out.new)) report.now
        (output_of (E.contents err.old) (E.contents err.new)) untaken_line result }
{
    let ending = ending_of_run(passed);
    ending_of(write_out(out, report), ending, err)
}

/// Prints the reports of a commit that hooks refused.
pub(crate) fn say_failure<O: Write, E: Write>(
    out: &mut O,
    err: &mut E,
    reports: &[Bytes],
) -> CommandEnding
    ensures { IsSaid ends.Failed (output_of (O.contents out.old) (O.contents out.new)) (concat reports.now)
        (output_of (E.contents err.old) (E.contents err.new)) untaken_line result }
{
    ending_of(write_reports(out, reports), CommandEnding::Failed, err)
}

/// Prints the reports of a commit that was made, the post-commit one last, and its number. If the post-commit
/// hooks were stopped, standard error says why. If standard output gives an error, standard error says that
/// the commit was made.
pub(crate) fn say_commit<O: Write, E: Write>(
    out: &mut O,
    err: &mut E,
    number: u32,
    reports: &[Bytes],
    post: &PostCommit,
) -> CommandEnding
    ensures { IsCommitSaid number reports.now post.now (output_of (O.contents out.old) (O.contents out.new))
        (output_of (E.contents err.old) (E.contents err.new)) result }
{
    match post {
        PostCommit::Told(report) => match write_commit(out, number, reports, report.as_slice()) {
            Ok(()) => CommandEnding::Done,
            Err(Unwritten) => tell_made(err, number),
        },
        PostCommit::Stopped(refusal) => match write_commit(out, number, reports, b"") {
            Ok(()) => tell_stopped(err, refusal),
            Err(Unwritten) => tell_made_and_stopped(err, number, refusal),
        },
    }
}

// Reports why the post-commit hooks were stopped. The commit stays made (githooks(5), "post-commit").
fn tell_stopped<E: Write>(err: &mut E, refusal: &RunRefusal) -> CommandEnding
    ensures { IsPrintedOnStandardError ends.Done (output_of (E.contents err.old) (E.contents err.new))
        (stopped_text refusal.now) result }
{
    let mut digits = Buffer::new();
    let number = digits.format(refusal.number());
    tell_pieces(
        err,
        &["hookhost: refused: ", number, " ", refusal.name(), "\n"],
        CommandEnding::Done,
    )
}

// Reports that a commit was made whose text standard output didn't take.
fn tell_made<E: Write>(err: &mut E, number: u32) -> CommandEnding
    ensures { IsPrintedOnStandardError ends.CutOff (output_of (E.contents err.old) (E.contents err.new))
        (untaken_line ++ made_line number) result }
{
    let mut digits = Buffer::new();
    tell_pieces(
        err,
        &[
            UNTAKEN_LINE,
            "hookhost: commit ",
            digits.format(number),
            " was made\n",
        ],
        CommandEnding::CutOff,
    )
}

// Reports this, and why the post-commit hooks were stopped.
fn tell_made_and_stopped<E: Write>(err: &mut E, number: u32, refusal: &RunRefusal) -> CommandEnding
    ensures { IsPrintedOnStandardError ends.CutOff (output_of (E.contents err.old) (E.contents err.new))
        (untaken_line ++ (made_line number ++ stopped_text refusal.now)) result }
{
    let (mut digits, mut refused) = (Buffer::new(), Buffer::new());
    let made = digits.format(number);
    let number = refused.format(refusal.number());
    tell_pieces(
        err,
        &[
            UNTAKEN_LINE,
            "hookhost: commit ",
            made,
            " was made\nhookhost: refused: ",
            number,
            " ",
            refusal.name(),
            "\n",
        ],
        CommandEnding::CutOff,
    )
}

fn write_run<O: Write>(out: &mut O, ran: &StagedRun, verbose: bool) -> Result<(), Unwritten>
    ensures ok { OnOk result (Has (output_of (O.contents out.old) (O.contents out.new)) (run_text verbose ran.now)) }
    ensures err { OnErr result (HasBeginning (output_of (O.contents out.old) (O.contents out.new))
        (run_text verbose ran.now)) }
{
    write_reported(out, ran.report.as_slice(), ran.unsteady.as_slice())?;
    write_reused(out, verbose, ran.reused)
}

fn write_reported<O: Write>(out: &mut O, report: &[u8], unsteady: &[Text]) -> Result<(), Unwritten>
    ensures ok { OnOk result (Has (output_of (O.contents out.old) (O.contents out.new))
        (reported_text report.now unsteady.now)) }
    ensures err { OnErr result (HasBeginning (output_of (O.contents out.old) (O.contents out.new))
        (reported_text report.now unsteady.now)) }
{
    write_out(out, report)?;
    write_unsteady(out, unsteady)
}

// Writes how many commands were answered from the cache, if that is asked for.
fn write_reused<O: Write>(out: &mut O, verbose: bool, reused: u64) -> Result<(), Unwritten>
    ensures ok { OnOk result (Has (output_of (O.contents out.old) (O.contents out.new)) (reused_text verbose reused)) }
    ensures err { OnErr result (HasBeginning (output_of (O.contents out.old) (O.contents out.new))
        (reused_text verbose reused)) }
{
    if verbose {
        write_reused_line(out, reused)
    } else {
        Ok(())
    }
}

fn write_reused_line<O: Write>(out: &mut O, reused: u64) -> Result<(), Unwritten>
    ensures ok { OnOk result (Has (output_of (O.contents out.old) (O.contents out.new))
        (line (codes "answered from the cache: " ++ decimal reused))) }
    ensures err { OnErr result (HasBeginning (output_of (O.contents out.old) (O.contents out.new))
        (line (codes "answered from the cache: " ++ decimal reused))) }
{
    let mut digits = Buffer::new();
    write_pieces(
        out,
        &["answered from the cache: ", digits.format(reused), "\n"],
    )
}

fn write_unsteady<O: Write>(out: &mut O, unsteady: &[Text]) -> Result<(), Unwritten>
    ensures ok { OnOk result (Has (output_of (O.contents out.old) (O.contents out.new))
        (flat_map unsteady_line unsteady.now)) }
    ensures err { OnErr result (HasBeginning (output_of (O.contents out.old) (O.contents out.new))
        (flat_map unsteady_line unsteady.now)) }
{
    'ids: for id in unsteady {
        write_unsteady_line(out, id.as_str())?;
    }
    Ok(())
}

fn write_unsteady_line<O: Write>(out: &mut O, id: &str) -> Result<(), Unwritten>
    ensures ok { OnOk result (Has (output_of (O.contents out.old) (O.contents out.new)) (unsteady_line id.now)) }
    ensures err { OnErr result (HasBeginning (output_of (O.contents out.old) (O.contents out.new))
        (unsteady_line id.now)) }
{
    write_pieces(out, &["unsteady: ", id, "\n"])
}

// Writes the reports, the post-commit one last, and the number of the commit.
fn write_commit<O: Write>(
    out: &mut O,
    number: u32,
    reports: &[Bytes],
    post: &[u8],
) -> Result<(), Unwritten>
    ensures ok { OnOk result (Has (output_of (O.contents out.old) (O.contents out.new))
        (concat reports.now ++ (post.now ++ line (codes "commit " ++ decimal number)))) }
    ensures err { OnErr result (HasBeginning (output_of (O.contents out.old) (O.contents out.new))
        (concat reports.now ++ (post.now ++ line (codes "commit " ++ decimal number)))) }
{
    write_reports(out, reports)?;
    write_post(out, number, post)
}

fn write_post<O: Write>(out: &mut O, number: u32, post: &[u8]) -> Result<(), Unwritten>
    ensures ok { OnOk result (Has (output_of (O.contents out.old) (O.contents out.new))
        (post.now ++ line (codes "commit " ++ decimal number))) }
    ensures err { OnErr result (HasBeginning (output_of (O.contents out.old) (O.contents out.new))
        (post.now ++ line (codes "commit " ++ decimal number))) }
{
    write_out(out, post)?;
    write_number(out, number)
}

fn write_number<O: Write>(out: &mut O, number: u32) -> Result<(), Unwritten>
    ensures ok { OnOk result (Has (output_of (O.contents out.old) (O.contents out.new))
        (line (codes "commit " ++ decimal number))) }
    ensures err { OnErr result (HasBeginning (output_of (O.contents out.old) (O.contents out.new))
        (line (codes "commit " ++ decimal number))) }
{
    let mut digits = Buffer::new();
    write_pieces(out, &["commit ", digits.format(number), "\n"])
}

fn write_reports<O: Write>(out: &mut O, reports: &[Bytes]) -> Result<(), Unwritten>
    ensures ok { OnOk result (Has (output_of (O.contents out.old) (O.contents out.new)) (concat reports.now)) }
    ensures err { OnErr result (HasBeginning (output_of (O.contents out.old) (O.contents out.new)) (concat reports.now)) }
{
    'reports: for report in reports {
        write_out(out, report.as_slice())?;
    }
    Ok(())
}
