//! What a command says, on the writer for it. Nothing here allocates, since the command is done already, or
//! refused for want of memory.
//!
//! The contracts cite `specs/Printing.antt`, `specs/RefusalText.antt`, `specs/MemoryText.antt` and
//! `repository_text/specs/FixesText.antt`.

ghost use Rattle.std.specs.Prelude.{◌≡◌, ◌++◌, OnErr, OnOk, Some, codes, map};
ghost use Rattle.std.specs.Fmt.{decimal};
ghost use Rattle.std.specs.List.{concat};
ghost use Rattle.report_text.specs.Report.{line};
ghost use Rattle.repository_text.specs.FixesText.{accepted_text};
ghost use Rattle.text_output.specs.Outputs.{IsSilent, output_of};
ghost use Rattle.hook_cli.specs.declared.command_ending.CommandEnding.TheVariants as ends;
ghost use Rattle.hook_cli.specs.MemoryText.{forgotten_text, remembered_text};
ghost use Rattle.hook_cli.specs.Printing.{IsSaid, IsPrintedOnStandardError, untaken_line};
ghost use Rattle.hook_cli.specs.RefusalText.{inner_text, no_commit_text, no_file_text, no_fixed_text, refusal_text};

use crate::CommandEnding;
use commit_flow::HostRefusal;
use itoa::Buffer;
use std::io::Write;
use text_output::{Unwritten, write_out, write_pieces};

/// The line on standard error if standard output gave an error.
pub(crate) const UNTAKEN_LINE: &str = "hookhost: standard output was not taken\n";

/// Prints the text of a command that is done.
pub(crate) fn say<O: Write, E: Write>(out: &mut O, err: &mut E, text: &[u8]) -> CommandEnding
    ensures { IsSaid ends.Done (output_of (O.contents out.old) (O.contents out.new)) text.now
        (output_of (E.contents err.old) (E.contents err.new)) untaken_line result }
{
    ending_of(write_out(out, text), CommandEnding::Done, err)
}

/// Prints how many fixes were accepted.
pub(crate) fn say_accepted<O: Write, E: Write>(
    out: &mut O,
    err: &mut E,
    number: u32,
) -> CommandEnding
    ensures { IsSaid ends.Done (output_of (O.contents out.old) (O.contents out.new)) (accepted_text number)
        (output_of (E.contents err.old) (E.contents err.new)) untaken_line result }
{
    say_number(out, err, "accepted: ", u64::from(number))
}

/// Prints how many results are cached.
pub(crate) fn say_remembered<O: Write, E: Write>(
    out: &mut O,
    err: &mut E,
    number: u64,
) -> CommandEnding
    ensures { IsSaid ends.Done (output_of (O.contents out.old) (O.contents out.new)) (remembered_text number)
        (output_of (E.contents err.old) (E.contents err.new)) untaken_line result }
{
    say_number(out, err, "remembered: ", number)
}

/// Prints how many cached results were removed.
pub(crate) fn say_forgotten<O: Write, E: Write>(
    out: &mut O,
    err: &mut E,
    number: u64,
) -> CommandEnding
    ensures { IsSaid ends.Done (output_of (O.contents out.old) (O.contents out.new)) (forgotten_text number)
        (output_of (E.contents err.old) (E.contents err.new)) untaken_line result }
{
    say_number(out, err, "forgotten: ", number)
}

// Prints a word and a number.
fn say_number<O: Write, E: Write>(
    out: &mut O,
    err: &mut E,
    word: &str,
    number: u64,
) -> CommandEnding
    ensures { IsSaid ends.Done (output_of (O.contents out.old) (O.contents out.new)) (line (word.now ++ decimal number))
        (output_of (E.contents err.old) (E.contents err.new)) untaken_line result }
{
    let mut digits = Buffer::new();
    let written = write_pieces(out, &[word, digits.format(number), "\n"]);
    ending_of(written, CommandEnding::Done, err)
}

/// How a command ends: as given if standard output took its text, otherwise by an error, which standard error
/// reports.
pub(crate) fn ending_of<E: Write>(
    written: Result<(), Unwritten>,
    ending: CommandEnding,
    err: &mut E,
) -> CommandEnding
    ensures taken { OnOk written (IsSilent (output_of (E.contents err.old) (E.contents err.new)) × (result ≡ ending)) }
    ensures untaken { OnErr written (IsPrintedOnStandardError ends.CutOff
        (output_of (E.contents err.old) (E.contents err.new)) untaken_line result) }
{
    match written {
        Ok(()) => ending,
        Err(Unwritten) => tell_pieces(err, &[UNTAKEN_LINE], CommandEnding::CutOff),
    }
}

/// Reports why a command is refused.
pub(crate) fn tell<E: Write>(err: &mut E, refusal: &HostRefusal) -> CommandEnding
    ensures { IsPrintedOnStandardError ends.Refused (output_of (E.contents err.old) (E.contents err.new))
        (refusal_text refusal.now) result }
{
    let mut digits = Buffer::new();
    let number = digits.format(refusal.number());
    match refusal.inner_number() {
        Some(inner) => tell_refusal_of(err, number, refusal.name(), inner),
        None => tell_pieces(
            err,
            &["hookhost: refused: ", number, " ", refusal.name(), "\n"],
            CommandEnding::Refused,
        ),
    }
}

// Reports a refusal that carries the number of an inner fault.
fn tell_refusal_of<E: Write>(err: &mut E, number: &str, name: &str, inner: u8) -> CommandEnding
    ensures { IsPrintedOnStandardError ends.Refused (output_of (E.contents err.old) (E.contents err.new))
        (line (codes "hookhost: refused: " ++ number.now ++ codes " " ++ name.now ++ inner_text (Some inner))) result }
{
    let mut digits = Buffer::new();
    let inner = digits.format(inner);
    tell_pieces(
        err,
        &["hookhost: refused: ", number, " ", name, " ", inner, "\n"],
        CommandEnding::Refused,
    )
}

/// Reports that no commit has the number.
pub(crate) fn tell_no_commit<E: Write>(err: &mut E, number: u32) -> CommandEnding
    ensures { IsPrintedOnStandardError ends.Refused (output_of (E.contents err.old) (E.contents err.new))
        (no_commit_text number) result }
{
    let mut digits = Buffer::new();
    tell_pieces(
        err,
        &["hookhost: no commit ", digits.format(number), "\n"],
        CommandEnding::Refused,
    )
}

/// Reports that no fix gives bytes to the path.
pub(crate) fn tell_no_fixed<E: Write>(err: &mut E, path: &str) -> CommandEnding
    ensures { IsPrintedOnStandardError ends.Refused (output_of (E.contents err.old) (E.contents err.new))
        (no_fixed_text path.now) result }
{
    tell_pieces(
        err,
        &["hookhost: no fixed bytes of ", path, "\n"],
        CommandEnding::Refused,
    )
}

/// Reports that the commit has no file at the path.
pub(crate) fn tell_no_file<E: Write>(err: &mut E, number: u32, path: &str) -> CommandEnding
    ensures { IsPrintedOnStandardError ends.Refused (output_of (E.contents err.old) (E.contents err.new))
        (no_file_text number path.now) result }
{
    let mut digits = Buffer::new();
    tell_pieces(
        err,
        &[
            "hookhost: no ",
            path,
            " in commit ",
            digits.format(number),
            "\n",
        ],
        CommandEnding::Refused,
    )
}

/// Writes a text to standard error, piece by piece, for a command that ends in the given way.
pub(crate) fn tell_pieces<'a, E: Write>(
    err: &mut E,
    pieces: &'a [&'a str],
    ending: CommandEnding,
) -> CommandEnding
    ensures { IsPrintedOnStandardError ending (output_of (E.contents err.old) (E.contents err.new))
        (concat (map (λ s. s.now) pieces.entry.now)) result }
{
    match write_pieces(err, pieces) {
        Ok(()) => ending,
        Err(Unwritten) => CommandEnding::Untold,
    }
}
