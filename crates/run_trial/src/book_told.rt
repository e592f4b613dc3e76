//! What the rows show of a run over a book: its result, what the children reported, and what is cached
//! afterwards.

use crate::book_plays::BookPlay;
use crate::child_runs::with_changes;
use child_port::TableRow;
use hook_base::Tree;
use hook_run::{RunOut, RunRefusal};
use result_book::{Book, BookFault};
use std::alloc::Global;
use trial_rows::{AnswerBytes, Stop, row_of, text_of, verdict_of};

pub(crate) fn with_ran(
    answer: AnswerBytes,
    ran: &Result<RunOut, RunRefusal>,
    calls: u64,
    faults: u64,
    tree: &Tree,
) -> Result<AnswerBytes, Stop> {
    match ran {
        Ok(out) => {
            let answer = with_counts(answer.text(verdict_of(out.passed)), calls, faults);
            with_out(answer, out, tree)
        }
        Err(refused) => Ok(with_counts(with_refusal(answer, refused), calls, faults)),
    }
}

fn with_refusal(answer: AnswerBytes, refused: &RunRefusal) -> AnswerBytes {
    let answer = answer.shown(refused.number());
    answer.texts(&[" ", refused.name(), ": "]).shown(refused)
}

fn with_counts(answer: AnswerBytes, calls: u64, faults: u64) -> AnswerBytes {
    let answer = answer.text(", ").shown(calls).text(" calls, ");
    answer.shown(faults).text(" faults\n")
}

fn with_out(answer: AnswerBytes, out: &RunOut, tree: &Tree) -> Result<AnswerBytes, Stop> {
    let mut answer = answer;
    for id in out.unsteady.as_slice() {
        answer = answer.texts(&["unsteady: ", id.as_str(), "\n"]);
    }
    let changes = tree.changes_to(&out.tree)?;
    Ok(with_changes(answer, changes.as_slice()).bytes(out.report.as_slice()))
}

/// Adds how many results are cached, and whether that of each row of the table is.
pub(crate) fn with_remembered(
    answer: AnswerBytes,
    play: &mut BookPlay,
) -> Result<AnswerBytes, Stop> {
    play.book.fuse(0, BookFault::OutOfMemory);
    let mut answer = answer.shown(play.book.len()).text(" remembered:");
    for text in play.rows.as_slice() {
        let word = word_of_text(answer.alloc(), &mut play.book, text.as_slice())?;
        answer = answer.text(word);
    }
    Ok(answer.text("\n"))
}

fn word_of_text(alloc: Global, book: &mut impl Book, text: &[u8]) -> Result<&'static str, Stop> {
    let row = row_of(alloc, text_of(text)?)?;
    word_of(book, &row)
}

fn word_of(book: &mut impl Book, row: &TableRow) -> Result<&'static str, Stop> {
    match book.find(row.words.as_slice(), &row.seen) {
        Ok(None) => Ok(" lacking"),
        Ok(Some(answer)) if answer == row.answer => Ok(" held"),
        Ok(Some(_)) => Ok(" other"),
        Err(_) => Err(Stop::OutOfMemory),
    }
}
