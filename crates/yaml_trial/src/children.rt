//! A play on children that answer by a table. Each argument is a row of the table, or asks for a child.

use crate::child_rows::{cut, row_of, tree_with, words_of};
use crate::steps::with_changes;
use child_port::{Children, Outcome, TableChildren};
use hook_base::Items;
use std::alloc::Global;
use trial_rows::{AnswerBytes, Stop, texts_of};

/// What each requested child gives, and at the end the calls and the faults.
pub(crate) fn answer(alloc: Global, words: &[Vec<u8>]) -> Result<AnswerBytes, Stop> {
    let lines = texts_of(alloc, words)?;
    let mut children = children_of(alloc, lines.as_slice())?;
    let answer = asked_all(alloc, &mut children, lines.as_slice())?;
    let answer = answer.text("calls ").shown(children.calls());
    Ok(answer.text(" faults ").shown(children.faults()))
}

/// The children whose table has the rows among the lines. Each line is a row or asks for a child.
fn children_of(alloc: Global, lines: &[&str]) -> Result<TableChildren, Stop> {
    let mut rows = Vec::new(alloc);
    for line in lines {
        match cut(*line) {
            ("row", row) => rows.push(row_of(alloc, row)?)?,
            ("ask", _) => {}
            _ => return Err(Stop::BadLine),
        }
    }
    Ok(TableChildren::new(Items::from(rows)))
}

fn asked_all(
    alloc: Global,
    children: &mut TableChildren,
    lines: &[&str],
) -> Result<AnswerBytes, Stop> {
    let mut answer = AnswerBytes::new(alloc);
    for line in lines {
        if let ("ask", asked) = cut(*line) {
            answer = with_outcome(answer, &outcome_of(alloc, children, asked)?)?;
        }
    }
    Ok(answer)
}

/// What a child with these words gives, if it sees a tree of one file.
fn outcome_of(alloc: Global, children: &mut TableChildren, asked: &str) -> Result<Outcome, Stop> {
    let (words, seen) = cut(asked);
    let (path, bytes) = cut(seen);
    let words = words_of(alloc, words)?;
    let seen = tree_with(alloc, path, bytes)?;
    if children.calls() == u64::MAX {
        return Err(Stop::BadLine);
    }
    Ok(children.run(words.as_slice(), &seen, &seen)?)
}

/// Adds an outcome, and whether its copy is equal.
fn with_outcome(answer: AnswerBytes, outcome: &Outcome) -> Result<AnswerBytes, Stop> {
    let is_same = outcome.clone()? == *outcome;
    Ok(with_end(answer, outcome).text(" ").shown(is_same).text(";"))
}

fn with_end(answer: AnswerBytes, outcome: &Outcome) -> AnswerBytes {
    match outcome {
        Outcome::Done(done) => {
            let answer = answer.text("done ").shown(done.status).text(" ");
            let answer = answer.bytes(done.output.as_slice());
            with_changes(answer, done.changes.as_slice())
        }
        Outcome::Failed(fault) => answer.text("failed ").debug(*fault),
    }
}
