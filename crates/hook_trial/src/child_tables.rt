//! The table from which the children of a row answer, read from the row's first words.
//!
//! `child ROW` is a row of the table (`child_rows.rt` of `trial_rows`). `failing FAULT ROW` is one whose
//! child fails; only its words and seen files matter. Rows with equal words and equal seen files take turns.
//! A child without a row isn't started. If `spent` is the first word, no child can be counted.

use crate::turn_children::{Turn, TurnChildren};
use child_port::{Outcome, TableRow};
use std::alloc::Global;
use trial_rows::{Stop, Words, fault_of, row_of};

/// The children that answer from the rows in the first words.
pub(crate) fn children_of(alloc: Global, words: &mut Words<'_>) -> Result<TurnChildren, Stop> {
    let is_spent = words.take("spent")?;
    let mut turns = Vec::new(alloc);
    for _ in 0..words.left.len() {
        match turn_of(alloc, words)? {
            Some(turn) => turns.push(turn)?,
            None => break,
        }
    }
    let mut children = TurnChildren::new(turns);
    if is_spent {
        children.spend();
    }
    Ok(children)
}

// The next row of the table, if there is one.
fn turn_of(alloc: Global, words: &mut Words<'_>) -> Result<Option<Turn>, Stop> {
    if words.take("child")? {
        return Ok(Some(answering(alloc, words.text()?)?));
    }
    if words.take("failing")? {
        return Ok(Some(failing(alloc, words.bytes()?, words.text()?)?));
    }
    Ok(None)
}

fn answering(alloc: Global, row: &str) -> Result<Turn, Stop> {
    let TableRow {
        words,
        seen,
        answer,
    } = row_of(alloc, row)?;
    Ok(Turn::new(words, seen, Outcome::Done(answer)))
}

fn failing(alloc: Global, fault: &[u8], row: &str) -> Result<Turn, Stop> {
    let TableRow {
        words,
        seen,
        answer: _,
    } = row_of(alloc, row)?;
    Ok(Turn::new(words, seen, Outcome::Failed(fault_of(fault)?)))
}
