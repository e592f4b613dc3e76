//! Rows with distinct keys, the most recently used last: a look-up, which moves its row to the end, and a
//! put, which adds one there.

ghost use Rattle.std.specs.Prelude.{◌≡◌, ◌<◌, ◌∷◌, ◌++◌, [], ℕ, length, reverse, slice_index_or, IfOk, OnOk, OnErr};
ghost use Rattle.std.specs.Vec.{vec_capacity, vec_len};
ghost use Rattle.std.specs.List.{remove};
ghost use Rattle.result_book.specs.Calls.{AfterPut, brought};
ghost use Rattle.result_book.specs.Contents.{Finds, HaveDistinctKeys, IsBook, IsHeld};
ghost use Rattle.result_book.specs.Places.{IsGoing, IsBookPlace, shown_rows};

use crate::BookRow;
use child_port::Answer;
use hook_base::{OutOfMemory, Text, Tree, copy_texts};
use std::alloc::Global;

// The index of the first row for the words and the seen files, or `None` if there is none.
fn place_of(rows: &[BookRow], words: &[Text], seen: &Tree) -> Option<usize>
    ensures { IsBookPlace words.now seen.now rows.now result }
{
    'rows: for (index, row) in rows.iter().enumerate() {
        if row.is_for(words, seen) {
            return Some(index);
        }
    }
    None
}

// The same, but the row at the index `near` is tried first.
fn place_near(rows: &[BookRow], near: usize, words: &[Text], seen: &Tree) -> Option<usize>
    ensures { IsBookPlace words.now seen.now rows.now result }
{
    if near < rows.len() && rows[near].is_for(words, seen) {
        return Some(near);
    }
    place_of(rows, words, seen)
}

/// Whether there is a row for the words and the seen files. The row at the index `near` is tried first.
pub(crate) fn is_held(rows: &[BookRow], near: usize, words: &[Text], seen: &Tree) -> bool
    ensures { (limit : ℕ) → IsHeld words.now seen.now (shown_rows limit rows.now) result }
{
    place_near(rows, near, words, seen).is_some()
}

// Removes the row at the index, and answers it.
fn take_out(rows: &mut Vec<BookRow>, index: usize) -> BookRow
    requires { index < length rows.old.items }
    ensures value { result ≡ slice_index_or rows.old.items index result }
    ensures items { rows.new.items ≡ remove rows.old.items index }
    ensures room { vec_len rows.new < vec_capacity rows.new }
{
    rows.remove(index)
}

// Adds a row at the end, for which there is room.
fn put_last(rows: &mut Vec<BookRow>, row: BookRow)
    requires { vec_len rows.old < vec_capacity rows.old }
    ensures { rows.new.items ≡ rows.old.items ++ row ∷ [] }
{
    let _ = rows.push(row);
}

/// The answer of the row for the words and the seen files, as a copy, or `None` if there is no such row. The
/// row moves to the end, and `next` becomes the index that it had. A run often asks in the order of an
/// earlier one, and after the move the next row is at that index. A refusal leaves the rows as they were.
pub(crate) fn found_in(
    rows: &mut Vec<BookRow>,
    next: &mut usize,
    words: &[Text],
    seen: &Tree,
) -> Result<Option<Answer>, OutOfMemory>
    requires { HaveDistinctKeys (reverse rows.old.items) }
    ensures found { (limit : ℕ) → IfOk result
        (λ found. Finds words.now seen.now (shown_rows limit rows.old.items) found) }
    ensures brought { (limit : ℕ) → OnOk result
        (shown_rows limit rows.new.items ≡ brought words.now seen.now (shown_rows limit rows.old.items)) }
    ensures kept { OnErr result (rows.new.items ≡ rows.old.items) }
{
    let Some(index) = place_near(rows.as_slice(), *next, words, seen) else {
        return Ok(None);
    };
    let answer = rows[index].answer.clone()?;
    let row = take_out(rows, index);
    put_last(rows, row);
    *next = index;
    Ok(Some(answer))
}

// A row with copies of these.
fn copy_row(
    alloc: Global,
    words: &[Text],
    seen: &Tree,
    answer: &Answer,
) -> Result<BookRow, OutOfMemory>
    ensures { IfOk result (λ row. row ≡ record { words = words.now; seen = seen.now; answer = answer.now }) }
{
    Ok(BookRow {
        words: copy_texts(alloc, words)?,
        seen: seen.copy()?,
        answer: answer.clone()?,
    })
}

// The index of the row that a put for the words and the seen files drops. That is the row of the same key, or
// the first one if there is no such row and there are as many as the limit. `None` if none is dropped.
fn going(rows: &[BookRow], limit: usize, words: &[Text], seen: &Tree) -> Option<usize>
    ensures { IsGoing words.now seen.now limit rows.now result }
{
    match place_of(rows, words, seen) {
        Some(index) => Some(index),
        None if rows.len() < limit => None,
        None => Some(0),
    }
}

/// Puts a row for the words and the seen files at the end. The row of the same key is dropped, or the first
/// one if there is no such row and there are as many as the limit. A refusal leaves the rows as they were.
pub(crate) fn put_row(
    rows: &mut Vec<BookRow>,
    limit: usize,
    words: &[Text],
    seen: &Tree,
    answer: &Answer,
) -> Result<(), OutOfMemory>
    requires { IsBook (shown_rows limit rows.old.items) }
    ensures put { OnOk result (AfterPut words.now seen.now answer.now (shown_rows limit rows.old.items)
        (shown_rows limit rows.new.items)) }
    ensures kept { OnErr result (rows.new.items ≡ rows.old.items) }
    ensures book { IsBook (shown_rows limit rows.new.items) }
{
    let row = copy_row(*rows.allocator(), words, seen, answer)?;
    let Some(index) = going(rows.as_slice(), limit, words, seen) else {
        rows.push(row)?;
        return Ok(());
    };
    take_out(rows, index);
    put_last(rows, row);
    Ok(())
}
