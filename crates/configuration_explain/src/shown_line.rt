//! The line of the file itself, and the mark under it.

use crate::escaped_texts::{columns_before, push_shown};
use crate::places::Place;
use bstr::ByteSlice;
use std::alloc::{AllocError, Global};

/// The line with this number, from 1, without its end. A byte order mark before the first is left out. Each
/// piece that isn't UTF-8 is U+FFFD. It is empty if there is no such line. `AllocError` if memory is refused.
pub(crate) fn line_at(alloc: Global, bytes: &[u8], number: usize) -> Result<String, AllocError> {
    String::from_utf8_lossy(alloc, bytes_at(without_mark(bytes), number))
}

fn bytes_at(bytes: &[u8], number: usize) -> &[u8] {
    for (i, line) in bytes.lines().enumerate() {
        if i.saturating_add(1) == number {
            return line;
        }
    }
    &[]
}

fn without_mark(bytes: &[u8]) -> &[u8] {
    match bytes {
        [0xef, 0xbb, 0xbf, rest @ ..] => rest,
        _ => bytes,
    }
}

/// The first place of the character in the line, in characters from 0.
pub(crate) fn column_of(line: &str, wanted: char) -> Option<usize> {
    for (i, c) in line.chars().enumerate() {
        if c == wanted {
            return Some(i);
        }
    }
    None
}

/// Puts the line, indented by two columns, and under it a mark at the place, if its column is known and
/// shown. Nothing is put for an empty line. `AllocError` if memory is refused.
pub(crate) fn push_own_line(text: &mut String, line: &str, place: Place) -> Result<(), AllocError> {
    if line.is_empty() {
        return Ok(());
    }
    text.push_str("  ")?;
    push_shown(text, line)?;
    text.push('\n')?;
    match place.column {
        Some(column) => push_mark(text, columns_before(line, column)),
        None => Ok(()),
    }
}

fn push_mark(text: &mut String, columns: Option<usize>) -> Result<(), AllocError> {
    let Some(columns) = columns else {
        return Ok(());
    };
    text.push_str("  ")?;
    for _ in 0..columns {
        text.push(' ')?;
    }
    text.push_str("^\n")
}
