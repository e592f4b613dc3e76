//! Texts as they are shown. No control character of a configuration reaches a terminal as it is, nor one that
//! changes the direction of a text.

use std::alloc::{AllocError, Global};
use unicode_width::UnicodeWidthChar;

// How many characters of a text are shown. After them comes `...`.
const MOST_SHOWN: usize = 200;

/// Puts the pieces at the text's end, as they are. `AllocError` if memory is refused.
pub(crate) fn push_all(text: &mut String, pieces: &[&str]) -> Result<(), AllocError> {
    for piece in pieces {
        text.push_str(piece)?;
    }
    Ok(())
}

/// Puts the number at the text's end, in decimal digits. `AllocError` if memory is refused.
pub(crate) fn push_number(
    alloc: Global,
    text: &mut String,
    number: usize,
) -> Result<(), AllocError> {
    text.push_str(number.to_string(alloc)?.as_str())
}

/// Puts the first `MOST_SHOWN` characters of `shown` at the text's end: a line feed as `\n`, a tab as `\t`,
/// another control character as `\x` and two hexadecimal digits. One that changes a text's direction or
/// separates lines in Unicode is put as `?`. `AllocError` if memory is refused.
pub(crate) fn push_shown(text: &mut String, shown: &str) -> Result<(), AllocError> {
    for (i, c) in shown.chars().enumerate() {
        if i >= MOST_SHOWN {
            return text.push_str("...");
        }
        push_char(text, c)?;
    }
    Ok(())
}

/// The same between backticks.
pub(crate) fn push_quoted(text: &mut String, shown: &str) -> Result<(), AllocError> {
    text.push('`')?;
    push_shown(text, shown)?;
    text.push('`')
}

/// Whether [`push_shown`] puts the text as it is, and all of it.
pub(crate) fn is_shown_whole(shown: &str) -> bool {
    for (i, c) in shown.chars().enumerate() {
        if i >= MOST_SHOWN || c.is_control() || is_hidden(c) {
            return false;
        }
    }
    true
}

/// How many columns show the characters before this one. None if it isn't shown.
pub(crate) fn columns_before(shown: &str, character: usize) -> Option<usize> {
    let mut columns = 0usize;
    for (i, c) in shown.chars().enumerate() {
        if i == character {
            return Some(columns);
        }
        if i >= MOST_SHOWN {
            return None;
        }
        columns = columns.saturating_add(columns_of(c));
    }
    Some(columns)
}

fn push_char(text: &mut String, c: char) -> Result<(), AllocError> {
    if c == '\n' {
        text.push_str("\\n")
    } else if c == '\t' {
        text.push_str("\\t")
    } else if c.is_control() {
        push_escape(text, c as u32)
    } else if is_hidden(c) {
        text.push('?')
    } else {
        text.push(c)
    }
}

fn push_escape(text: &mut String, value: u32) -> Result<(), AllocError> {
    text.push_str("\\x")?;
    text.push(digit_of(value / 16))?;
    text.push(digit_of(value % 16))
}

fn digit_of(value: u32) -> char {
    char::from_digit(value, 16).unwrap_or('?')
}

// Characters that change a text's direction, and those that some terminals take as a line's end.
fn is_hidden(c: char) -> bool {
    matches!(
        c,
        '\u{200e}' | '\u{200f}' | '\u{2028}'..='\u{202e}' | '\u{2066}'..='\u{2069}'
    )
}

fn columns_of(c: char) -> usize {
    if c == '\n' || c == '\t' {
        2
    } else if c.is_control() {
        4
    } else if is_hidden(c) {
        1
    } else {
        c.width().unwrap_or(1)
    }
}
