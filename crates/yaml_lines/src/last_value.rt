//! The last value on a line, which may begin a block text or a flow.
//!
//! The contracts cite `specs/Lines.antt`.

ghost use Rattle.std.specs.Prelude.{◌≡◌, ◌+◌, ◌≤◌, IfOk, None, length};
ghost use Rattle.yaml_lines.specs.Characters.{most_bytes};
ghost use Rattle.yaml_lines.specs.Entries.{entry_of_line};
ghost use Rattle.yaml_lines.specs.Lines.{last_value, value_at};

use crate::read_entry;
use crate::scan::{blank_or_end, is_blank, skip};
use std::alloc::{AllocError, Global};
use std::marker::Model;

// A value, and the column of the key or the dash that it belongs to.
#[derive(Debug, Drop)]
pub(crate) struct LastValue<'a> {
    column: usize,
    content: &'a [char],
}

impl<'a> Model for LastValue<'a> {
    ghost use Rattle.yaml_lines.specs.Lines.{ColumnValue};

    ghost Value = { ColumnValue };

    ghost view = { λ value. record { column = value.column; content = value.content.now } };
}

impl<'a> LastValue<'a> {
    pub(crate) fn column(&self) -> usize
        ensures { result ≡ self.now.column }
    {
        self.column
    }

    pub(crate) fn content(&self) -> &'a [char]
        ensures { result.now ≡ self.now.content }
    {
        self.content
    }
}

// The value of the entry at the column `at`. If there is no entry, it is the value of the last dash before
// that column.
fn value_at<'a>(
    alloc: Global,
    at: usize,
    dash: Option<usize>,
    content: &'a [char],
) -> Result<Option<LastValue<'a>>, AllocError>
    ensures { IfOk result (λ value. value ≡ value_at at dash content.now (entry_of_line content.now)) }
{
    if let Some(entry) = read_entry(alloc, content)? {
        return Ok(Some(LastValue {
            column: at,
            content: entry.value(),
        }));
    }
    match dash {
        Some(column) => Ok(Some(LastValue { column, content })),
        None => Ok(None),
    }
}

// The last value on a line whose content begins at `indent`: what follows its dashes and its key.
pub(crate) fn last_value<'a>(
    alloc: Global,
    indent: usize,
    content: &'a [char],
) -> Result<Option<LastValue<'a>>, AllocError>
    requires { indent + length content.now ≤ most_bytes }
    ensures { IfOk result (λ value. value ≡ last_value indent None content.now) }
{
    let mut dash = None;
    for (i, c) in content.iter().enumerate() {
        if *c == '-' && blank_or_end(skip(content, i + 1)) {
            dash = Some(indent + i);
        } else if !is_blank(*c) {
            return value_at(alloc, indent + i, dash, skip(content, i));
        }
    }
    Ok(None)
}
