//! A table's entry: a key, and what follows its colon. (YAML 1.2.2, section 8.2.2.)
//!
//! The contracts cite `specs/Entries.antt`.

ghost use Rattle.std.specs.Prelude.{◌≡◌, true, IfOk, option_and_then, option_copied, option_map, string_bytes};
ghost use Rattle.yaml_lines.specs.Entries.{behind_colon, entry_of_line, plain_entry, quoted_entry, value_behind};
ghost use Rattle.yaml_lines.specs.Plain.{sides_of};
ghost use Rattle.yaml_lines.specs.Quoted.{quoted_of};

use crate::plain_text::{begins_plain, colon};
use crate::quoted_text::begins_quoted;
use crate::scan::{after_blanks, blank_or_end, comment_or_end, front, skip, text_of, trim_end};
use crate::{YamlKind, read_quoted};
use std::alloc::{AllocError, Global};
use std::marker::Model;

/// A table's key, and the value after its colon. Contracts see the key's text in UTF-8 and the value's
/// characters.
#[derive(Debug, Drop)]
pub struct Entry<'a> {
    key: String,
    value: &'a [char],
}

impl<'a> Model for Entry<'a> {
    ghost use Rattle.std.specs.Prelude.{string_bytes};
    ghost use Rattle.yaml_lines.specs.Entries.{KeyAndValue};

    ghost Value = { KeyAndValue };

    ghost view = { λ entry. record { key = string_bytes entry.key; value = entry.value.now } };
}

impl<'a> Entry<'a> {
    /// The key's text.
    pub fn into_key(self) -> String
        ensures { string_bytes result ≡ self.entry.key }
    {
        let Entry { key, value: _ } = self;
        key
    }

    /// The characters that follow the colon and its blanks. They are empty if nothing or a comment follows.
    pub fn value(&self) -> &'a [char]
        ensures { result.now ≡ self.now.value }
    {
        self.value
    }
}

// What follows the colon that the characters begin with. None unless a blank or the end follows that colon.
fn behind_colon<'a>(text: &'a [char]) -> Option<&'a [char]>
    ensures { option_copied result ≡ behind_colon text.now }
{
    match text {
        [] => None,
        [c, rest @ ..] => {
            if *c == ':' && blank_or_end(rest) {
                Some(rest)
            } else {
                None
            }
        }
    }
}

// The value after a colon, without the blanks before it. It is empty if nothing or a comment follows.
fn value_behind<'a>(text: &'a [char]) -> &'a [char]
    ensures { result.now ≡ value_behind text.now }
{
    let value = after_blanks(text);
    if comment_or_end(value) {
        return front(value, 0);
    }
    value
}

// The entry whose key is plain.
fn plain_entry<'a>(alloc: Global, content: &'a [char]) -> Result<Option<Entry<'a>>, AllocError>
    ensures { IfOk result (λ entry. entry ≡ option_map plain_entry (sides_of true content.now)) }
{
    let Some(at) = colon(content) else {
        return Ok(None);
    };
    let key = text_of(alloc, trim_end(front(content, at)))?;
    let value = value_behind(skip(content, at + 1));
    Ok(Some(Entry { key, value }))
}

// The entry whose key is quoted.
fn quoted_entry<'a>(alloc: Global, content: &'a [char]) -> Result<Option<Entry<'a>>, AllocError>
    ensures { IfOk result (λ entry. entry ≡ option_and_then quoted_entry (quoted_of content.now)) }
{
    let quoted = match read_quoted(alloc, 0, content) {
        Ok(quoted) => quoted,
        Err(fault) => {
            return match fault.kind {
                YamlKind::OutOfMemory => Err(AllocError),
                _ => Ok(None),
            };
        }
    };
    let Some(behind) = behind_colon(after_blanks(quoted.rest())) else {
        return Ok(None);
    };
    let value = value_behind(behind);
    Ok(Some(Entry {
        key: quoted.into_text(),
        value,
    }))
}

/// The entry that a content is. Its key is a plain or quoted text, then comes a `:` before a blank or the
/// end, then a value. None if the content begins in another way.
#[tactic(auto, unfolding(crate::specs::Entries::entry_of_line))]
pub fn read_entry<'a>(alloc: Global, content: &'a [char]) -> Result<Option<Entry<'a>>, AllocError>
    ensures { IfOk result (λ entry. entry ≡ entry_of_line content.now) }
{
    if begins_quoted(content) {
        quoted_entry(alloc, content)
    } else if begins_plain(content) {
        plain_entry(alloc, content)
    } else {
        Ok(None)
    }
}
