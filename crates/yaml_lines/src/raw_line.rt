//! From characters to lines as they are in the text. (YAML 1.2.2, section 5.4.)
//!
//! The contracts cite `specs/Lines.antt`.

ghost use Rattle.std.specs.Prelude.{◌≡◌, ◌<◌, ◌≤◌, ◌∷◌, IfOk, length};
ghost use Rattle.yaml_lines.specs.Characters.{most_bytes};
ghost use Rattle.yaml_lines.specs.Lines.{line_texts, without_return};

use crate::scan::{feed, front, skip};
use std::alloc::{AllocError, Global};
use std::marker::Model;

/// A line as it is in the text, without its end. Contracts see its characters, and whether it has an end.
#[derive(Debug, Drop)]
pub struct RawLine<'a> {
    text: &'a [char],
    ended: bool,
}

impl<'a> Model for RawLine<'a> {
    ghost use Rattle.std.specs.Prelude.{◌≤◌, length};
    ghost use Rattle.yaml_lines.specs.Characters.{most_bytes};
    ghost use Rattle.yaml_lines.specs.BlockTexts.{LineText};

    ghost Value = { LineText };

    ghost view = { λ line. record { text = line.text.now; ended = line.ended } };

    ghost invariant = { λ line. length line.text.now ≤ most_bytes };
}

impl<'a> RawLine<'a> {
    /// The line's characters.
    pub fn text(&self) -> &'a [char]
        ensures characters { result.now ≡ self.now.text }
        ensures bounded { length result.now ≤ most_bytes }
    {
        self.text
    }

    /// Whether the line has an end.
    pub fn is_ended(&self) -> bool
        ensures { result ≡ self.now.ended }
    {
        self.ended
    }
}

// The first line of a text, and what follows it.
struct LineCut<'a> {
    line: RawLine<'a>,
    rest: &'a [char],
}

// The characters without a carriage return at their end.
fn without_return(text: &[char]) -> &[char]
    ensures value { result.now ≡ without_return text.now }
    ensures within { length result.now ≤ length text.now }
{
    if text.is_empty() || text[text.len() - 1] != '\r' {
        return text;
    }
    front(text, text.len() - 1)
}

// The first line of a text that isn't empty.
fn next_line<'a>(text: &'a [char]) -> LineCut<'a>
    requires some { 0 < length text.now }
    requires few { length text.now ≤ most_bytes }
    ensures first { line_texts text.now ≡ result.line ∷ line_texts result.rest.now }
    ensures shorter { length result.rest.now < length text.now }
{
    match feed(text) {
        Some(at) => LineCut {
            line: RawLine {
                text: without_return(front(text, at)),
                ended: true,
            },
            rest: skip(text, at + 1),
        },
        None => LineCut {
            line: RawLine { text, ended: false },
            rest: skip(text, text.len()),
        },
    }
}

/// All lines of the text. A line feed ends a line, and so does a carriage return with a line feed. The last
/// line may lack its end.
pub fn raw_lines<'a>(alloc: Global, text: &'a [char]) -> Result<Vec<RawLine<'a>>, AllocError>
    requires { length text.now ≤ most_bytes }
    ensures { IfOk result (λ lines. lines.items ≡ line_texts text.now) }
{
    let mut lines = Vec::new(alloc);
    let mut rest = text;
    while !rest.is_empty() {
        let LineCut { line, rest: others } = next_line(rest);
        lines.push(line)?;
        rest = others;
    }
    Ok(lines)
}
