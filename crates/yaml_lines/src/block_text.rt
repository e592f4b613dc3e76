//! The text of a block text, from its lines.
//!
//! The contracts cite `specs/BlockTexts.antt`.

ghost use Rattle.std.specs.Prelude.{◌≡◌, ◌^◌, ◌<◌, ◌≤◌, ◌++◌, if◌then◌else◌, IfOk, OnOk, encode_utf8_all, replicate, string_bytes};
ghost use Rattle.yaml_lines.specs.BlockTexts.{begins_blank, behind_last, behind_margin, between, block_text};

use crate::scan::{front, is_blank, skip};
use crate::{Chomping, Header, RawLine};
use std::alloc::{AllocError, Global};
use std::marker::Model;

/// A block text: its header, its indentation if it has a text line, and the lines that belong to it.
/// Contracts see its text in UTF-8.
#[derive(Debug, Drop)]
pub struct BlockText<'a, 'b> {
    header: Header,
    margin: Option<usize>,
    lines: &'a [RawLine<'b>],
}

impl<'a, 'b> Model for BlockText<'a, 'b> {
    ghost use Rattle.std.specs.Prelude.{List, ℕ};
    ghost use Rattle.yaml_lines.specs.BlockTexts.{block_text};

    ghost Value = { List ℕ };

    ghost view = { λ block. block_text block.header block.margin block.lines.now };
}

impl<'a, 'b> BlockText<'a, 'b> {
    /// The block text with this header and indentation, of these lines.
    pub fn new(header: Header, margin: Option<usize>, lines: &'a [RawLine<'b>]) -> Self
        ensures { result ≡ block_text header margin lines.now }
    {
        BlockText {
            header,
            margin,
            lines,
        }
    }

    /// A copy of the block text, over the same lines.
    pub fn again(&self) -> BlockText<'a, 'b>
        ensures { result ≡ self.now }
    {
        BlockText {
            header: self.header,
            margin: self.margin,
            lines: self.lines,
        }
    }

    /// The text, with its lines joined and its last line ends chomped.
    pub fn text(&self, alloc: Global) -> Result<String, AllocError>
        ensures { IfOk result (λ text. string_bytes text ≡ self.now) }
    {
        joined(alloc, self.header, self.margin, self.lines)
    }
}

// The text of the lines that belong to a block text.
fn joined(
    alloc: Global,
    header: Header,
    margin: Option<usize>,
    lines: &[RawLine],
) -> Result<String, AllocError>
    ensures { IfOk result (λ text. string_bytes text ≡ block_text header margin lines.now) }
{
    let mut text = String::new(alloc);
    let mut before = None;
    let mut empties = 0;
    let mut ends = 0;
    for line in lines {
        let part = behind_margin(margin, line);
        let ended = count_end(line);
        if part.is_empty() {
            empties += 1;
            ends += ended;
        } else {
            let blank = begins_blank(part);
            push_between(&mut text, header.folded, before, empties, blank)?;
            push_characters(&mut text, part)?;
            before = Some(blank);
            empties = 0;
            ends = ended;
        }
    }
    push_end(&mut text, header.chomping, before, ends)?;
    Ok(text)
}

// The line's characters after the margin. There are none if the text has no text line.
fn behind_margin<'a>(margin: Option<usize>, line: &RawLine<'a>) -> &'a [char]
    ensures { result.now ≡ behind_margin margin line.now }
{
    let text = line.text();
    match margin {
        None => front(text, 0),
        Some(margin) => skip(text, margin.min(text.len())),
    }
}

// 1 if the line has an end.
fn count_end(line: &RawLine) -> usize
    ensures value { result ≡ (if line.now.ended then 1 else 0) }
    ensures small { result ≤ 1 }
{
    usize::from(line.is_ended())
}

fn begins_blank(text: &[char]) -> bool
    ensures { result ≡ begins_blank text.now }
{
    match text {
        [] => false,
        [first, ..] => is_blank(*first),
    }
}

fn push_feeds(text: &mut String, count: usize) -> Result<(), AllocError>
    ensures { OnOk result (string_bytes text.new ≡ string_bytes text.old ++ replicate count 10) }
{
    for _ in 0..count {
        text.push('\n')?;
    }
    Ok(())
}

fn push_characters(text: &mut String, characters: &[char]) -> Result<(), AllocError>
    ensures { OnOk result (string_bytes text.new ≡ string_bytes text.old ++ encode_utf8_all characters.now) }
{
    for c in characters {
        text.push(*c)?;
    }
    Ok(())
}

// What comes before a text line: line feeds, or a space in folded text between two lines that don't begin
// with a blank. (YAML 1.2.2, section 8.1.3.)
fn push_between(
    text: &mut String,
    folded: bool,
    before: Option<bool>,
    empties: usize,
    blank: bool,
) -> Result<(), AllocError>
    requires { empties < 2 ^ 63 }
    ensures { OnOk result (string_bytes text.new ≡ string_bytes text.old ++ between folded before empties blank) }
{
    let Some(before) = before else {
        return push_feeds(text, empties);
    };
    if !folded || before || blank {
        return push_feeds(text, empties + 1);
    }
    if empties == 0 {
        return text.push(' ');
    }
    push_feeds(text, empties)
}

// What follows the last text line. (YAML 1.2.2, section 8.1.1.2.)
fn push_end(
    text: &mut String,
    chomping: Chomping,
    before: Option<bool>,
    ends: usize,
) -> Result<(), AllocError>
    ensures { OnOk result (string_bytes text.new ≡ string_bytes text.old ++ behind_last chomping before ends) }
{
    match chomping {
        Chomping::Strip => Ok(()),
        Chomping::Keep => push_feeds(text, ends),
        Chomping::Clip => match before {
            None => Ok(()),
            Some(_) => push_feeds(text, ends.min(1)),
        },
    }
}
