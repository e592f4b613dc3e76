//! The lines of a block text: its header, its indentation, and how many lines belong to it.
//!
//! The contracts cite `specs/BlockTexts.antt`.

ghost use Rattle.std.specs.Prelude.{◌≡◌, ◌<◌, ◌≤◌, length, is_some, IfSome};
ghost use Rattle.yaml_lines.specs.BlockTexts.{begins_block, belongs, extent, header_behind, header_of, is_ragged, margin_of};
ghost use Rattle.yaml_lines.specs.Faults.{GivesSurely};

use crate::scan::{all_spaces, is_over, spaces};
use crate::{Chomping, Header, RawLine, YamlKind};

/// Whether the value begins as a block text's header does: with `|` or `>`.
pub fn begins_block(value: &[char]) -> bool
    ensures { result ≡ begins_block value.now }
{
    matches!(value, ['|' | '>', ..])
}

// Why the characters after `|` or `>` are no mark. A digit would give the indentation (YAML 1.2.2, section
// 8.1.1.1), which this profile leaves out.
fn header_fault(text: &[char]) -> YamlKind {
    match text {
        ['0'..='9', ..] | ['-' | '+', '0'..='9', ..] => YamlKind::Unsupported,
        _ => YamlKind::Layout,
    }
}

// The header whose `|` or `>` these characters follow. (YAML 1.2.2, section 8.1.1.)
fn header_behind(folded: bool, text: &[char]) -> Result<Header, YamlKind>
    ensures { GivesSurely (λ header. header) result (header_behind folded text.now) }
{
    let chomping = match text {
        [] => Chomping::Clip,
        [c, rest @ ..] => {
            if *c == '-' && is_over(rest) {
                Chomping::Strip
            } else if *c == '+' && is_over(rest) {
                Chomping::Keep
            } else if is_over(text) {
                Chomping::Clip
            } else {
                return Err(header_fault(text));
            }
        }
    };
    Ok(Header { folded, chomping })
}

// The header that the value is.
#[tactic(auto, unfolding(crate::specs::BlockTexts::header_of))]
pub(crate) fn header_of(value: &[char]) -> Result<Header, YamlKind>
    ensures { GivesSurely (λ header. header) result (header_of value.now) }
{
    match value {
        [] => Err(YamlKind::Layout),
        [c, rest @ ..] => match *c {
            '|' => header_behind(false, rest),
            '>' => header_behind(true, rest),
            _ => Err(YamlKind::Layout),
        },
    }
}

// The indentation of the block text whose header belongs to a key or dash at `column`. None if it has no
// text line. (YAML 1.2.2, section 8.1.1.1.)
pub(crate) fn margin_of(column: usize, later: &[RawLine]) -> Option<usize>
    ensures { result ≡ margin_of column later.now }
{
    for line in later {
        if !all_spaces(line.text()) {
            let margin = spaces(line.text());
            return if column < margin { Some(margin) } else { None };
        }
    }
    None
}

// Whether the line belongs to a block text with this indentation.
fn belongs(margin: Option<usize>, line: &RawLine) -> bool
    ensures { result ≡ belongs margin line.now }
{
    if all_spaces(line.text()) {
        return true;
    }
    match margin {
        None => false,
        Some(margin) => margin <= spaces(line.text()),
    }
}

// How many of the lines belong to a block text with this indentation.
pub(crate) fn extent(margin: Option<usize>, later: &[RawLine]) -> usize
    ensures counted { result ≡ extent margin later.now }
    ensures within { result ≤ length later.now }
{
    for (i, line) in later.iter().enumerate() {
        if !belongs(margin, line) {
            return i;
        }
    }
    later.len()
}

// Index of the first line that has more spaces than the indentation, among those before the first text
// line. YAML 1.2.2, section 8.1.1.1, makes such a line an error.
pub(crate) fn ragged_at(margin: Option<usize>, later: &[RawLine]) -> Option<usize>
    ensures found { is_some result ≡ is_ragged margin later.now }
    ensures within { IfSome result (λ at. at < length later.now) }
{
    let margin = margin?;
    for (i, line) in later.iter().enumerate() {
        if !all_spaces(line.text()) {
            return None;
        }
        if margin < line.text().len() {
            return Some(i);
        }
    }
    None
}
