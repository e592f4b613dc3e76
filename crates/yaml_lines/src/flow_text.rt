//! The texts within a flow, plain or quoted: where they end.
//!
//! The contracts cite `specs/FlowTexts.antt`.

ghost use Rattle.std.specs.Prelude.{◌≡◌, ◌≤◌, ⊤, None, Some, false, MatchOption, drop, encode_utf8_all, length, option_map};
ghost use Rattle.yaml_lines.specs.FlowGaps.{blank_or_line_end};
ghost use Rattle.yaml_lines.specs.FlowTexts.{begins_plain, ends_key, ends_plain, is_flow_indicator, plain_at, plain_extent, text_at};
ghost use Rattle.yaml_lines.specs.Quoted.{quoted_of, quoted_within};

use crate::plain_text::{is_indicator, is_mark_character};
use crate::quoted_text::{QuoteStep, begins_quoted, step};
use crate::scan::{front, is_blank, skip, trim_end};

// Whether the characters begin with a blank or a line feed, or there are none.
fn blank_or_line_end(text: &[char]) -> bool
    ensures { result ≡ blank_or_line_end text.now }
{
    match text {
        [] => true,
        [first, ..] => is_blank(*first) || *first == '\n',
    }
}

// Whether the character is one of those that separate the parts of a flow. (YAML 1.2.2, section 5.3.)
fn is_flow_indicator(c: char) -> bool
    ensures { result ≡ is_flow_indicator c }
{
    matches!(c, ',' | '[' | ']' | '{' | '}')
}

/// Whether a colon before these characters ends a plain key of a flow. (YAML 1.2.2, section 7.3.3.)
pub fn ends_key(text: &[char]) -> bool
    ensures { result ≡ ends_key text.now }
{
    match text {
        [] => true,
        [first, ..] => is_blank(*first) || *first == '\n' || is_flow_indicator(*first),
    }
}

// Whether the characters begin as a plain text of a flow may. (YAML 1.2.2, section 7.3.3.)
#[tactic(auto, unfolding(crate::specs::FlowTexts::begins_plain))]
fn begins_plain(text: &[char]) -> bool
    ensures { result ≡ begins_plain text.now }
{
    match text {
        [] => false,
        [first, rest @ ..] => {
            !is_indicator(*first) && !(is_mark_character(*first) && blank_or_line_end(rest))
        }
    }
}

// Whether a plain text ends at the first of these characters. `blank` says whether a blank comes before
// them.
fn ends_plain(blank: bool, text: &[char]) -> bool
    ensures { result ≡ ends_plain blank text.now }
{
    match text {
        [] => true,
        [c, rest @ ..] => {
            is_flow_indicator(*c)
                || *c == '\n'
                || (blank && *c == '#')
                || (*c == ':' && ends_key(rest))
        }
    }
}

// How many characters come before the end of a plain text.
fn plain_extent(text: &[char]) -> usize
    ensures value { result ≡ plain_extent false text.now }
    ensures within { result ≤ length text.now }
{
    let mut blank = false;
    for (i, c) in text.iter().enumerate() {
        if ends_plain(blank, skip(text, i)) {
            return i;
        }
        blank = is_blank(*c);
    }
    text.len()
}

/// The characters of the plain text of a flow that these characters begin with, without the blanks at its
/// end. None if they begin with no plain text.
#[tactic(auto, unfolding(crate::specs::FlowTexts::plain_at))]
pub fn plain_part(text: &[char]) -> Option<&[char]>
    ensures value { MatchOption result (plain_at text.now ≡ None) (λ part. plain_at text.now
        ≡ Some (record { text = encode_utf8_all part.now; quoted = false; rest = drop (length part.now) text.now })) }
    ensures within { MatchOption result ⊤ (λ part. length part.now ≤ length text.now) }
{
    if !begins_plain(text) {
        return None;
    }
    let part = trim_end(front(text, plain_extent(text)));
    if part.is_empty() { None } else { Some(part) }
}

// What follows the closing quote. `mark` is the quote.
fn behind_closing<'a>(mark: char, text: &'a [char]) -> Option<&'a [char]>
    ensures { option_map (λ rest. rest.now) result
        ≡ option_map (λ q. q.rest) (quoted_within mark (length text.now) text.now) }
{
    let mut rest = text;
    for _ in 0..text.len() {
        let QuoteStep {
            character,
            rest: others,
        } = match step(mark, rest) {
            Ok(step) => step,
            Err(_) => return None,
        };
        match character {
            Some(_) => rest = others,
            None => return Some(others),
        }
    }
    None
}

// What follows the quoted text that the characters begin with.
#[tactic(auto, unfolding(crate::specs::Quoted::quoted_of))]
fn behind_quoted<'a>(text: &'a [char]) -> Option<&'a [char]>
    ensures { option_map (λ rest. rest.now) result ≡ option_map (λ q. q.rest) (quoted_of text.now) }
{
    match text {
        [mark, rest @ ..] if *mark == '\'' || *mark == '"' => behind_closing(*mark, rest),
        _ => None,
    }
}

// What follows the plain text that the characters begin with.
fn behind_plain<'a>(text: &'a [char]) -> Option<&'a [char]>
    ensures { option_map (λ rest. rest.now) result ≡ option_map (λ t. t.rest) (plain_at text.now) }
{
    let part = plain_part(text)?;
    Some(skip(text, part.len()))
}

// What follows the text, plain or quoted, that the characters of a flow begin with. None if they begin with
// no text.
#[tactic(auto, unfolding(crate::specs::FlowTexts::text_at))]
pub(crate) fn behind_text<'a>(text: &'a [char]) -> Option<&'a [char]>
    ensures { option_map (λ rest. rest.now) result ≡ option_map (λ t. t.rest) (text_at text.now) }
{
    if begins_quoted(text) {
        behind_quoted(text)
    } else {
        behind_plain(text)
    }
}
