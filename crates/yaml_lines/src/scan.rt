//! Scans of the characters of one line: blanks, comments, line ends.
//!
//! The contracts cite `specs/Characters.antt` and `specs/Plain.antt`.

ghost use Rattle.std.specs.Prelude.{◌≡◌, ◌==◌, ◌<◌, ◌≤◌, ◌&&◌, true, false, IfOk, MatchOption, length, take, drop, slice_index, string_bytes, encode_utf8_all};
ghost use Rattle.std.specs.List.{list_all, list_any, prefix_len};
ghost use Rattle.yaml_lines.specs.Characters.{begins_with, blank_or_end, comment_or_end, is_allowed, is_over, trim_start, is_blank, is_space};
ghost use Rattle.yaml_lines.specs.Plain.{trim_end, uncommented};

use std::alloc::{AllocError, Global};

/// The characters from the one at `at` on.
pub fn skip(text: &[char], at: usize) -> &[char]
    requires { at ≤ length text.now }
    ensures { result.now ≡ drop at text.now }
{
    &text[at..]
}

// The characters before the one at `at`.
pub(crate) fn front(text: &[char], at: usize) -> &[char]
    requires { at ≤ length text.now }
    ensures { result.now ≡ take at text.now }
{
    &text[..at]
}

// Whether the character is a space or a tab. (YAML 1.2.2, section 5.5.)
pub(crate) fn is_blank(c: char) -> bool
    ensures { result ≡ is_blank c }
{
    c == ' ' || c == '\t'
}

// Whether the characters begin with a blank, or there are none.
pub(crate) fn blank_or_end(text: &[char]) -> bool
    ensures { result ≡ blank_or_end text.now }
{
    match text {
        [] => true,
        [first, ..] => is_blank(*first),
    }
}

// Whether the characters begin with a tab.
pub(crate) fn begins_with_tab(text: &[char]) -> bool
    ensures { result ≡ begins_with 9 text.now }
{
    matches!(text, ['\t', ..])
}

// Whether the characters are a comment, or there are none.
pub(crate) fn comment_or_end(text: &[char]) -> bool
    ensures { result ≡ comment_or_end text.now }
{
    matches!(text, [] | ['#', ..])
}

// Whether there is nothing here but blanks and, after a blank, a comment. (YAML 1.2.2, section 6.6.)
pub(crate) fn is_over(text: &[char]) -> bool
    ensures { result ≡ is_over text.now }
{
    blank_or_end(text) && comment_or_end(after_blanks(text))
}

// How many blanks the characters begin with.
pub(crate) fn blanks(text: &[char]) -> usize
    ensures counted { result ≡ prefix_len is_blank text.now }
    ensures within { result ≤ length text.now }
{
    for (i, c) in text.iter().enumerate() {
        if !is_blank(*c) {
            return i;
        }
    }
    text.len()
}

// The characters after the blanks that they begin with.
pub(crate) fn after_blanks(text: &[char]) -> &[char]
    ensures { result.now ≡ trim_start text.now }
{
    skip(text, blanks(text))
}

// How many spaces the characters begin with.
pub(crate) fn spaces(text: &[char]) -> usize
    ensures counted { result ≡ prefix_len is_space text.now }
    ensures within { result ≤ length text.now }
{
    for (i, c) in text.iter().enumerate() {
        if *c != ' ' {
            return i;
        }
    }
    text.len()
}

// Whether all characters are spaces.
pub(crate) fn all_spaces(text: &[char]) -> bool
    ensures { result ≡ list_all is_space text.now }
{
    text.iter().all(|c| *c == ' ')
}

// Index of the first line feed.
pub(crate) fn feed(text: &[char]) -> Option<usize>
    ensures { MatchOption result (list_any (λ c. c == 10) text.now ≡ false) (λ at. (at < length text.now)
        × (list_any (λ c. c == 10) (take at text.now) ≡ false) × (slice_index text.now at ≡ 10)) }
{
    for (i, c) in text.iter().enumerate() {
        if *c == '\n' {
            return Some(i);
        }
    }
    None
}

// Whether a line may hold each of the characters. (`nb-json` of YAML 1.2.2, section 5.1.)
pub(crate) fn all_allowed(text: &[char]) -> bool
    ensures { result ≡ list_all is_allowed text.now }
{
    for c in text {
        if *c < ' ' && *c != '\t' {
            return false;
        }
    }
    true
}

// The characters before a comment. (YAML 1.2.2, section 6.6.)
pub(crate) fn uncommented(text: &[char]) -> &[char]
    ensures value { result.now ≡ uncommented true text.now }
    ensures within { length result.now ≤ length text.now }
{
    let mut free = true;
    for (i, c) in text.iter().enumerate() {
        if free && *c == '#' {
            return front(text, i);
        }
        free = is_blank(*c);
    }
    text
}

// The characters without the blanks at their end.
pub(crate) fn trim_end(text: &[char]) -> &[char]
    ensures value { result.now ≡ trim_end text.now }
    ensures within { length result.now ≤ length text.now }
{
    let mut end = text.len();
    while end > 0 && is_blank(text[end - 1]) {
        end -= 1;
    }
    front(text, end)
}

/// The characters as a text.
pub fn text_of(alloc: Global, characters: &[char]) -> Result<String, AllocError>
    ensures { IfOk result (λ text. string_bytes text ≡ encode_utf8_all characters.now) }
{
    let mut text = String::with_capacity(alloc, characters.len())?;
    for c in characters {
        text.push(*c)?;
    }
    Ok(text)
}
