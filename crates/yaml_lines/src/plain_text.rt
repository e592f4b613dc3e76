//! How a plain text begins, and where a key ends. (YAML 1.2.2, section 7.3.3.)
//!
//! The contracts cite `specs/Plain.antt`.

ghost use Rattle.std.specs.Prelude.{◌≡◌, ◌⊎◌, ◌<◌, ◌+◌, Some, None, true, MatchOption, length, take, drop};
ghost use Rattle.yaml_lines.specs.Plain.{begins_plain, is_indicator, is_mark_character, sides_of};

use crate::scan::{blank_or_end, is_blank, skip};
use crate::{YamlFault, YamlKind};

// Whether the character is an indicator that begins no plain text. (YAML 1.2.2, sections 5.3 and 7.3.3.)
pub(crate) fn is_indicator(c: char) -> bool
    ensures { result ≡ is_indicator c }
{
    matches!(
        c,
        ',' | '['
            | ']'
            | '{'
            | '}'
            | '#'
            | '&'
            | '*'
            | '!'
            | '|'
            | '>'
            | '\''
            | '"'
            | '%'
            | '@'
            | '`'
    )
}

// Whether the character begins a plain text only if neither a blank nor the end follows. (YAML 1.2.2,
// section 7.3.3.)
pub(crate) fn is_mark_character(c: char) -> bool
    ensures { result ≡ is_mark_character c }
{
    matches!(c, '-' | '?' | ':')
}

// Whether the content begins as a plain text may.
#[tactic(auto, unfolding(crate::specs::Plain::begins_plain))]
pub(crate) fn begins_plain(content: &[char]) -> bool
    ensures { result ≡ begins_plain content.now }
{
    match content {
        [] => false,
        [first, rest @ ..] => {
            !is_indicator(*first) && !(is_mark_character(*first) && blank_or_end(rest))
        }
    }
}

// Index of the first `:` outside of comments that a blank or the end follows.
pub(crate) fn colon(content: &[char]) -> Option<usize>
    ensures { MatchOption result (sides_of true content.now ≡ None) (λ at. (at < length content.now)
        × (sides_of true content.now ≡ Some (record
        { before = take at content.now; behind = drop (at + 1) content.now }))) }
{
    let mut free = true;
    for (i, c) in content.iter().enumerate() {
        if free && *c == '#' {
            return None;
        }
        if *c == ':' && blank_or_end(skip(content, i + 1)) {
            return Some(i);
        }
        free = is_blank(*c);
    }
    None
}

/// Why the content, which is no plain text, is refused in line `number`. It is `Unsupported` if it begins
/// with a form that this profile leaves out, otherwise `Layout`.
///
/// The forms are anchors, aliases and tags (YAML 1.2.2, sections 6.9.2, 7.1 and 6.9.1), directives (6.8),
/// the reserved `@` and backtick (5.3), and `?` before a blank (8.2.2).
pub fn refusal(number: usize, content: &[char]) -> YamlFault
    ensures place { result.line ≡ number }
    ensures kind { (result.kind ≡ YamlKind.Unsupported) ⊎ (result.kind ≡ YamlKind.Layout) }
{
    let kind = match content {
        ['&' | '*' | '!' | '%' | '@' | '`', ..] | ['?', ' ' | '\t', ..] => YamlKind::Unsupported,
        _ => YamlKind::Layout,
    };
    YamlFault { kind, line: number }
}
