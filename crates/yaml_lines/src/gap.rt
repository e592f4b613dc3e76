//! The gaps between the tokens of a flow. (YAML 1.2.2, sections 6.6 and 6.7.)
//!
//! The contracts cite `specs/FlowGaps.antt`.

ghost use Rattle.std.specs.Prelude.{◌≡◌, false};
ghost use Rattle.yaml_lines.specs.FlowGaps.{after_gap, after_start, behind_gap, in_comment, is_of_gap};

use crate::scan::{is_blank, skip};

// Whether the character belongs to a gap.
fn is_of_gap(comment: bool, free: bool, c: char) -> bool
    ensures { result ≡ is_of_gap comment free c }
{
    comment || is_blank(c) || c == '\n' || (free && c == '#')
}

// Whether the character after this one of a gap belongs to a comment.
fn in_comment(comment: bool, c: char) -> bool
    ensures { result ≡ in_comment comment c }
{
    (comment || c == '#') && c != '\n'
}

// What follows a gap. `begins_free` says whether a comment may begin with the first character.
fn behind_gap(begins_free: bool, text: &[char]) -> &[char]
    ensures { result.now ≡ behind_gap false begins_free text.now }
{
    let mut comment = false;
    let mut free = begins_free;
    for (i, c) in text.iter().enumerate() {
        if !is_of_gap(comment, free, *c) {
            return skip(text, i);
        }
        comment = in_comment(comment, *c);
        free = true;
    }
    skip(text, text.len())
}

/// What follows the blanks, line ends and comments after a token of a flow. A comment begins after a blank
/// or a line's end.
pub fn after_gap(text: &[char]) -> &[char]
    ensures { result.now ≡ after_gap text.now }
{
    behind_gap(false, text)
}

// What follows the gap at a line's start, where a comment may begin at once.
pub(crate) fn after_start(text: &[char]) -> &[char]
    ensures { result.now ≡ after_start text.now }
{
    behind_gap(true, text)
}
