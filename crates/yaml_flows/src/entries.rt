//! What comes between the parts of a flow: commas, colons and closing brackets. (YAML 1.2.2, section 7.4.)
//!
//! The contracts cite `specs/Flows.antt`.

ghost use Rattle.std.specs.Prelude.{◌≡◌, false, true, MatchOption, drop, option_map};
ghost use Rattle.yaml_flows.specs.Flows as flows;
ghost use Rattle.yaml_lines.specs.Characters.{begins_with};

use crate::fault::{FlowFault, fault_at};
use yaml_lines::{YamlKind, after_gap, ends_key};

/// What follows this character, if the characters begin with it.
pub(crate) fn behind(mark: char, text: &[char]) -> Option<&[char]>
    ensures { MatchOption result (begins_with mark text.now ≡ false)
        (λ rest. (begins_with mark text.now ≡ true) × (rest.now ≡ drop 1 text.now)) }
{
    match text {
        [first, rest @ ..] if *first == mark => Some(rest),
        _ => None,
    }
}

/// The characters from the next part or the closing bracket on, if these characters follow a part and its
/// gap.
pub(crate) fn next_part(close: char, text: &[char]) -> Option<&[char]>
    ensures { option_map (λ rest. rest.now) result ≡ flows.next_part close text.now }
{
    match text {
        [',', rest @ ..] => Some(after_gap(rest)),
        [first, ..] if *first == close => Some(text),
        _ => None,
    }
}

/// What follows a key's colon. After a plain key the colon must end it. (YAML 1.2.2, section 7.4.2.)
pub(crate) fn behind_colon(quoted: bool, text: &[char]) -> Option<&[char]>
    ensures { option_map (λ rest. rest.now) result ≡ flows.after_flow_colon quoted text.now }
{
    match text {
        [':', rest @ ..] if quoted || ends_key(rest) => Some(rest),
        _ => None,
    }
}

/// Why no further item follows the item `item`, after whose gap `rest` comes. It is `Unsupported` if the
/// item is the key of a pair (YAML 1.2.2, section 7.4.1), otherwise `Layout`.
pub(crate) fn no_next_item(item: &[char], rest: &[char]) -> FlowFault {
    let is_key = match item {
        ['[' | '{', ..] => false,
        ['\'' | '"', ..] => behind_colon(true, rest).is_some(),
        _ => behind_colon(false, rest).is_some(),
    };
    let kind = if is_key {
        YamlKind::Unsupported
    } else {
        YamlKind::Layout
    };
    fault_at(kind, rest)
}

/// Why no colon follows a key, after whose gap `rest` comes. It is `Unsupported` if the key ends without a
/// colon at one of `, [ ] { }`, and `Layout` if another text or nothing follows it.
pub(crate) fn no_colon(rest: &[char]) -> FlowFault {
    let kind = match rest {
        [',' | '[' | ']' | '{' | '}', ..] => YamlKind::Unsupported,
        _ => YamlKind::Layout,
    };
    fault_at(kind, rest)
}
