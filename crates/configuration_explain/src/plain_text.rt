//! A plain text over several lines (YAML 1.2.2, section 7.3.3), which isn't read here.

/// The sentence for it.
pub(crate) const GOES_ON: &str =
    "a text without quotes goes on here from the line above: write it on one line, or as a block text (`>-`)";

/// Whether a plain text of the line before goes on in a line: the line is further in, and is neither a key
/// nor an item.
pub(crate) fn goes_on(before: &str, line: &str) -> bool {
    let (text, own) = (line.trim_start_matches(' '), before.trim_start_matches(' '));
    let is_further_in = line.len().saturating_sub(text.len())
        > before.len().saturating_sub(own.len());
    is_further_in && is_text(text) && is_plain(value_of(own))
}

// Whether it is neither a key nor an item.
fn is_text(content: &str) -> bool {
    !(content.is_empty()
        || content.starts_with("- ")
        || content.contains(": ")
        || content.ends_with(':'))
}

// What follows the dashes of items and a key.
fn value_of(content: &str) -> &str {
    let behind = content.trim_start_matches("- ");
    match behind.split_once(": ") {
        Some((_, value)) => value.trim_start_matches(' '),
        None => behind,
    }
}

// Whether a value is a plain text.
fn is_plain(value: &str) -> bool {
    match value.chars().next() {
        Some(first) => {
            !(value.ends_with(':')
                || matches!(
                    first,
                    '\'' | '"'
                        | '['
                        | ']'
                        | '{'
                        | '}'
                        | '|'
                        | '>'
                        | '&'
                        | '*'
                        | '!'
                        | '%'
                        | '@'
                        | '#'
                        | '`'
                ))
        }
        None => false,
    }
}
