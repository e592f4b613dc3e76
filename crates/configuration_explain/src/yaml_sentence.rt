//! The sentence for a fault of the YAML, and its place in its line, if that is known.

use crate::shown_line::column_of;
use yaml_profile::YamlKind;

/// The sentence for the fault in this line.
pub(crate) fn yaml_sentence(kind: YamlKind, line: &str) -> &'static str {
    match kind {
        YamlKind::NotUtf8 => "a byte is not UTF-8: write the file in UTF-8",
        YamlKind::TabIndent => "a tab stands in the indentation: only spaces indent",
        YamlKind::Unsupported => unsupported_sentence(line),
        YamlKind::Layout => {
            "this fits into no list or table: see to its indentation and brackets, and quote a text that holds `: ` or begins with a sign of YAML"
        }
        YamlKind::Quote => {
            "a quoted text does not end on its line, or an escape in it names no character"
        }
        YamlKind::DoubledKey => "a key stands in its table already: leave one of the two out",
        _ => size_sentence(kind),
    }
}

fn size_sentence(kind: YamlKind) -> &'static str {
    match kind {
        YamlKind::TooDeep => "a value lies within more than 32 others",
        YamlKind::TooLarge => "the file has more than 1,048,576 bytes, and none of it is read",
        _ => "memory was refused",
    }
}

fn unsupported_sentence(line: &str) -> &'static str {
    if line.starts_with("---") || line.starts_with("...") {
        return "a text is one document: leave this mark out, unless it stands alone before all else";
    }
    match unsupported_sign(line) {
        Some('&') => "an anchor (`&`) is not read here: write the value out, or quote the text",
        Some('*') => "an alias (`*`) is not read here: write the value out, or quote the text",
        Some('!') => "a tag (`!`) is not read here: leave it out, or quote the text",
        Some('%') => "a directive (`%`) is not read here: leave it out, or quote the text",
        Some('@' | '`') => "no text begins with this sign: quote the text",
        Some(_) => "a control character is not read here: leave it out",
        None => {
            "this form of YAML is not read here: docs/REFERENCE.md lists what is left out, in its profile of YAML"
        }
    }
}

fn unsupported_sign(line: &str) -> Option<char> {
    let column = unsupported_column(line)?;
    for (i, c) in line.chars().enumerate() {
        if i == column {
            return Some(c);
        }
    }
    None
}

/// The place of the fault in its line, in characters from 0, if it is known.
pub(crate) fn yaml_column(kind: YamlKind, line: &str) -> Option<usize> {
    match kind {
        YamlKind::NotUtf8 => column_of(line, '\u{fffd}'),
        YamlKind::TabIndent => column_of(line, '\t'),
        YamlKind::Unsupported => unsupported_column(line),
        YamlKind::Quote => last_beginning(line, Sign::Quote),
        _ => None,
    }
}

// The place of the first control character, or otherwise of a sign with which a value would begin.
fn unsupported_column(line: &str) -> Option<usize> {
    control_column(line).or(last_beginning(line, Sign::LeftOut))
}

fn control_column(line: &str) -> Option<usize> {
    for (i, c) in line.chars().enumerate() {
        if c.is_control() && c != '\t' {
            return Some(i);
        }
    }
    None
}

// The signs that are looked for where a value begins.
#[derive(Clone, Copy)]
enum Sign {
    /// A quote.
    Quote,
    /// One with which no text may begin (YAML 1.2.2, section 5.3).
    LeftOut,
}

fn is_sign(sign: Sign, c: char) -> bool {
    match sign {
        Sign::Quote => matches!(c, '"' | '\''),
        Sign::LeftOut => matches!(c, '&' | '*' | '!' | '%' | '@' | '`'),
    }
}

// The place of the last value in the line that begins with such a sign. A value begins at the line's start,
// after a dash, a question mark or a colon and a blank, and after an opening bracket or a comma.
fn last_beginning(line: &str, sign: Sign) -> Option<usize> {
    let mut found = None;
    let mut begins = true;
    let mut before = ' ';
    for (i, c) in line.chars().enumerate() {
        if begins && is_sign(sign, c) {
            found = Some(i);
        }
        begins = begins_behind(begins, before, c);
        before = c;
    }
    found
}

// Whether a value begins after this character. `before` is the character before it.
fn begins_behind(begins: bool, before: char, c: char) -> bool {
    match c {
        ' ' | '\t' => begins || matches!(before, '-' | '?' | ':'),
        '[' | '{' | ',' => true,
        _ => false,
    }
}
