//! The place of a word within a flow: of its key, then its value, as they are written there.

/// What is looked for: a key with its value after the colon, or a value alone if the key is empty. An empty
/// value means any value.
#[derive(Clone, Copy)]
pub(crate) struct Sought<'a> {
    pub(crate) key: &'a [char],
    pub(crate) value: &'a [char],
}

/// The column of the line at which the value begins, at the first place from a column on that has what is
/// sought.
pub(crate) fn column_of(line: &[char], from: usize, sought: Sought<'_>) -> Option<usize> {
    let mut before = ' ';
    for (i, c) in line.iter().enumerate() {
        if i >= from && !is_of_word(before) {
            let here = &line[i..];
            if let Some(behind) = value_of(here, sought) {
                return Some(i.saturating_add(here.len().saturating_sub(behind.len())));
            }
        }
        before = *c;
    }
    None
}

// The characters from the value on, if they begin with what is sought.
fn value_of<'a>(text: &'a [char], sought: Sought<'_>) -> Option<&'a [char]> {
    if sought.key.is_empty() {
        return begins_with(text, sought.value);
    }
    let behind = without_quote(text.strip_prefix(sought.key)?);
    match without_blanks(behind) {
        [':', value @ ..] => begins_with(without_blanks(value), sought.value),
        _ => None,
    }
}

// The characters, if they begin with this value, quoted or not, as a whole word.
fn begins_with<'a>(text: &'a [char], value: &[char]) -> Option<&'a [char]> {
    let behind = without_quote(text).strip_prefix(value)?;
    match behind {
        [next, ..] if !value.is_empty() && is_of_word(*next) => None,
        _ => Some(text),
    }
}

fn without_quote(text: &[char]) -> &[char] {
    match text {
        ['"' | '\'', behind @ ..] => behind,
        _ => text,
    }
}

fn without_blanks(text: &[char]) -> &[char] {
    for (i, c) in text.iter().enumerate() {
        if *c != ' ' {
            return &text[i..];
        }
    }
    &[]
}

fn is_of_word(c: char) -> bool {
    c.is_alphanumeric() || c == '_' || c == '-'
}
