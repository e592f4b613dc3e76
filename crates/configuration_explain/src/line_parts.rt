//! What one content line begins: the items of its dashes, and the key after them.

/// What follows the dash of an item, without the spaces before it.
pub(crate) fn behind_dash(content: &[char]) -> &[char] {
    match content {
        ['-', behind @ ..] => without_blanks(behind),
        _ => content,
    }
}

fn without_blanks(text: &[char]) -> &[char] {
    for (i, c) in text.iter().enumerate() {
        if *c != ' ' {
            return &text[i..];
        }
    }
    &[]
}

/// The column of `behind`, which is the end of the content `before`, if that begins at `column`.
pub(crate) fn column_behind(column: usize, before: &[char], behind: &[char]) -> usize {
    column.saturating_add(before.len().saturating_sub(behind.len()))
}

/// Whether the content begins with the end of a flow. Such a line may be as deep as the line that the flow
/// belongs to.
pub(crate) fn closes_flow(content: &[char]) -> bool {
    matches!(content, [']' | '}', ..])
}
