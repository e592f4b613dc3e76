//! What was read, with the characters that follow it.

/// A value that was read, and the characters that follow it.
#[derive(Drop)]
pub(crate) struct Found<'a, T> {
    pub(crate) value: T,
    pub(crate) rest: &'a [char],
}

/// A text that was read, whether it was quoted, and the characters that follow it.
#[derive(Drop)]
pub(crate) struct FlowText<'a> {
    pub(crate) text: String,
    pub(crate) quoted: bool,
    pub(crate) rest: &'a [char],
}
