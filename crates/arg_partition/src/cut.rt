//! A part of a list of names.

/// A part of a list of names: from the index `start` up to, but not including, the index `end`.
#[derive(Clone, Copy, Debug, PartialEq, Eq)]
pub struct Cut {
    /// The index of the first name.
    pub start: usize,
    /// The index after the last name.
    pub end: usize,
}
