//! A part of an answer that is read from its record.

use hook_base::Content;

/// A part of an answer, and its record.
#[derive(Drop)]
pub(crate) struct Recorded<T> {
    pub(crate) part: T,
    pub(crate) record: Content,
}
