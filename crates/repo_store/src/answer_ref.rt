//! An answer of a child, by reference.

use hook_base::Changes;

/// What a child did, by reference.
#[derive(Clone, Copy, Debug)]
pub struct AnswerRef<'a> {
    /// Its exit code, from 0 to 255.
    pub status: u8,
    /// Its output.
    pub output: &'a [u8],
    /// Its changes of the files that it saw.
    pub changes: &'a Changes,
}
