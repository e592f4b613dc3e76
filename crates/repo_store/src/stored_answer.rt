//! A copy of a cached answer.

use hook_base::{Bytes, Changes};

/// What a child did, as it is cached for the words of its command and the files that it saw.
#[derive(Clone, Debug, Drop, PartialEq, Eq)]
pub struct StoredAnswer {
    /// Its exit code, from 0 to 255.
    pub status: u8,
    /// Its output.
    pub output: Bytes,
    /// Its changes of the files that it saw.
    pub changes: Changes,
}
