//! The change of one file.

use crate::{Content, RepoPath};

/// What became of a file: its new bytes, or `None` if it is gone.
#[derive(Clone, Debug, Drop, PartialEq, Eq)]
pub struct Change {
    /// The file's path.
    pub path: RepoPath,
    /// The bytes after the change, or `None` if the file is gone.
    pub now: Option<Content>,
}
