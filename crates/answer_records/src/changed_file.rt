//! A file that a child changed.

use hook_base::RepoPath;

/// What became of a file, with the digest of its new bytes.
#[derive(Clone, Debug, Drop, PartialEq, Eq)]
pub struct ChangedFile {
    /// The file's path.
    pub path: RepoPath,
    /// The SHA-256 of its new bytes, or `None` if it is gone.
    pub digest: Option<[u8; 32]>,
}
