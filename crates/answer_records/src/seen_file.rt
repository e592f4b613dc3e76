//! A file that a child saw.

use hook_base::{Mode, RepoPath};

/// A file that a child saw, with the digest of its bytes.
#[derive(Clone, Debug, Drop, PartialEq, Eq)]
pub struct SeenFile {
    /// The file's path.
    pub path: RepoPath,
    /// Whether it is executable.
    pub mode: Mode,
    /// The SHA-256 of its bytes.
    pub digest: [u8; 32],
}
