//! A file as callers see it, by reference.

use hook_base::{Mode, RepoPath};

/// A file of a store: its path, its mode and its contents.
#[derive(Clone, Copy, Debug)]
pub struct FileRef<'a> {
    /// Its path in the repository.
    pub path: &'a RepoPath,
    /// Whether it is executable.
    pub mode: Mode,
    /// Its contents.
    pub bytes: &'a [u8],
}
