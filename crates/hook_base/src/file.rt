//! A file: its path, whether it is executable, and its bytes.

use crate::{Content, RepoPath};

/// Whether a file is executable.
#[derive(Clone, Copy, Debug, PartialEq, Eq)]
pub enum Mode {
    /// It isn't executable.
    Plain,
    /// It is executable.
    Executable,
}

/// The file at a path, without the path.
#[derive(Clone, Debug, Drop, PartialEq, Eq)]
pub struct FileEntry {
    /// Whether it is executable.
    pub mode: Mode,
    /// Its bytes.
    pub bytes: Content,
}

/// A path and the file there: a row of a tree.
#[derive(Clone, Debug, Drop, PartialEq, Eq)]
pub struct File {
    /// The file's path.
    pub path: RepoPath,
    /// Its mode and bytes.
    pub entry: FileEntry,
}
