//! Files, fixes and commits in memory, which share what they have in common.

ghost use Rattle.std.specs.Prelude.{◌≡◌, IfOk};
ghost use Rattle.repo_store.specs.Lists.{file_of};

use hook_base::{Bytes, Content, File, FileEntry, Mode, OutOfMemory, RepoPath, SharedFile};
use std::alloc::{AllocError, Global};
use std::marker::Model;

/// A file of the lists, shared with the trees that callers give and get. Contracts see its parts.
#[derive(Drop)]
pub(crate) struct ListedFile {
    file: SharedFile,
}

impl Model for ListedFile {
    ghost use Rattle.repo_store.specs.Shared.{FileParts, parts_code, parts_of_file};

    ghost Value = { FileParts };

    ghost coded = { parts_code };

    ghost view = { λ listed. parts_of_file listed.file };
}

impl ListedFile {
    /// The file of these parts.
    pub(crate) fn of(
        alloc: Global,
        path: RepoPath,
        mode: Mode,
        bytes: Content,
    ) -> Result<ListedFile, OutOfMemory>
        ensures { IfOk result (λ listed. listed ≡ record { path = path; mode = mode; content = bytes }) }
    {
        let entry = FileEntry { mode, bytes };
        let file = SharedFile::of(alloc, File { path, entry })?;
        Ok(ListedFile { file })
    }

    /// A file of a tree, shared with it.
    pub(crate) fn sharing(file: &SharedFile) -> Result<ListedFile, OutOfMemory>
        ensures { IfOk result (λ listed. file_of listed ≡ file.now) }
    {
        let file = file.clone()?;
        Ok(ListedFile { file })
    }

    /// The file as trees share it.
    pub(crate) fn shared(&self) -> &SharedFile
        ensures { result.now ≡ file_of self.now }
    {
        &self.file
    }

    pub(crate) fn path(&self) -> &RepoPath
        ensures { result.now ≡ self.now.path }
    {
        &self.file.as_file().path
    }

    pub(crate) fn mode(&self) -> Mode
        ensures { result ≡ self.now.mode }
    {
        self.file.as_file().entry.mode
    }

    pub(crate) fn content(&self) -> &Content
        ensures { result.now ≡ self.now.content }
    {
        &self.file.as_file().entry.bytes
    }
}

impl Clone for ListedFile {
    ghost use Rattle.std.specs.Prelude.{◌≡◌};

    ghost is_clone = { λ source made. made ≡ source };

    fn clone(&self) -> Result<Self, AllocError> {
        let file = self.file.clone()?;
        Ok(ListedFile { file })
    }
}

/// A fix: the new contents, or `None` if the file is gone.
#[derive(Drop)]
pub(crate) struct SharedFix {
    pub(crate) path: RepoPath,
    pub(crate) now: Option<Content>,
}

impl Clone for SharedFix {
    ghost use Rattle.std.specs.Prelude.{◌≡◌};

    ghost is_clone = { λ source made. made ≡ source };

    fn clone(&self) -> Result<Self, AllocError> {
        Ok(SharedFix {
            path: self.path.clone()?,
            now: self.now.clone()?,
        })
    }
}

#[derive(Drop)]
pub(crate) struct SharedCommit {
    pub(crate) message: Bytes,
    pub(crate) files: Vec<ListedFile>,
}
