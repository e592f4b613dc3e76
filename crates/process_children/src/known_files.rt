//! Files of the scratch folder whose bytes are known without reading them.

use crate::file_ages::FileTimes;
use crate::stamp::{Identity, Stamp};
use hook_base::{File, SharedFile};
use std::alloc::{AllocError, Global};
use std::fs::{Files, Metadata};
use std::mem;

// How a file came to be noted.
#[derive(Clone, Copy, Debug, PartialEq, Eq)]
enum KnownBy {
    // It was written, before the first child, and wasn't read yet.
    Written,
    // It was read.
    Read,
}

// A file that was written or read with these bytes. It has them as long as it has this stamp.
#[derive(Debug, Drop)]
struct KnownFile {
    file: SharedFile,
    stamp: Stamp,
    noted: KnownBy,
}

impl KnownFile {
    fn path(&self) -> &str {
        self.file.as_file().path.as_str()
    }

    fn has_bytes_of(&self, file: &File) -> bool {
        self.file.as_file().entry.bytes == file.entry.bytes
    }
}

/// Files that were read and found to contain what a tree's files do. No process can have changed one since
/// without a sign that the next look at it shows. A walk goes through them in the order of their paths.
#[derive(Debug, Drop)]
pub(crate) struct KnownFiles {
    times: FileTimes,
    // The scratch folder that the files lie in.
    folder: Option<Identity>,
    files: Vec<KnownFile>,
    at: usize,
    noted: Vec<KnownFile>,
}

impl KnownFiles {
    /// No file is known yet.
    pub(crate) fn new(alloc: Global) -> KnownFiles {
        KnownFiles::with_times(alloc, FileTimes::Unasked)
    }

    /// No file is known, and none will be: everything is read.
    pub(crate) fn none_ever(alloc: Global) -> KnownFiles {
        KnownFiles::with_times(alloc, FileTimes::Mute)
    }

    /// What the times of files show.
    pub(crate) fn times(&self) -> FileTimes {
        self.times
    }

    /// From now on the times of files show this. So children count that were started in another folder.
    pub(crate) fn set_times(&mut self, times: FileTimes) {
        self.times = times;
    }

    fn with_times(alloc: Global, times: FileTimes) -> KnownFiles {
        KnownFiles {
            times,
            folder: None,
            files: Vec::new(alloc),
            at: 0,
            noted: Vec::new(alloc),
        }
    }

    /// Begins a walk that notes each file of this folder. Files of another folder are no longer known. `made`
    /// was made in the folder just before.
    pub(crate) fn begin_to_note<R: Files>(
        &mut self,
        files: &R,
        alloc: Global,
        folder: &Metadata,
        made: &Metadata,
        piece: &mut [u8],
    ) {
        self.times.ask(files, alloc, made, piece);
        let folder = Some(Identity::of(folder));
        if self.folder != folder {
            self.files = Vec::new(alloc);
        }
        self.folder = folder;
        self.noted = Vec::new(alloc);
        self.at = 0;
    }

    /// Ends such a walk: the files that it noted are the known ones from now on.
    pub(crate) fn end_to_note(&mut self, alloc: Global) {
        self.files = mem::replace(&mut self.noted, Vec::new(alloc));
        self.at = 0;
    }

    /// Begins a walk that only looks files up.
    pub(crate) fn begin(&mut self) {
        self.at = 0;
    }

    /// Whether a folder was laid, or begun to be.
    pub(crate) fn has_folder(&self) -> bool {
        self.folder.is_some()
    }

    /// Notes that a child is about to be started. The folder was changed just before.
    pub(crate) fn child_starts(&mut self, folder: &Metadata) {
        self.times.child_starts(folder);
    }

    /// The device on which every change of a file shows in its stamp. `None` if that isn't known, or isn't so.
    pub(crate) fn device(&self) -> Option<u64> {
        self.times.device()
    }

    /// Whether it is known that changes of files needn't show in their stamps.
    pub(crate) fn are_mute(&self) -> bool {
        matches!(self.times, FileTimes::Mute)
    }

    /// Whether the file at a path was read, so that its metadata may show that it needn't be read again.
    pub(crate) fn has(&mut self, path: &str) -> bool {
        self.known_at(path)
            .is_some_and(|known| known.noted == KnownBy::Read)
    }

    /// Whether what was found at a file's place is known to contain what the file does.
    pub(crate) fn are_equal(&mut self, file: &File, found: &Metadata) -> bool {
        self.are_unchanged(file, found)
            && self
                .known_at(file.path.as_str())
                .is_some_and(|known| known.has_bytes_of(file))
    }

    /// The same for a file that the last walk found as the tree has it.
    pub(crate) fn are_unchanged(&mut self, file: &File, found: &Metadata) -> bool {
        let stamp = Stamp::of(found);
        let tells = self.times.are_settled(&stamp) || self.times.precede_children(&stamp);
        tells
            && self.known_at(file.path.as_str()).is_some_and(|known| known.noted == KnownBy::Read
                && known.stamp == stamp)
    }

    // What is known at a path. It mustn't be less than a path that was asked for in this walk.
    fn known_at(&mut self, path: &str) -> Option<&mut KnownFile> {
        let rest = self.files.as_slice().get(self.at..)?;
        let passed = rest.iter().take_while(|known| known.path() < path).count();
        self.at = self.at.saturating_add(passed);
        let known = self.files.get_mut(self.at)?;
        if known.path() == path {
            Some(known)
        } else {
            None
        }
    }

    /// Notes a file that is known.
    pub(crate) fn note(&mut self, file: &SharedFile, stamp: Stamp) -> Result<(), AllocError> {
        self.push(file, stamp, KnownBy::Read)
    }

    /// Notes a file that was just written, if no child was started yet that could have it open.
    pub(crate) fn note_written(
        &mut self,
        file: &SharedFile,
        stamp: Stamp,
    ) -> Result<(), AllocError> {
        if self.times.is_before_children() {
            self.push(file, stamp, KnownBy::Written)
        } else {
            Ok(())
        }
    }

    /// Notes a file that was read, if it can be known.
    pub(crate) fn note_read(&mut self, file: &SharedFile, stamp: Stamp) -> Result<(), AllocError> {
        if self.times.are_settled(&stamp) || self.confirm(file.as_file(), &stamp) {
            self.push(file, stamp, KnownBy::Read)
        } else {
            Ok(())
        }
    }

    /// Notes that a file was read: it is known from now on if it was written before the first child. Returns
    /// whether it is.
    pub(crate) fn confirm(&mut self, file: &File, stamp: &Stamp) -> bool {
        let precedes = self.times.precede_children(stamp);
        match self.known_at(file.path.as_str()) {
            Some(known) if precedes && known.stamp == *stamp => {
                known.noted = KnownBy::Read;
                true
            }
            _ => false,
        }
    }

    fn push(&mut self, file: &SharedFile, stamp: Stamp, noted: KnownBy) -> Result<(), AllocError> {
        let file = file.clone()?;
        self.noted.push(KnownFile { file, stamp, noted })?;
        Ok(())
    }
}
