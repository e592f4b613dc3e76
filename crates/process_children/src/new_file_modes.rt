//! The modes and the owner of files and folders that were just made.

use hook_base::{FileEntry, Mode};
use std::fs::Metadata;
use std::os::unix::fs::MetadataExt;

// The permissions, with the set-user-ID, set-group-ID and sticky bits (inode(7), "The file type and mode").
const MODE_BITS: u32 = 0o7777;

/// The mode with which a file is made, before umask(2) narrows it.
pub(crate) fn asked_mode(mode: Mode) -> u32 {
    match mode {
        Mode::Plain => 0o666,
        Mode::Executable => 0o777,
    }
}

/// What files and folders that were just made are like: their modes, as umask(2) narrows them, and their
/// owner.
#[derive(Clone, Copy, Debug)]
pub(crate) struct Fresh {
    mode: u32,
    owner: u32,
    group: u32,
}

impl Fresh {
    /// As this folder, which was just made.
    pub(crate) fn of(folder: &Metadata) -> Fresh {
        Fresh {
            mode: folder.mode() & 0o777,
            owner: folder.uid(),
            group: folder.gid(),
        }
    }

    /// The mode of a new folder.
    pub(crate) fn folder_mode(&self) -> u32 {
        self.mode
    }

    /// The owner and the group of new files and folders.
    pub(crate) fn owner_and_group(&self) -> (u32, u32) {
        (self.owner, self.group)
    }

    /// Whether this is a folder, not a link to one, with the owner and the group of a new one.
    pub(crate) fn is_folder(&self, found: &Metadata) -> bool {
        found.is_dir() && self.is_owner_of(found)
    }

    /// Whether its mode is a new folder's.
    pub(crate) fn has_folder_mode(&self, found: &Metadata) -> bool {
        found.mode() & MODE_BITS == self.mode
    }

    /// Whether this is a file of that length, with the mode and the owner of a new one, and without a second
    /// name.
    pub(crate) fn is_file(&self, found: &Metadata, wanted: &FileEntry) -> bool {
        found.is_file()
            && found.len() == wanted.bytes.len() as u64
            && found.mode() & MODE_BITS == self.mode & asked_mode(wanted.mode)
            && found.nlink() == 1
            && self.is_owner_of(found)
    }

    fn is_owner_of(&self, found: &Metadata) -> bool {
        found.uid() == self.owner && found.gid() == self.group
    }
}
