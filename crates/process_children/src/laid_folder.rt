//! The scratch folder of a child, from when it was laid until its files are read back.

use crate::disk_paths::standing_scratch;
use crate::own_files::{HeldFiles, OwnFiles};
use crate::stamp::Identity;
use std::alloc::Global;
use std::fs::{Files, Metadata};
use std::io::ErrorKind;
use std::{fs, io};

/// The scratch folder of a child. It is held open from before its first file is laid until the child's files
/// are read back. So all files are laid in one folder, the child is started in it, and they are read there.
/// No other folder gets its inode number meanwhile.
#[derive(Drop)]
pub(crate) struct LaidFolder<'a> {
    /// Its files.
    pub own: OwnFiles<'a>,
    found: Metadata,
}

/// What is held of the scratch folder of a child that runs next to others.
#[derive(Drop)]
pub(crate) struct HeldLaid {
    files: HeldFiles,
    found: Metadata,
}

impl<'a> LaidFolder<'a> {
    /// The folder of these files, which was just laid.
    pub(crate) fn of<R: Files>(files: &R, mut own: OwnFiles<'a>) -> io::Result<LaidFolder<'a>> {
        own.hold_scratch_alone()?;
        let place = own.inside("")?;
        let found = fs::symlink_metadata(files, place.as_str())?;
        Ok(LaidFolder { own, found })
    }

    /// The folder at this place, as `held` has given it.
    pub(crate) fn of_held(alloc: Global, place: &'a str, held: HeldLaid) -> LaidFolder<'a> {
        let HeldLaid { files, found } = held;
        let own = OwnFiles::of_held(alloc, place, files);
        LaidFolder { own, found }
    }

    /// What is held of it, apart from its place.
    pub(crate) fn held(self) -> HeldLaid {
        let LaidFolder { own, found } = self;
        HeldLaid {
            files: own.held(),
            found,
        }
    }

    /// Its metadata from when it was laid.
    pub(crate) fn found(&self) -> &Metadata {
        &self.found
    }

    /// An error if it is no longer at its place, or if a link is there or at the place of its parent folder.
    pub(crate) fn check_place<R: Files>(&self, files: &R) -> io::Result<()> {
        match standing_scratch(files, self.own.folder())? {
            Some(now) if self.is(&now) => Ok(()),
            _ => {
                let message = "the folder is gone, or another one stands in its place";
                Err(io::Error::new(ErrorKind::NotFound, message))
            }
        }
    }

    fn is(&self, found: &Metadata) -> bool {
        Identity::of(found) == Identity::of(&self.found)
    }
}
