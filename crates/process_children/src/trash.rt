//! The trash: where folders go that don't belong in the scratch folder, until they are emptied.

use crate::held_folder::last_error;
use std::alloc::{AllocError, Global};
use std::fs::Files;
use std::io::ErrorKind;
use std::{fs, io};

/// A folder that was moved into the trash.
#[derive(Debug, Drop)]
pub(crate) struct MovedFolder {
    /// Its place.
    pub place: String,
    /// The same, as messages show it.
    pub shown: String,
}

/// A new folder in the scratch folder, into which other folders are moved to be emptied one by one. However
/// deep they were in one another, and whatever their names, each then has a short path. The name of the trash
/// begins with a byte that no path of a tree has.
#[derive(Debug, Drop)]
pub(crate) struct Trash {
    alloc: Global,
    place: String,
    shown: String,
    moved: u64,
    emptied: u64,
}

impl Trash {
    /// Makes the trash in the folder at `place`, which messages show as `shown`, under the first free name.
    pub(crate) fn make_in<R: Files>(
        files: &R,
        alloc: Global,
        place: &str,
        shown: &str,
    ) -> io::Result<Trash> {
        for number in 0..u64::MAX {
            let place = format!(in alloc; "{place}/\u{1}{number}")?;
            let shown = format!(in alloc; "{shown}/\u{1}{number}")?;
            match fs::create_dir(files, place.as_str()) {
                Ok(()) => return Ok(Trash::at(alloc, place, shown)),
                Err(e) if e.kind() == ErrorKind::AlreadyExists => {}
                Err(e) => return Err(e),
            }
        }
        Err(io::Error::from(ErrorKind::AlreadyExists))
    }

    fn at(alloc: Global, place: String, shown: String) -> Trash {
        Trash {
            alloc,
            place,
            shown,
            moved: 0,
            emptied: 0,
        }
    }

    /// Its place.
    pub(crate) fn place(&self) -> &str {
        self.place.as_str()
    }

    /// Its place, as messages show it.
    pub(crate) fn shown(&self) -> &str {
        self.shown.as_str()
    }

    /// Its name in its parent folder.
    pub(crate) fn name(&self) -> &[u8] {
        match self.place.as_str().rsplit_once('/') {
            Some((_, name)) => name.as_bytes(),
            None => self.place.as_str().as_bytes(),
        }
    }

    /// Removes the trash, if nothing was moved into it. Otherwise it stays, and is a stray of the scratch
    /// folder.
    pub(crate) fn leave<R: Files>(&self, files: &R) {
        let _gone = fs::remove_dir(files, self.place());
    }

    /// Takes away what is at a place: a folder, for which unlink(2) gives EISDIR on Linux, is moved here, and
    /// anything else is removed. A link is not followed.
    pub(crate) fn take(&mut self, place: &[u8]) -> io::Result<()> {
        if os::unlink(place) == 0 {
            return Ok(());
        }
        match os::errno() {
            libc::ENOENT => Ok(()),
            libc::EISDIR => self.move_here(place),
            error => Err(io::Error::from_raw_os_error(error)),
        }
    }

    // A folder that its owner may not write can't be moved (rename(2), EACCES), and can't be emptied.
    fn move_here(&mut self, place: &[u8]) -> io::Result<()> {
        let moved = self.numbered(self.place(), self.moved)?;
        succeeded(os::chmod(place, 0o700))?;
        succeeded(os::rename(place, moved.as_str().as_bytes()))?;
        self.moved = self.moved.saturating_add(1);
        Ok(())
    }

    /// The next folder that was moved here, or `None` after the last. It is to be emptied and removed.
    pub(crate) fn next_folder(&mut self) -> Result<Option<MovedFolder>, AllocError> {
        if self.emptied == self.moved {
            return Ok(None);
        }
        let place = self.numbered(self.place(), self.emptied)?;
        let shown = self.numbered(self.shown(), self.emptied)?;
        self.emptied = self.emptied.saturating_add(1);
        Ok(Some(MovedFolder { place, shown }))
    }

    fn numbered(&self, folder: &str, number: u64) -> Result<String, AllocError> {
        format!(in self.alloc; "{folder}/{number}")
    }
}

// Turns C's -1 into the error that errno(3) has.
fn succeeded(status: i32) -> io::Result<()> {
    if status < 0 {
        Err(last_error())
    } else {
        Ok(())
    }
}
