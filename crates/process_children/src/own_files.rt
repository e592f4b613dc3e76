//! How the files of the scratch folder are found and opened by their paths.

use crate::disk_paths::{place_in, standing};
use crate::held_folder::HeldFolder;
use crate::obstacle::Obstacle;
use crate::stamp::Stamp;
use std::alloc::{AllocError, Global};
use std::fs::{Files, Metadata, OpenFile, OpenOptions};
use std::io::ErrorKind;
use std::{fs, io};

// The folder in which the system shows what a process has open (proc(5), "/proc/self").
const OPEN: &str = "/proc/self/fd";

// A folder's path and a path in it have fewer bytes than this together. With a slash between and a NUL at the
// end they are then at most `PATH_MAX` bytes, which the system takes (POSIX.1-2017, limits.h).
const MOST_LOOKED_AT: usize = libc::PATH_MAX - 1;

// The error of opening a socket, no such device or address (open(2), ENXIO).
const ENXIO: i32 = 6;

/// A file that was opened to be read.
#[derive(Drop)]
pub(crate) struct Opened<F: Drop> {
    /// The open file.
    pub file: F,
    /// Its stamp, from before it is read.
    pub stamp: Stamp,
}

/// The files of the scratch folder, each found and opened in its folder, which is held open. So nothing is
/// found through a link, even if it is put in the folder's place in this moment. And a path may be longer
/// than the system takes at once. If the system doesn't show what is held open, the paths alone are used.
#[derive(Debug, Drop)]
pub(crate) struct OwnFiles<'a> {
    alloc: Global,
    folder: &'a str,
    holds: bool,
    scratch: Option<HeldFolder>,
    // The folder in it that was asked for last, by its path in the tree.
    inner: String,
    held: Option<HeldFolder>,
}

/// What is held of the files of a scratch folder while its child runs.
#[derive(Debug, Drop)]
pub(crate) struct HeldFiles {
    holds: bool,
    scratch: Option<HeldFolder>,
}

impl<'a> OwnFiles<'a> {
    /// The files of this scratch folder.
    pub(crate) fn of<R: Files>(files: &R, alloc: Global, folder: &'a str) -> OwnFiles<'a> {
        OwnFiles {
            alloc,
            folder,
            holds: fs::symlink_metadata(files, OPEN).is_ok(),
            scratch: None,
            inner: String::new(alloc),
            held: None,
        }
    }

    /// The files of a scratch folder that is held open, as `held` has given it.
    pub(crate) fn of_held(alloc: Global, folder: &'a str, held: HeldFiles) -> OwnFiles<'a> {
        let HeldFiles { holds, scratch } = held;
        OwnFiles {
            alloc,
            folder,
            holds,
            scratch,
            inner: String::new(alloc),
            held: None,
        }
    }

    /// What is held of them, apart from the place of their folder. The folder in it that was found last is
    /// closed.
    pub(crate) fn held(self) -> HeldFiles {
        let OwnFiles {
            alloc: _,
            folder: _,
            holds,
            scratch,
            inner: _,
            held: _,
        } = self;
        HeldFiles { holds, scratch }
    }

    /// Turns the error of a result into the trouble at this path of the tree.
    pub(crate) fn at<T>(&self, path: &str, ended: io::Result<T>) -> Result<T, Obstacle> {
        match ended {
            Ok(value) => Ok(value),
            Err(error) => match self.shown(path) {
                Ok(place) => Err(Obstacle::at(self.alloc, place.as_str(), error)),
                Err(refusal) => Err(Obstacle::from(refusal)),
            },
        }
    }

    /// The place of a path of the tree, as messages show it.
    pub(crate) fn shown(&self, path: &str) -> Result<String, AllocError> {
        place_in(self.alloc, self.folder, path)
    }

    /// The place of a path of the tree, valid until the next one is asked for. A folder that may not be
    /// listed is found by its path alone. An error if a folder on the way to it is a link or isn't there.
    pub(crate) fn place(&mut self, path: &str) -> io::Result<String> {
        if !self.holds {
            return Ok(self.shown(path)?);
        }
        let (inner, name) = match path.rsplit_once('/') {
            Some(parts) => parts,
            None => ("", path),
        };
        match self.hold(inner) {
            Ok(number) => Ok(format!(in self.alloc; "{OPEN}/{number}/{name}")?),
            Err(e) if e.kind() == ErrorKind::PermissionDenied => Ok(self.shown(path)?),
            Err(e) => Err(e),
        }
    }

    /// Where to look at the metadata of a path of the tree: by its path alone, if the system takes that.
    /// Whatever is done there uses `place`.
    pub(crate) fn look_place(&mut self, path: &str) -> io::Result<String> {
        if self.folder.len().saturating_add(path.len()) < MOST_LOOKED_AT {
            Ok(self.shown(path)?)
        } else {
            self.place(path)
        }
    }

    /// Likewise the place of a folder of the tree. A slash and a name lead from there to what is in it.
    pub(crate) fn inside(&mut self, folder: &str) -> io::Result<String> {
        if !self.holds {
            return Ok(self.shown(folder)?);
        }
        let number = self.hold(folder)?;
        Ok(format!(in self.alloc; "{OPEN}/{number}/.")?)
    }

    /// The place of the scratch folder, as messages show it.
    pub(crate) fn folder(&self) -> &'a str {
        self.folder
    }

    /// Holds the scratch folder, and closes the folder in it that was found last.
    pub(crate) fn hold_scratch_alone(&mut self) -> io::Result<()> {
        self.held = None;
        let _scratch = self.scratch()?;
        Ok(())
    }

    // The scratch folder, which is held from the first time that it is asked for: files are found in this
    // one, whatever is put in its place.
    fn scratch(&mut self) -> io::Result<&HeldFolder> {
        let scratch = match self.scratch.take() {
            Some(scratch) => scratch,
            None => HeldFolder::scratch(self.folder)?,
        };
        Ok(self.scratch.insert(scratch))
    }

    // Holds a folder of the tree, and returns its descriptor.
    fn hold(&mut self, inner: &str) -> io::Result<i32> {
        if inner.is_empty() {
            return Ok(self.scratch()?.number());
        }
        if let Some(held) = &self.held {
            if self.inner.as_str() == inner {
                return Ok(held.number());
            }
        }
        let held = self.found(inner)?;
        let number = held.number();
        self.inner = String::from_str(self.alloc, inner)?;
        self.held = Some(held);
        Ok(number)
    }

    // A folder below the last one is found from there.
    fn found(&mut self, inner: &str) -> io::Result<HeldFolder> {
        if let Some(held) = &self.held {
            if let Some(rest) = rest_below(self.inner.as_str(), inner) {
                return held.within(rest);
            }
        }
        self.scratch()?.within(inner)
    }

    /// Opens a file for reading that was just found at this place. `None` if it is no longer there, or
    /// another one is. It is opened for writing too, since the system then doesn't wait for the other end of
    /// a fifo that was put there (fifo(7)).
    pub(crate) fn open<R: Files>(
        &self,
        files: &R,
        place: &str,
        found: &Metadata,
    ) -> io::Result<Option<Opened<R::File>>> {
        let mut options = OpenOptions::new();
        let opened = match options.read(true).write(true).open(files, place) {
            Err(e) if may_be_read(&e) => self.open_to_read(files, place),
            opened => opened,
        };
        match opened {
            Ok(file) => {
                let stamp = Stamp::of(&file.metadata()?);
                Ok(stamp.is_of(found).then_some(Opened { file, stamp }))
            }
            Err(e) if is_no_file(&e) => Ok(None),
            Err(e) => Err(e),
        }
    }

    // Opens a file that may not be written. Here the system would wait for the other end of a fifo. So what
    // is at the place first gets a second name, which no other process uses, and is looked at there. If it
    // can't have one, it is opened as it is. A process that is killed meanwhile leaves the name as a stray.
    fn open_to_read<R: Files>(&self, files: &R, place: &str) -> io::Result<R::File> {
        let second = self.second_name()?;
        let second = second.as_str();
        let _gone = fs::remove_file(files, second);
        match fs::hard_link(files, place, second) {
            Ok(()) => {
                let opened = open_file(files, second);
                let _gone = fs::remove_file(files, second);
                opened
            }
            Err(e) if is_in_the_way(&e) => Err(e),
            Err(_) => fs::open(files, place),
        }
    }

    // A name in the scratch folder that no path of a tree has.
    fn second_name(&self) -> Result<String, AllocError> {
        match &self.scratch {
            Some(held) => format!(in self.alloc; "{OPEN}/{}/\u{1}look", held.number()),
            None => format!(in self.alloc; "{}/\u{1}look", self.folder),
        }
    }
}

// Whether an error of a second name says that the first is no longer there, or that the second one is taken.
fn is_in_the_way(error: &io::Error) -> bool {
    matches!(error.kind(), ErrorKind::NotFound | ErrorKind::AlreadyExists)
}

fn open_file<R: Files>(files: &R, place: &str) -> io::Result<R::File> {
    match standing(files, place)? {
        Some(found) if found.is_file() => fs::open(files, place),
        _ => Err(io::Error::from(ErrorKind::NotFound)),
    }
}

// The part of a path that leads on from a folder, if it leads through that.
fn rest_below<'p>(folder: &str, path: &'p str) -> Option<&'p str> {
    match path.strip_prefix(folder) {
        Some(rest) if !folder.is_empty() => rest.strip_prefix('/'),
        _ => None,
    }
}

// Whether an error says only that a file may not be written. It may still be readable.
fn may_be_read(error: &io::Error) -> bool {
    matches!(
        error.kind(),
        ErrorKind::PermissionDenied | ErrorKind::ReadOnlyFilesystem | ErrorKind::ExecutableFileBusy
    )
}

// Whether an error says that there is no file to read: nothing, a folder, a link or a socket.
fn is_no_file(error: &io::Error) -> bool {
    let kind = error.kind();
    let is_other = matches!(kind, ErrorKind::IsADirectory | ErrorKind::FilesystemLoop);
    kind == ErrorKind::NotFound || is_other || error.raw_os_error() == Some(ENXIO)
}
