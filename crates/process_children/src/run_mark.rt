//! The mark of a run: a file next to its scratch folder, from before its first child until it ends.

use crate::disk_paths::standing;
use std::alloc::Global;
use std::fs::{File, Files, Metadata, OpenOptions, Permissions, TryLockError};
use std::io::ErrorKind;
use std::os::fd::AsRawFd;
use std::os::unix::fs::{MetadataExt, PermissionsExt};
use std::{fs, io};

// The descriptor of standard error, `STDERR_FILENO`, the last of the standard streams.
const LAST_STREAM: i32 = 2;

// The bytes that distinguish runs are before this one.
const BYTES: u64 = 1 << 62;

// The bits of a mode that chmod(2) sets.
const MODE_BITS: u32 = 0o7777;

/// The mark that a run has set. Its file is locked until the run's process ends, however that ends. A mark
/// without a lock is that of a run that was stopped, and whose child may have outlived it.
#[derive(Drop)]
pub(crate) struct RunMark {
    file: File,
    place: String,
}

/// What a run finds when it sets its mark.
#[derive(Drop)]
pub(crate) enum Marking {
    /// There was none.
    Set(RunMark),
    /// There was the mark of a run that was stopped. It belongs to this run from now on.
    TakenOver(RunMark),
    /// There is the mark of a run that goes on.
    InUse,
}

// The file of a mark, which isn't locked yet.
#[derive(Drop)]
enum MarkFile {
    New(File),
    Standing(File),
    // It was removed meanwhile.
    Gone,
}

impl RunMark {
    /// Sets the mark at a place. An error if anything but a regular file is there.
    pub(crate) fn set<R: Files<File = File>>(
        files: &R,
        alloc: Global,
        place: &str,
    ) -> io::Result<Marking> {
        let place = String::from_str(alloc, place)?;
        for _ in 0..u64::MAX {
            let (file, is_new) = match open(files, place.as_str())? {
                MarkFile::New(file) => (file, true),
                MarkFile::Standing(file) => (file, false),
                MarkFile::Gone => continue,
            };
            match file.try_lock() {
                Ok(()) => {}
                Err(TryLockError::WouldBlock) => break,
                Err(TryLockError::Error(e)) => return Err(e),
            }
            // Otherwise the run that had it has ended since, and has removed it.
            if is_at(files, &file, place.as_str())? {
                let mark = RunMark { file, place };
                return Ok(if is_new {
                    Marking::Set(mark)
                } else {
                    Marking::TakenOver(mark)
                });
            }
        }
        Ok(Marking::InUse)
    }

    /// The byte on which the standard input of the run's children is locked. It is the same for all runs to
    /// which this mark passes, and hardly ever that of another mark.
    pub(crate) fn input_byte(&self) -> io::Result<u64> {
        let held = self.file.metadata()?;
        Ok((held.ino() ^ (held.dev() << 32)) % BYTES)
    }

    /// Whether it is still at its place.
    pub(crate) fn stands<R: Files<File = File>>(&self, files: &R) -> bool {
        is_at(files, &self.file, self.place.as_str()).is_ok_and(|is_there| is_there)
    }

    /// Changes the mark, which stays as it is but for the time of its last change, and answers what it is like
    /// then.
    pub(crate) fn touch(&self) -> io::Result<Metadata> {
        let mode = self.file.metadata()?.mode() & MODE_BITS;
        self.file.set_permissions(Permissions::from_mode(mode))?;
        self.file.metadata()
    }

    /// Removes the mark, since the run has ended by itself.
    pub(crate) fn remove<R: Files<File = File>>(self, files: &R) {
        if self.stands(files) {
            let _gone = fs::remove_file(files, self.place.as_str());
        }
    }
}

fn open<R: Files<File = File>>(files: &R, place: &str) -> io::Result<MarkFile> {
    match OpenOptions::new()
        .write(true)
        .create_new(true)
        .open(files, place)
    {
        Ok(file) => return Ok(MarkFile::New(above_streams(file)?)),
        Err(e) if e.kind() == ErrorKind::AlreadyExists => {}
        Err(e) => return Err(e),
    }
    match standing(files, place)? {
        None => return Ok(MarkFile::Gone),
        Some(found) if found.is_file() => {}
        // Opening a fifo would wait for its reader (fifo(7)), and a link may lead out of the folder.
        Some(_) => return Err(io::Error::from(ErrorKind::Unsupported)),
    }
    // It is opened for reading too, so that the system doesn't wait for the reader of a fifo that is put
    // there in this moment (fifo(7)).
    match OpenOptions::new().read(true).write(true).open(files, place) {
        Ok(file) => Ok(MarkFile::Standing(above_streams(file)?)),
        Err(e) if e.kind() == ErrorKind::NotFound => Ok(MarkFile::Gone),
        Err(e) => Err(e),
    }
}

// The file, under a descriptor that is no standard stream's: output for a stream that was closed must not
// land in it.
fn above_streams(file: File) -> io::Result<File> {
    if file.as_raw_fd() <= LAST_STREAM {
        file.try_clone()
    } else {
        Ok(file)
    }
}

// Whether this file is at the place.
fn is_at<R: Files<File = File>>(files: &R, file: &File, place: &str) -> io::Result<bool> {
    let held = file.metadata()?;
    match standing(files, place)? {
        Some(named) => Ok(held.dev() == named.dev() && held.ino() == named.ino()),
        None => Ok(false),
    }
}
