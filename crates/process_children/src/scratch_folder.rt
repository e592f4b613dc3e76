//! The scratch folder of a run, which no other run uses meanwhile.

use crate::disk_paths::{refuse_link, standing, standing_scratch};
use crate::input;
use crate::obstacle::{Obstacle, at_place};
use crate::removal::{put_away, remove};
use crate::run_mark::{Marking, RunMark};
use crate::stamp::Moment;
use std::alloc::{AllocError, Global};
use std::fs::{File, Files};
use std::io::ErrorKind;
use std::os::unix::fs::MetadataExt;
use std::path::{AsPath, Path};
use std::{fs, io};

// How often the mark is changed until the clock has gone on, which it does each hundredth of a second or
// earlier.
const MOST_TOUCHES: u32 = 100_000;

/// What becomes of the scratch folder at the end of its run.
#[derive(Clone, Copy, Debug, PartialEq, Eq)]
pub(crate) enum AtEnd {
    /// It stays for the next run.
    FolderStays,
    /// It is removed, and so is its parent folder if that is empty then.
    FolderGoes,
}

/// The scratch folder of a run. Next to it is the mark of the run, which says that it is in use.
#[derive(Drop)]
pub(crate) struct ScratchFolder {
    place: String,
    number: u64,
    mark: RunMark,
    input_byte: u64,
}

impl ScratchFolder {
    /// Takes a folder for a run: this one, whose number is 0, or one next to it. It is the first from the number
    /// `first` on that no other run uses, nor a child that outlived its run. The folder of a run that was
    /// stopped is removed. The folder isn't made here.
    pub(crate) fn take<R: Files<File = File>>(
        files: &R,
        alloc: Global,
        folder: &str,
        first: u64,
    ) -> Result<ScratchFolder, Obstacle> {
        at_place(alloc, folder, make_parent(files, folder))?;
        for number in first..u64::MAX {
            let place = numbered(alloc, folder, number)?;
            if let Some(mark) = mark_of(files, alloc, place.as_str())? {
                // What other runs left does no harm, so it may stay.
                let _removed = remove_left(files, alloc, folder, number.saturating_add(1));
                let input_byte = at_place(alloc, place.as_str(), mark.input_byte())?;
                return Ok(ScratchFolder {
                    place,
                    number,
                    mark,
                    input_byte,
                });
            }
        }
        at_place(alloc, folder, Err(io::Error::from(ErrorKind::ResourceBusy)))
    }

    /// Its place.
    pub(crate) fn place(&self) -> &str {
        self.place.as_str()
    }

    /// Its number.
    pub(crate) fn number(&self) -> u64 {
        self.number
    }

    /// The byte on which the standard input of the run's children is locked.
    pub(crate) fn input_byte(&self) -> u64 {
        self.input_byte
    }

    /// Waits until the clock of this device, by which files are stamped, is past the moment. The answer is
    /// when it is, or `None` if that takes long, or if the folder is on another device.
    pub(crate) fn moment_after(&self, last: Moment, device: u64) -> io::Result<Option<Moment>> {
        for _ in 0..MOST_TOUCHES {
            let found = self.mark.touch()?;
            if found.dev() != device {
                break;
            }
            let now = Moment::of_change(&found);
            if last.is_before(now) {
                return Ok(Some(now));
            }
        }
        Ok(None)
    }

    /// Whether its mark is still next to it. Otherwise other runs treat the folder as unused.
    pub(crate) fn is_marked<R: Files<File = File>>(&self, files: &R) -> bool {
        self.mark.stands(files)
    }

    /// Leaves the folder, after all children of the run have ended. A folder next to another run's is removed
    /// whatever `at_end` says.
    pub(crate) fn leave<R: Files<File = File>>(self, files: &R, alloc: Global, at_end: AtEnd) {
        let ScratchFolder {
            place,
            number,
            mark,
            input_byte: _,
        } = self;
        let place = place.as_str();
        let stays = number == 0 && at_end == AtEnd::FolderStays;
        // If it can't be removed, its mark stays, and a later run removes it.
        if stays || remove_scratch(files, alloc, place).is_ok() {
            mark.remove(files);
        }
        if at_end == AtEnd::FolderGoes {
            if let Some(parent) = Path::new(place).parent() {
                let _gone = fs::remove_dir(files, parent);
            }
        }
    }
}

// No link is followed, not even one in place of the parent folder.
fn remove_scratch<R: Files>(files: &R, alloc: Global, place: &str) -> io::Result<()> {
    match standing_scratch(files, place)? {
        Some(_) => remove(files, alloc, place),
        None => Ok(()),
    }
}

fn make_parent<R: Files>(files: &R, folder: &str) -> io::Result<()> {
    match Path::new(folder).parent() {
        None => Ok(()),
        Some(parent) => {
            refuse_link(files, parent.path_text())?;
            fs::create_dir_all(files, parent)
        }
    }
}

fn numbered(alloc: Global, folder: &str, number: u64) -> Result<String, AllocError> {
    if number == 0 {
        String::from_str(alloc, folder)
    } else {
        format!(in alloc; "{folder}.{number}")
    }
}

fn mark_place(alloc: Global, place: &str) -> Result<String, AllocError> {
    format!(in alloc; "{place}.run")
}

// Sets the mark of a folder, and removes what a stopped run has left there. `None` if another run uses it, or
// if a child is still alive that knows it by its full path.
fn mark_of<R: Files<File = File>>(
    files: &R,
    alloc: Global,
    place: &str,
) -> Result<Option<RunMark>, Obstacle> {
    let at = mark_place(alloc, place)?;
    match at_place(alloc, at.as_str(), RunMark::set(files, alloc, at.as_str()))? {
        Marking::InUse => Ok(None),
        Marking::Set(mark) => Ok(Some(mark)),
        Marking::TakenOver(mark) => {
            let put_away = put_away(files, alloc, place);
            if input::is_open(files, at_place(alloc, at.as_str(), mark.input_byte())?) {
                return Ok(None);
            }
            at_place(alloc, place, put_away)?;
            Ok(Some(mark))
        }
    }
}

// Removes the folders from the number `first` on that stopped runs had taken next to another one.
fn remove_left<R: Files<File = File>>(
    files: &R,
    alloc: Global,
    folder: &str,
    first: u64,
) -> Result<(), Obstacle> {
    for number in first..u64::MAX {
        let place = numbered(alloc, folder, number)?;
        let mark = mark_place(alloc, place.as_str())?;
        if at_place(alloc, mark.as_str(), standing(files, mark.as_str()))?.is_none() {
            break;
        }
        if let Some(mark) = mark_of(files, alloc, place.as_str())? {
            mark.remove(files);
        }
    }
    Ok(())
}
