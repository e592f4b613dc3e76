//! What a child did to the files of its tree.

use crate::contents::{begins_with, read_open};
use crate::disk_paths::{refuse_link, standing};
use crate::folders::{folder_at, shared_bytes};
use crate::known_files::KnownFiles;
use crate::laid_folder::LaidFolder;
use crate::obstacle::{Obstacle, at_place};
use crate::own_files::Opened;
use hook_base::{Bytes, Change, Changes, Content, File, MOST_FILE_BYTES, Tree};
use std::alloc::{AllocError, Global};
use std::fs::{Files, Metadata};
use std::io;
use std::io::{ErrorKind, Read, Seek, SeekFrom};

// How often a file is looked at if another one takes its place in that moment.
const MOST_LOOKS: u32 = 1_000;

/// What became of the files of the tree. Each is looked at in the folder, and read back unless it is known. A
/// file that is missing, or whose folder is missing or is no folder, counts as removed.
///
/// The error is the folder if that was lost: it is no longer at its place, or another one is. Otherwise it is
/// the first file that can't be read, that has more bytes than a file may, or that is no regular file. A link
/// at its place, or on the way to it, is an error too, since none is followed.
pub(crate) fn read_back<R: Files>(
    files: &R,
    alloc: Global,
    laid: LaidFolder<'_>,
    tree: &Tree,
    known: &mut KnownFiles,
    piece: &mut [u8],
) -> Result<Changes, Obstacle> {
    let folder = laid.own.folder();
    match Changes::from_rising(changes_of(files, alloc, laid, tree, known, piece)?) {
        Ok(changes) => Ok(changes),
        Err(_) => at_place(alloc, folder, Err(io::Error::from(ErrorKind::InvalidData))),
    }
}

// The folder is read only if it is at its place, and what was read counts only if it is still there then.
fn changes_of<R: Files>(
    files: &R,
    alloc: Global,
    laid: LaidFolder<'_>,
    tree: &Tree,
    known: &mut KnownFiles,
    piece: &mut [u8],
) -> Result<Vec<Change>, Obstacle> {
    let folder = laid.own.folder();
    at_place(alloc, folder, laid.check_place(files))?;
    known.begin();
    let mut reading = Reading {
        files,
        alloc,
        laid,
        known,
    };
    let changes = reading.changes(tree, piece);
    at_place(alloc, folder, reading.laid.check_place(files))?;
    changes
}

// What is needed while the files of a tree are read back.
#[derive(Drop)]
struct Reading<'a, 'f, R: Files> {
    files: &'a R,
    alloc: Global,
    laid: LaidFolder<'f>,
    known: &'a mut KnownFiles,
}

impl<'a, 'f, R: Files> Reading<'a, 'f, R> {
    // Each file that changed. Before the first one of a folder, that folder is checked for links.
    fn changes(&mut self, tree: &Tree, piece: &mut [u8]) -> Result<Vec<Change>, Obstacle> {
        let mut changes = Vec::new(self.alloc);
        let mut before = "";
        for index in 0..tree.len() {
            let file = tree.entry(index);
            let path = file.path.as_str();
            let links = self.refuse_links(path, shared_bytes(before, path));
            self.laid.own.at(path, links)?;
            let change = self.change_of(file, piece);
            if let Some(change) = self.laid.own.at(path, change)? {
                changes.push(change).map_err(AllocError::from)?;
            }
            before = path;
        }
        Ok(changes)
    }

    fn refuse_links(&mut self, path: &str, shared: usize) -> io::Result<()> {
        for at in shared..path.len() {
            if let Some(inner) = folder_at(path, at) {
                match self.laid.own.look_place(inner) {
                    Ok(place) => refuse_link(self.files, place.as_str())?,
                    Err(e) if is_gone(&e) => return Ok(()),
                    Err(e) => return Err(e),
                }
            }
        }
        Ok(())
    }

    // What became of a file. An error if it is another one each time that it is opened.
    fn change_of(&mut self, file: &File, piece: &mut [u8]) -> io::Result<Option<Change>> {
        if self.is_unchanged(file)? {
            return Ok(None);
        }
        let place = match self.laid.own.place(file.path.as_str()) {
            Ok(place) => place,
            Err(e) if is_gone(&e) => return Ok(Some(change_to(file, None)?)),
            Err(e) => return Err(e),
        };
        let place = place.as_str();
        for _ in 0..MOST_LOOKS {
            match look_at(self.files, place)? {
                Look::Gone => return Ok(Some(change_to(file, None)?)),
                Look::Open(found) => {
                    if let Some(opened) = self.laid.own.open(self.files, place, &found)? {
                        return self.change_in(opened, file, piece);
                    }
                }
            }
        }
        Err(io::Error::from(ErrorKind::ResourceBusy))
    }

    // Whether a file is known and unchanged. Then that very file is at its path, whatever folders lead there.
    // A file of which nothing is known isn't looked at here.
    fn is_unchanged(&mut self, file: &File) -> io::Result<bool> {
        let path = file.path.as_str();
        if !self.known.has(path) {
            return Ok(false);
        }
        let place = match self.laid.own.look_place(path) {
            Ok(place) => place,
            Err(e) if is_gone(&e) => return Ok(false),
            Err(e) => return Err(e),
        };
        match standing(self.files, place.as_str())? {
            Some(found) => Ok(self.known.are_unchanged(file, &found)),
            None => Ok(false),
        }
    }

    // The change that reading an open file shows, if any.
    fn change_in<F: Read + Seek + Drop>(
        &mut self,
        opened: Opened<F>,
        file: &File,
        piece: &mut [u8],
    ) -> io::Result<Option<Change>> {
        let Opened {
            file: mut open,
            stamp,
        } = opened;
        let before = file.entry.bytes.as_slice();
        if stamp.length() == before.len() as u64 {
            if begins_with(&mut open, before, piece)? {
                let _known = self.known.confirm(file, &stamp);
                return Ok(None);
            }
            let _start = open.seek(SeekFrom::Start(0))?;
        }
        let bytes = Bytes::from(read_open(self.alloc, &mut open, piece)?);
        let now = Content::hashed(self.alloc, bytes).map_err(|_refused| AllocError)?;
        Ok(Some(change_to(file, Some(now))?))
    }
}

// Whether an error says that nothing is at a path, or that it leads through what is missing or no folder.
fn is_gone(error: &io::Error) -> bool {
    matches!(error.kind(), ErrorKind::NotFound | ErrorKind::NotADirectory)
}

// What a look at a file's place shows.
#[derive(Drop)]
enum Look {
    Gone,
    // It has to be read.
    Open(Metadata),
}

fn look_at<R: Files>(files: &R, place: &str) -> io::Result<Look> {
    match standing(files, place)? {
        None => Ok(Look::Gone),
        Some(found) if !found.is_file() => {
            let message = "no file stands there";
            Err(io::Error::new(ErrorKind::InvalidData, message))
        }
        Some(found) if found.len() > MOST_FILE_BYTES as u64 => {
            let message = "the file is too large";
            Err(io::Error::new(ErrorKind::FileTooLarge, message))
        }
        Some(found) => Ok(Look::Open(found)),
    }
}

fn change_to(file: &File, now: Option<Content>) -> io::Result<Change> {
    let path = file.path.clone()?;
    Ok(Change { path, now })
}
