//! The scratch folder, made to hold the files of a tree and nothing else.

use crate::contents::{begins_with, write_new};
use crate::disk_paths::{standing, standing_scratch};
use crate::folders::{folder_at, shared_bytes};
use crate::known_files::KnownFiles;
use crate::laid_folder::LaidFolder;
use crate::links::{WantedFiles, last_name, make_link};
use crate::new_file_modes::Fresh;
use crate::obstacle::{Obstacle, at_place};
use crate::own_files::OwnFiles;
use crate::search::belongs;
use crate::stamp::Stamp;
use crate::stop::is_want_of_memory;
use crate::stray_files::{Belonging, Besides, GIT_FOLDER, empty_trash, take_strays};
use crate::trash::Trash;
use hook_base::{SharedFile, Tree};
use std::alloc::Global;
use std::fs::{Files, Metadata, Permissions};
use std::io::ErrorKind;
use std::os::unix::fs::{PermissionsExt, lchown};
use std::{fs, io};

/// Makes the folder, with its missing parents, and makes it hold the files of the tree, the folder `.git`,
/// the wanted links, and nothing else. What is as it would be written stays. If that fails, unless memory was
/// refused, the folder is emptied and all of it is written again. Known files aren't read. Known afterwards
/// are those that were read, as far as they can be.
///
/// The error is what is in the way if that fails too, or if the folder or its parent is a link: then nothing
/// that it leads to is touched.
pub(crate) fn keep_as<'a, R: Files>(
    files: &R,
    alloc: Global,
    folder: &'a str,
    wanted: WantedFiles<'_>,
    known: &mut KnownFiles,
    piece: &mut [u8],
) -> Result<LaidFolder<'a>, Obstacle> {
    match settle(files, alloc, folder, wanted, known, piece) {
        Ok(laid) => Ok(laid),
        Err(trouble) if is_want_of_memory(trouble.error()) => Err(trouble),
        Err(_trouble) => {
            empty(files, alloc, folder)?;
            settle(files, alloc, folder, wanted, known, piece)
        }
    }
}

fn settle<'a, R: Files>(
    files: &R,
    alloc: Global,
    folder: &'a str,
    wanted: WantedFiles<'_>,
    known: &mut KnownFiles,
    piece: &mut [u8],
) -> Result<LaidFolder<'a>, Obstacle> {
    let mut keeping = Keeping::begin(files, alloc, folder, known, piece)?;
    match keeping.settle(wanted, piece) {
        Ok(()) => keeping.finish(),
        Err(trouble) => {
            keeping.trash.leave(files);
            Err(trouble)
        }
    }
}

/// Makes the folder hold nothing. An error if that can't be done, or if the folder or its parent is a link.
pub(crate) fn empty<R: Files>(files: &R, alloc: Global, folder: &str) -> Result<(), Obstacle> {
    let mut known = KnownFiles::none_ever(alloc);
    let mut keeping = Keeping::begin(files, alloc, folder, &mut known, &mut [])?;
    let emptied = keeping.empty();
    if emptied.is_err() {
        keeping.trash.leave(files);
    }
    emptied
}

// Makes the folder if there is none, and otherwise makes it usable. Anything else at its place is removed
// first.
fn make_folder<R: Files>(files: &R, folder: &str) -> io::Result<()> {
    match standing_scratch(files, folder)? {
        None => fs::create_dir_all(files, folder),
        Some(found) if found.is_dir() => {
            fs::set_permissions(files, folder, Permissions::from_mode(0o700))
        }
        Some(_) => {
            fs::remove_file(files, folder)?;
            fs::create_dir(files, folder)
        }
    }
}

// What is needed while the folder is made to hold a tree.
#[derive(Drop)]
struct Keeping<'f, 'k, R: Files> {
    files: &'k R,
    alloc: Global,
    own: OwnFiles<'f>,
    trash: Trash,
    fresh: Fresh,
    known: &'k mut KnownFiles,
}

impl<'f, 'k, R: Files> Keeping<'f, 'k, R> {
    // Makes the folder, holds it, and makes the trash in it.
    fn begin(
        files: &'k R,
        alloc: Global,
        folder: &'f str,
        known: &'k mut KnownFiles,
        piece: &mut [u8],
    ) -> Result<Keeping<'f, 'k, R>, Obstacle> {
        at_place(alloc, folder, make_folder(files, folder))?;
        let mut own = OwnFiles::of(files, alloc, folder);
        let place = at_place(alloc, folder, own.inside(""))?;
        let place = place.as_str();
        let held = at_place(alloc, folder, fs::symlink_metadata(files, place))?;
        let trash = at_place(alloc, folder, Trash::make_in(files, alloc, place, folder))?;
        let found = match fs::symlink_metadata(files, trash.place()) {
            Ok(found) => found,
            Err(e) => {
                trash.leave(files);
                return at_place(alloc, folder, Err(e));
            }
        };
        known.begin_to_note(files, alloc, &held, &found, piece);
        Ok(Keeping {
            files,
            alloc,
            own,
            trash,
            fresh: Fresh::of(&found),
            known,
        })
    }

    fn empty(&mut self) -> Result<(), Obstacle> {
        self.take_strays("", &Tree::new(self.alloc), Besides::Trash)?;
        empty_trash(self.files, self.alloc, &mut self.trash)
    }

    fn settle(&mut self, wanted: WantedFiles<'_>, piece: &mut [u8]) -> Result<(), Obstacle> {
        let tree = wanted.tree;
        self.take_strays("", tree, Besides::TrashAndGit)?;
        let made = self.make_git_folder(tree);
        self.own.at(GIT_FOLDER, made)?;
        self.make_links(wanted)?;
        self.settle_files(tree, piece)?;
        empty_trash(self.files, self.alloc, &mut self.trash)
    }

    // Makes all links again: those of the last child, or what it put in their place, were strays.
    fn make_links(&mut self, wanted: WantedFiles<'_>) -> Result<(), Obstacle> {
        for place in wanted.links {
            let place = place.as_str();
            let made = make_link(self.files, self.alloc, &mut self.own, wanted.tree, place);
            self.own.at(last_name(place), made)?;
        }
        Ok(())
    }

    // Makes the folder `.git` again, whatever is there. If the tree has files in it, it is settled as their
    // folder.
    fn make_git_folder(&mut self, tree: &Tree) -> io::Result<()> {
        if belongs(self.alloc, tree, "", GIT_FOLDER.as_bytes())? {
            return Ok(());
        }
        let place = self.own.place(GIT_FOLDER)?;
        match fs::remove_dir(self.files, place.as_str()) {
            Err(e) if e.kind() != ErrorKind::NotFound => {
                self.trash.take(place.as_str().as_bytes())?;
            }
            _ => {}
        }
        fs::create_dir(self.files, place.as_str())
    }

    // Settles each file, and before the first one of a folder that folder.
    fn settle_files(&mut self, tree: &Tree, piece: &mut [u8]) -> Result<(), Obstacle> {
        let mut before = "";
        for index in 0..tree.len() {
            let file = tree.shared(index);
            let path = file.as_file().path.as_str();
            self.settle_folders(tree, path, shared_bytes(before, path))?;
            let settled = self.settle_file(file, piece);
            self.own.at(path, settled)?;
            before = path;
        }
        Ok(())
    }

    fn settle_folders(&mut self, tree: &Tree, path: &str, shared: usize) -> Result<(), Obstacle> {
        for at in shared..path.len() {
            if let Some(folder) = folder_at(path, at) {
                self.settle_folder(tree, folder)?;
            }
        }
        Ok(())
    }

    fn settle_folder(&mut self, tree: &Tree, folder: &str) -> Result<(), Obstacle> {
        let place = self.own.place(folder);
        let place = self.own.at(folder, place)?;
        let is_new = self.make_folder(place.as_str());
        if self.own.at(folder, is_new)? {
            Ok(())
        } else {
            self.take_strays(folder, tree, Besides::Nothing)
        }
    }

    // Makes a folder be like a new one, and returns whether it is new.
    fn make_folder(&mut self, place: &str) -> io::Result<bool> {
        match standing(self.files, place)? {
            Some(found) if self.fresh.is_folder(&found) => {
                if !self.fresh.has_folder_mode(&found) {
                    let mode = self.fresh.folder_mode();
                    fs::set_permissions(self.files, place, Permissions::from_mode(mode))?;
                }
                Ok(false)
            }
            Some(_) => {
                self.trash.take(place.as_bytes())?;
                fs::create_dir(self.files, place)?;
                Ok(true)
            }
            None => {
                fs::create_dir(self.files, place)?;
                Ok(true)
            }
        }
    }

    fn take_strays(&mut self, folder: &str, tree: &Tree, besides: Besides) -> Result<(), Obstacle> {
        let place = self.own.inside(folder);
        let place = self.own.at(folder, place)?;
        let shown = self.own.shown(folder)?;
        let wanted = Belonging {
            tree,
            folder,
            place: place.as_str(),
            shown: shown.as_str(),
            besides,
        };
        take_strays(self.files, self.alloc, &mut self.trash, &wanted)
    }

    // A file that differs in anything is replaced by a new one, so that what its other names lead to doesn't
    // change.
    fn settle_file(&mut self, file: &SharedFile, piece: &mut [u8]) -> io::Result<()> {
        if self.is_known(file)? {
            return Ok(());
        }
        let wanted = &file.as_file().entry;
        let place = self.own.place(file.as_file().path.as_str())?;
        let place = place.as_str();
        if let Some(found) = standing(self.files, place)? {
            if self.fresh.is_file(&found, wanted) && self.holds(place, file, &found, piece)? {
                return Ok(());
            }
            self.trash.take(place.as_bytes())?;
        }
        let stamp = write_new(self.files, place, wanted)?;
        self.known.note_written(file, stamp)?;
        Ok(())
    }

    // Whether a file is known to be like a new one, and to contain what the tree's file does. Then that very
    // file is at its path, whatever folders lead there. A file of which nothing is known isn't looked at
    // here.
    fn is_known(&mut self, file: &SharedFile) -> io::Result<bool> {
        let path = file.as_file().path.as_str();
        if !self.known.has(path) {
            return Ok(false);
        }
        let place = self.own.look_place(path)?;
        let Some(found) = standing(self.files, place.as_str())? else {
            return Ok(false);
        };
        let is_known = self.fresh.is_file(&found, &file.as_file().entry)
            && self.known.are_equal(file.as_file(), &found);
        if is_known {
            self.known.note(file, Stamp::of(&found))?;
        }
        Ok(is_known)
    }

    // Reads what is at a place, and returns whether it contains what the file does.
    fn holds(
        &mut self,
        place: &str,
        file: &SharedFile,
        found: &Metadata,
        piece: &mut [u8],
    ) -> io::Result<bool> {
        let bytes = &file.as_file().entry.bytes;
        let Some(mut opened) = self.own.open(self.files, place, found)? else {
            return Ok(false);
        };
        let is_equal = opened.stamp.length() == bytes.len() as u64
            && begins_with(&mut opened.file, bytes.as_slice(), piece)?;
        if is_equal {
            self.known.note_read(file, opened.stamp)?;
        }
        Ok(is_equal)
    }

    // Gives the folder the mode and the owner of a new one.
    fn finish(self) -> Result<LaidFolder<'f>, Obstacle> {
        let Keeping {
            files,
            alloc,
            mut own,
            trash: _,
            fresh,
            known,
        } = self;
        let folder = own.folder();
        at_place(alloc, folder, make_like_new(files, &mut own, fresh))?;
        known.end_to_note(alloc);
        at_place(alloc, folder, LaidFolder::of(files, own))
    }
}

fn make_like_new<R: Files>(files: &R, own: &mut OwnFiles<'_>, fresh: Fresh) -> io::Result<()> {
    let place = own.inside("")?;
    let place = place.as_str();
    if !fresh.is_folder(&fs::symlink_metadata(files, place)?) {
        let (owner, group) = fresh.owner_and_group();
        lchown(files, place, Some(owner), Some(group))?;
    }
    fs::set_permissions(files, place, Permissions::from_mode(fresh.folder_mode()))
}
