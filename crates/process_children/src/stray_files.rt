//! What lies in the scratch folder and doesn't belong there.

use crate::disk_paths::place_in;
use crate::obstacle::{Obstacle, at_place};
use crate::search::belongs;
use crate::trash::Trash;
use hook_base::Tree;
use std::alloc::{AllocError, Global};
use std::fs;
use std::fs::Files;
use std::io::Read;

/// The folder by which the scratch folder looks like the top of a Git working tree.
pub(crate) const GIT_FOLDER: &str = ".git";

/// A folder that is to hold what a tree says, and nothing else.
#[derive(Debug, Drop)]
pub(crate) struct Belonging<'a> {
    /// The tree.
    pub tree: &'a Tree,
    /// The folder's path in the tree, empty for the tree's own.
    pub folder: &'a str,
    /// Its place. A slash and a name lead from there to what is in it.
    pub place: &'a str,
    /// The folder's place, as messages show it.
    pub shown: &'a str,
    /// What else may be there.
    pub besides: Besides,
}

/// What may be in a folder in addition to the files of a tree.
#[derive(Clone, Copy, Debug, PartialEq, Eq)]
pub(crate) enum Besides {
    /// Nothing.
    Nothing,
    /// The trash.
    Trash,
    /// The trash and the folder `.git`.
    TrashAndGit,
}

impl Besides {
    fn has(self, name: &[u8], trash: &Trash) -> bool {
        match self {
            Besides::Nothing => false,
            Besides::Trash => name == trash.name(),
            Besides::TrashAndGit => name == trash.name() || name == GIT_FOLDER.as_bytes(),
        }
    }
}

/// Removes what doesn't belong in a folder, whatever its name is.
pub(crate) fn take_strays<R: Files>(
    files: &R,
    alloc: Global,
    trash: &mut Trash,
    wanted: &Belonging<'_>,
) -> Result<(), Obstacle> {
    let mut folder = at_place(alloc, wanted.shown, files.open_dir(wanted.place))?;
    let mut names = [0u8; 8_192];
    for _ in 0..u64::MAX {
        let count = match folder.read(&mut names) {
            Ok(count) => count,
            Err(e) => return Err(Obstacle::at(alloc, wanted.shown, e)),
        };
        if count == 0 {
            break;
        }
        take_strays_of(alloc, trash, wanted, &names[..count])?;
    }
    Ok(())
}

// Each name ends with a NUL byte.
fn take_strays_of(
    alloc: Global,
    trash: &mut Trash,
    wanted: &Belonging<'_>,
    names: &[u8],
) -> Result<(), Obstacle> {
    for name in names.split(|byte| *byte == 0) {
        let is_folder = name.is_empty() || name == b".".as_slice() || name == b"..".as_slice();
        let is_beside = wanted.besides.has(name, trash);
        if !is_folder && !is_beside && !belongs(alloc, wanted.tree, wanted.folder, name)? {
            take_stray(alloc, trash, wanted, name)?;
        }
    }
    Ok(())
}

fn take_stray(
    alloc: Global,
    trash: &mut Trash,
    wanted: &Belonging<'_>,
    name: &[u8],
) -> Result<(), Obstacle> {
    match trash.take(joined(alloc, wanted.place, name)?.as_slice()) {
        Ok(()) => Ok(()),
        Err(e) => {
            // A name that isn't UTF-8 is shown by its folder alone.
            let name = str::from_utf8(name).unwrap_or("");
            let shown = place_in(alloc, wanted.shown, name)?;
            Err(Obstacle::at(alloc, shown.as_str(), e))
        }
    }
}

// The place of a name in a folder.
fn joined(alloc: Global, folder: &str, name: &[u8]) -> Result<Vec<u8>, AllocError> {
    let mut place = Vec::new(alloc);
    place.extend_from_slice(folder.as_bytes())?;
    place.push(b'/')?;
    place.extend_from_slice(name)?;
    Ok(place)
}

/// Removes the trash with all that was moved there. The folders within a folder are moved next to it before
/// it is removed.
pub(crate) fn empty_trash<R: Files>(
    files: &R,
    alloc: Global,
    trash: &mut Trash,
) -> Result<(), Obstacle> {
    let nothing = Tree::new(alloc);
    for _ in 0..u64::MAX {
        let Some(folder) = trash.next_folder()? else {
            break;
        };
        let wanted = Belonging {
            tree: &nothing,
            folder: "",
            place: folder.place.as_str(),
            shown: folder.shown.as_str(),
            besides: Besides::Nothing,
        };
        take_strays(files, alloc, trash, &wanted)?;
        let removed = fs::remove_dir(files, folder.place.as_str());
        at_place(alloc, folder.shown.as_str(), removed)?;
    }
    at_place(alloc, trash.shown(), fs::remove_dir(files, trash.place()))
}
