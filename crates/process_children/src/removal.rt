//! Removes a scratch folder, even if a process goes on writing in it.

use crate::disk_paths::standing;
use crate::kept_folder::empty;
use std::alloc::Global;
use std::fs::Files;
use std::{fs, io};

// How often it is tried: a process that works in the folder may put something there just before it is
// removed.
const MOST_TRIES: u32 = 1_000;

/// Removes the folder of a run that was stopped, whose child may still work there. First the folder gets
/// another name. So what such a child writes into its working directory doesn't get into the folder that is
/// made next. An error if it can't be removed.
pub(crate) fn put_away<R: Files>(files: &R, alloc: Global, folder: &str) -> io::Result<()> {
    let old = format!(in alloc; "{folder}.old")?;
    let old = old.as_str();
    // A run may have been stopped while it did this.
    remove(files, alloc, old)?;
    match standing(files, folder)? {
        Some(found) if found.is_dir() => {
            fs::rename(files, folder, old)?;
            remove(files, alloc, old)
        }
        _ => Ok(()),
    }
}

/// Removes what is at a place, a folder with all that is in it. A link is removed itself, and not followed.
pub(crate) fn remove<R: Files>(files: &R, alloc: Global, place: &str) -> io::Result<()> {
    match standing(files, place)? {
        None => Ok(()),
        Some(found) if found.is_dir() => remove_folder(files, alloc, place),
        Some(_) => fs::remove_file(files, place),
    }
}

fn remove_folder<R: Files>(files: &R, alloc: Global, folder: &str) -> io::Result<()> {
    for _ in 1..MOST_TRIES {
        if try_to_remove(files, alloc, folder).is_ok() {
            return Ok(());
        }
    }
    try_to_remove(files, alloc, folder)
}

fn try_to_remove<R: Files>(files: &R, alloc: Global, folder: &str) -> io::Result<()> {
    match empty(files, alloc, folder) {
        Ok(()) => fs::remove_dir(files, folder),
        Err(trouble) => Err(trouble.into_error()),
    }
}
