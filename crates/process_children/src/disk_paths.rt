//! The places of files and folders on the disk.

use std::alloc::{AllocError, Global};
use std::fs::{Files, Metadata};
use std::io::ErrorKind;
use std::path::{AsPath, Path};
use std::{fs, io};

/// The place of a path below a folder.
pub(crate) fn place_in(alloc: Global, folder: &str, path: &str) -> Result<String, AllocError> {
    let mut place = String::from_str(alloc, folder)?;
    if !path.is_empty() {
        place.push('/')?;
        place.push_str(path)?;
    }
    Ok(place)
}

/// What is at a place, or `None` if nothing is. Of a link it says that it is one; the link isn't followed.
pub(crate) fn standing(files: &impl Files, place: &str) -> io::Result<Option<Metadata>> {
    match fs::symlink_metadata(files, place) {
        Ok(found) => Ok(Some(found)),
        Err(e) if e.kind() == ErrorKind::NotFound => Ok(None),
        Err(e) if e.kind() == ErrorKind::NotADirectory => Ok(None),
        Err(e) => Err(e),
    }
}

/// An error if a link is at a place.
pub(crate) fn refuse_link(files: &impl Files, place: &str) -> io::Result<()> {
    match standing(files, place)? {
        Some(found) if found.is_symlink() => Err(link_refused()),
        _ => Ok(()),
    }
}

/// What is at the place of the scratch folder, or `None` if nothing is. An error if that, or its parent
/// folder, is a link.
pub(crate) fn standing_scratch(files: &impl Files, folder: &str) -> io::Result<Option<Metadata>> {
    if let Some(parent) = Path::new(folder).parent() {
        refuse_link(files, parent.path_text())?;
    }
    match standing(files, folder)? {
        Some(found) if found.is_symlink() => Err(link_refused()),
        found => Ok(found),
    }
}

/// The error for a link where none is followed.
pub(crate) fn link_refused() -> io::Error {
    io::Error::new(ErrorKind::FilesystemLoop, "a link stands there")
}
