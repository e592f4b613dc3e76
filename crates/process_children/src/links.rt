//! Links at the top of the scratch folder to what is installed next to the files of a tree.

use crate::own_files::OwnFiles;
use crate::search::belongs;
use hook_base::Tree;
use std::alloc::Global;
use std::fs::Files;
use std::os::unix::fs::symlink;
use std::{fs, io};

/// What a scratch folder is to hold.
#[derive(Clone, Copy, Debug)]
pub(crate) struct WantedFiles<'a> {
    /// The files.
    pub tree: &'a Tree,
    /// The places that links lead to. Each link has the last name of its place.
    pub links: &'a [String],
}

/// The last name of a place.
pub(crate) fn last_name(place: &str) -> &str {
    match place.rsplit_once('/') {
        Some((_, name)) => name,
        None => place,
    }
}

/// Makes a link with the last name of the place that it leads to, unless the tree has that name, or nothing
/// is at the place. What had the name in the folder is gone by now.
pub(crate) fn make_link<R: Files>(
    files: &R,
    alloc: Global,
    own: &mut OwnFiles<'_>,
    tree: &Tree,
    leads_to: &str,
) -> io::Result<()> {
    let name = last_name(leads_to);
    let is_of_tree = belongs(alloc, tree, "", name.as_bytes())?;
    if is_of_tree || fs::metadata(files, leads_to).is_err() {
        return Ok(());
    }
    let place = own.place(name)?;
    symlink(files, leads_to, place.as_str())
}
