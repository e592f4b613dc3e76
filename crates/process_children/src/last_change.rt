//! When something in the scratch folder was last changed.

use crate::folders::{folder_at, shared_bytes};
use crate::own_files::OwnFiles;
use crate::stamp::Moment;
use crate::stray_files::GIT_FOLDER;
use hook_base::Tree;
use std::fs::Files;
use std::{fs, io};

/// When something in the folder was last changed: a file of the tree, a folder on the way to one, `.git` or
/// the folder itself. A file that is made or removed changes the folder that it is in. An error if one of
/// them isn't there.
pub(crate) fn last_change<R: Files>(
    files: &R,
    own: &mut OwnFiles<'_>,
    tree: &Tree,
) -> io::Result<Moment> {
    let top = own.inside("")?;
    let found = fs::symlink_metadata(files, top.as_str())?;
    let mut last = Moment::of_change(&found).or_later(change_at(files, own, GIT_FOLDER)?);
    let mut before = "";
    for index in 0..tree.len() {
        let path = tree.entry(index).path.as_str();
        for at in shared_bytes(before, path)..path.len() {
            if let Some(folder) = folder_at(path, at) {
                last = last.or_later(change_at(files, own, folder)?);
            }
        }
        last = last.or_later(change_at(files, own, path)?);
        before = path;
    }
    Ok(last)
}

fn change_at<R: Files>(files: &R, own: &mut OwnFiles<'_>, path: &str) -> io::Result<Moment> {
    let place = own.look_place(path)?;
    let found = fs::symlink_metadata(files, place.as_str())?;
    Ok(Moment::of_change(&found))
}
