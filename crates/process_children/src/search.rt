//! What belongs in a folder of a tree, found by binary search.

ghost use Rattle.std.specs.Prelude.{◌≤◌, length};

use hook_base::Tree;
use std::alloc::{AllocError, Global};

/// Whether a tree holds a name in a folder: as a file, or as a folder of files.
pub(crate) fn belongs(
    alloc: Global,
    tree: &Tree,
    folder: &str,
    name: &[u8],
) -> Result<bool, AllocError> {
    if tree.is_empty() {
        return Ok(false);
    }
    let mut path = Vec::new(alloc);
    if !folder.is_empty() {
        path.extend_from_slice(folder.as_bytes())?;
        path.push(b'/')?;
    }
    path.extend_from_slice(name)?;
    if first_from(tree, path.as_slice()) == Some(path.as_slice()) {
        return Ok(true);
    }
    path.push(b'/')?;
    Ok(first_from(tree, path.as_slice()).is_some_and(|found| found.starts_with(path.as_slice())))
}

// The first path of the tree that isn't less than these bytes.
fn first_from<'a>(tree: &'a Tree, bytes: &[u8]) -> Option<&'a [u8]> {
    let mut low = 0;
    let mut high = tree.len();
    'halves: while low < high {
        let middle = low + (high - low) / 2;
        if path_bytes(tree, middle) < Some(bytes) {
            low = middle + 1;
        } else {
            high = middle;
        }
    }
    path_bytes(tree, low)
}

fn path_bytes(tree: &Tree, index: usize) -> Option<&[u8]> {
    if index < tree.len() {
        Some(tree.entry(index).path.as_str().as_bytes())
    } else {
        None
    }
}
