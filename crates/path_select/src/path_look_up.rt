//! Looks up the files of a tree at paths that come in rising order.

ghost use Rattle.std.specs.Prelude.{◌≡◌, None};
ghost use Rattle.std.specs.Option.{MatchOption, option_copied};
ghost use Rattle.hook_base.specs.Places.{IsAt};
ghost use Rattle.hook_base.specs.Trees.{entry_of};

use crate::index::index_of;
use hook_base::{FileEntry, RepoPath, Tree};
use std::cmp::Ordering;

// How many files are looked at one after another before the whole tree is searched by halves.
const NEAR: usize = 8;

/// What the tree has at the path, or `None` if it has nothing there. For paths that are asked for in their
/// order, `next` is the index of the first file that wasn't passed so far, and the search begins there.
pub(crate) fn entry_near<'t>(
    tree: &'t Tree,
    next: &mut usize,
    path: &RepoPath,
) -> Option<&'t FileEntry>
    ensures { option_copied result ≡ entry_of path.now tree.now }
{
    match index_near(tree, next, path) {
        Some(index) => Some(&tree.entry(index).entry),
        None => None,
    }
}

/// The same file's index in the order of the tree.
pub(crate) fn index_near(tree: &Tree, next: &mut usize, path: &RepoPath) -> Option<usize>
    ensures { MatchOption result (entry_of path.now tree.now ≡ None) (IsAt path.now tree.now) }
{
    'near: for _ in 0..NEAR {
        if *next >= tree.len() {
            break;
        }
        let index = *next;
        match tree.entry(index).path.cmp(path) {
            Ordering::Less => *next += 1,
            Ordering::Equal => {
                *next += 1;
                return Some(index);
            }
            Ordering::Greater => break,
        }
    }
    index_of(tree, path)
}
