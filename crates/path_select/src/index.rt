//! The index of a path's file in a tree.

ghost use Rattle.std.specs.Prelude.{◌≡◌, None};
ghost use Rattle.std.specs.Option.{MatchOption};
ghost use Rattle.hook_base.specs.Places.{IsAt};
ghost use Rattle.hook_base.specs.Trees.{entry_of};

use hook_base::{RepoPath, Tree};
use std::cmp::Ordering;

/// The index of the file at the path in the order of the tree, or `None` if the tree has no such file. A
/// binary search.
pub(crate) fn index_of(tree: &Tree, path: &RepoPath) -> Option<usize>
    ensures { MatchOption result (entry_of path.now tree.now ≡ None) (IsAt path.now tree.now) }
{
    let mut low = 0;
    let mut high = tree.len();
    'halves: while low < high {
        let middle = low + (high - low) / 2;
        match tree.entry(middle).path.cmp(path) {
            Ordering::Less => low = middle + 1,
            Ordering::Equal => return Some(middle),
            Ordering::Greater => high = middle,
        }
    }
    None
}
