//! The index in a tree of the file whose path is given as text.

ghost use Rattle.std.specs.Prelude.{◌≡◌, ◌<◌, None, Some, MatchOption, length, map, slice_get};
ghost use Rattle.hook_base.specs.Trees.{IsRising, entry_of, path_of};

use hook_base::Tree;
use std::cmp::Ordering;

/// The index of the file at a path, or `None` if there is none. The file at the index `near` is tried first,
/// so looking up one path after another needs no search.
pub(crate) fn path_index(tree: &Tree, path: &str, near: usize) -> Option<usize>
    ensures place { MatchOption result (entry_of path.now tree.now ≡ None)
        (λ index. (index < length tree.now) × (slice_get (map path_of tree.now) index ≡ Some path.now)) }
    ensures rising { IsRising tree.now }
{
    if near < tree.len() && tree.entry(near).path.as_str() == path {
        return Some(near);
    }
    halves_index(tree, path)
}

// The same by binary search, since the paths rise.
fn halves_index(tree: &Tree, path: &str) -> Option<usize>
    ensures place { MatchOption result (entry_of path.now tree.now ≡ None)
        (λ index. (index < length tree.now) × (slice_get (map path_of tree.now) index ≡ Some path.now)) }
    ensures rising { IsRising tree.now }
{
    let mut low = 0;
    let mut high = tree.len();
    'halves: while low < high {
        let middle = low + (high - low) / 2;
        match tree.entry(middle).path.as_str().cmp(path) {
            Ordering::Less => low = middle + 1,
            Ordering::Equal => return Some(middle),
            Ordering::Greater => high = middle,
        }
    }
    None
}
