//! The rows of a tree in order: the base rows that remain, and the added rows.

ghost use Rattle.std.specs.Prelude.{◌≡◌, ◌+◌, ◌<◌, Some, length, slice_get};
ghost use Rattle.hook_base.specs.Overlays.{AreApart, IsSplit, put_rows};
ghost use Rattle.hook_base.specs.Trees.{IsRising};

use crate::SharedFile;
use crate::live_rows::LiveRows;
use std::cmp::Ordering;

// How many added rows come before the row at an index of the tree. It is a binary search: an added row does
// if it comes before the base row that would otherwise be the last one before the index.
fn added_before(base: &LiveRows, added: &[SharedFile], index: usize) -> usize
    requires rising { IsRising added.now }
    requires apart { AreApart added.now base.now }
    requires within { index < length added.now + length base.now }
    ensures { IsSplit added.now base.now index result }
{
    let mut low = index.saturating_sub(base.len());
    let mut high = added.len().min(index);
    'halves: while low < high {
        let middle = low + (high - low) / 2;
        let last = base.row(index - middle - 1);
        match added[middle].as_file().path.cmp(&last.as_file().path) {
            Ordering::Less => low = middle + 1,
            _ => high = middle,
        }
    }
    low
}

/// The row at an index among the remaining base rows and the added rows together, in the order of their
/// paths.
pub(crate) fn merged_row<'a>(
    base: &'a LiveRows,
    added: &'a [SharedFile],
    index: usize,
) -> &'a SharedFile
    requires rising { IsRising added.now }
    requires apart { AreApart added.now base.now }
    requires within { index < length added.now + length base.now }
    ensures { slice_get (put_rows added.now base.now) index ≡ Some result.now }
{
    let before = added_before(base, added, index);
    let rest = index - before;
    if before == added.len() {
        return base.row(rest);
    }
    if rest == base.len() {
        return &added[before];
    }
    let next = &added[before];
    let standing = base.row(rest);
    match next.as_file().path.cmp(&standing.as_file().path) {
        Ordering::Less => next,
        _ => standing,
    }
}
