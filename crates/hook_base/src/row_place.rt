//! Where a path is, or would be, among rows in rising order of their paths.

ghost use Rattle.std.specs.Prelude.{◌+◌, ◌<◌, ◌≤◌, length, IsTrue};
ghost use Rattle.hook_base.specs.Trees.{IsRising};
ghost use Rattle.hook_base.specs.Overlays.{From, UpTo};
ghost use Rattle.hook_base.specs.Places.{IsGap, IsPlace};

use crate::live_rows::LiveRows;
use crate::{RepoPath, SharedFile, Tree};
use std::cmp::Ordering;

/// Where a path is, or would be, in a list of rows.
#[derive(Clone, Copy)]
pub(crate) enum RowPlace {
    /// The row at this index has the path.
    At(usize),
    /// No row has the path, and it belongs before the row at this index, or at the end if there is no such
    /// row.
    Before(usize),
}

/// Finds the place of a path in rows that rise, by binary search.
pub(crate) fn place_of(rows: &[SharedFile], path: &RepoPath) -> RowPlace
    requires { IsRising rows.now }
    ensures { IsPlace path.now rows.now result }
{
    place_between(rows, 0, rows.len(), path)
}

// The same for a place that is known to be at or after `first`, and at or before `end`.
fn place_between(rows: &[SharedFile], first: usize, end: usize, path: &RepoPath) -> RowPlace
    requires rising { IsRising rows.now }
    requires order { first ≤ end }
    requires within { end ≤ length rows.now }
    requires behind { UpTo path.now rows.now first }
    requires before { From path.now rows.now end }
    ensures { IsPlace path.now rows.now result }
{
    let mut low = first;
    let mut high = end;
    'halves: while low < high {
        let middle = low + (high - low) / 2;
        match rows[middle].as_file().path.cmp(path) {
            Ordering::Less => low = middle + 1,
            Ordering::Equal => return RowPlace::At(middle),
            Ordering::Greater => high = middle,
        }
    }
    RowPlace::Before(low)
}

/// The same, searched from `near` on in steps that double. If paths rise and each is searched from the place
/// of the last, the time grows with the number of rows passed.
pub(crate) fn place_near(rows: &[SharedFile], near: usize, path: &RepoPath) -> RowPlace
    requires { IsRising rows.now }
    ensures { IsPlace path.now rows.now result }
{
    if near >= rows.len() {
        return place_for(rows, path);
    }
    match rows[near].as_file().path.cmp(path) {
        Ordering::Less => place_further(rows, near, path),
        Ordering::Equal => RowPlace::At(near),
        Ordering::Greater => place_back(rows, near, path),
    }
}

// The same for a path that comes after the row at `near`.
fn place_further(rows: &[SharedFile], near: usize, path: &RepoPath) -> RowPlace
    requires rising { IsRising rows.now }
    requires within { near < length rows.now }
    requires behind { UpTo path.now rows.now (near + 1) }
    ensures { IsPlace path.now rows.now result }
{
    let count = rows.len();
    let mut low = near + 1;
    let mut high = near + 1;
    'steps: while high < count {
        match rows[high].as_file().path.cmp(path) {
            Ordering::Less => low = high + 1,
            Ordering::Equal => return RowPlace::At(high),
            Ordering::Greater => return place_between(rows, low, high, path),
        }
        let step = high - near;
        high += step.min(count - high);
    }
    place_between(rows, low, count, path)
}

// The same for a path that comes before the row at `near`.
fn place_back(rows: &[SharedFile], near: usize, path: &RepoPath) -> RowPlace
    requires rising { IsRising rows.now }
    requires within { near < length rows.now }
    requires before { From path.now rows.now near }
    ensures { IsPlace path.now rows.now result }
{
    if near == 0 {
        return RowPlace::Before(near);
    }
    match rows[near - 1].as_file().path.cmp(path) {
        Ordering::Less => RowPlace::Before(near),
        Ordering::Equal => RowPlace::At(near - 1),
        Ordering::Greater => place_between(rows, 0, near - 1, path),
    }
}

// Whether a path comes after the paths of all rows. It answers false if there are no rows.
fn is_behind(rows: &[SharedFile], path: &RepoPath) -> bool
    requires { IsRising rows.now }
    ensures { IsTrue result → IsGap path.now rows.now (length rows.now) }
{
    let count = rows.len();
    if count == 0 {
        return false;
    }
    match rows[count - 1].as_file().path.cmp(path) {
        Ordering::Less => true,
        _ => false,
    }
}

/// The same, for a row that is to be inserted there. Rows are mostly inserted in order, so the end is tried
/// first.
pub(crate) fn place_for(rows: &[SharedFile], path: &RepoPath) -> RowPlace
    requires { IsRising rows.now }
    ensures { IsPlace path.now rows.now result }
{
    if is_behind(rows, path) {
        return RowPlace::Before(rows.len());
    }
    place_of(rows, path)
}

/// Finds the place of a path among the base rows that a tree still has, by binary search.
pub(crate) fn place_among(rows: &LiveRows, path: &RepoPath) -> RowPlace
    ensures place { IsPlace path.now rows.now result }
    ensures rising { IsRising rows.now }
{
    let mut low = 0;
    let mut high = rows.len();
    'halves: while low < high {
        let middle = low + (high - low) / 2;
        match rows.row(middle).as_file().path.cmp(path) {
            Ordering::Less => low = middle + 1,
            Ordering::Equal => return RowPlace::At(middle),
            Ordering::Greater => high = middle,
        }
    }
    RowPlace::Before(low)
}

/// Finds the place of a path among the files of a tree, by a walk from `first`. All files before that index
/// come before the path.
pub(crate) fn place_from(tree: &Tree, first: usize, path: &RepoPath) -> RowPlace
    requires { UpTo path.now tree.now first }
    ensures { IsPlace path.now tree.now result }
{
    let count = tree.len();
    'files: for index in first..count {
        match tree.entry(index).path.cmp(path) {
            Ordering::Less => {}
            Ordering::Equal => return RowPlace::At(index),
            Ordering::Greater => return RowPlace::Before(index),
        }
    }
    RowPlace::Before(count)
}
