//! The changes of a tree, in the order of their paths.

ghost use Rattle.std.specs.Prelude.{◌≡◌, ◌↔◌, ◌++◌, [], length, option_to_list, IfOk, IfErr, OnOk, IsTrue};
ghost use Rattle.std.specs.Option.{option_copied};
ghost use Rattle.hook_base.specs.Overlays.{UpTo};
ghost use Rattle.hook_base.specs.Trees.{IsRisingChanges, change_to, changes_between, entry_of};

use crate::row_place::{RowPlace, place_from};
use crate::{Change, File, FileEntry, OutOfMemory, RepoPath, Tree};
use std::alloc::{AllocError, Global};
use std::cmp::Ordering;
use std::marker::Model;

/// What became of the files of a tree: at most one change for each path, in the order of the paths. Contracts
/// see the list of the changes.
#[derive(Debug, Drop)]
pub struct Changes {
    changes: Vec<Change>,
}

impl Model for Changes {
    ghost use Rattle.std.specs.Prelude.{List};
    ghost use Rattle.hook_base.specs.declared.change.Change.{Change};

    ghost Value = { List Change };

    ghost use Rattle.hook_base.specs.Trees.{IsRisingChanges};

    ghost view = { λ all. all.changes.items };

    ghost invariant = { λ all. IsRisingChanges all.changes.items };
}

impl Changes {
    /// No changes.
    pub fn new(alloc: Global) -> Self
        ensures { result ≡ [] }
    {
        Changes {
            changes: Vec::new(alloc),
        }
    }

    /// What became of the files of `before` in `after`, or `OutOfMemory` if memory is refused.
    pub(crate) fn between(
        alloc: Global,
        before: &Tree,
        after: &Tree,
    ) -> Result<Changes, OutOfMemory>
        ensures { IfOk result (λ changes. changes ≡ changes_between before.now after.now) }
    {
        let mut changes = Vec::new(alloc);
        let mut passed = 0;
        'rows: for index in 0..before.len() {
            let row = before.entry(index);
            let reached = reach(after, passed, &row.path);
            passed = reached.index;
            add_change(&mut changes, row, reached.entry)?;
        }
        Ok(Changes { changes })
    }

    /// Accepts changes whose paths rise, each before the next. Other changes are returned as they were, also
    /// if they name a path twice. It allocates nothing.
    pub fn from_rising(changes: Vec<Change>) -> Result<Changes, Vec<Change>>
        ensures taken { IfOk result (λ made. (made ≡ changes.items) × IsRisingChanges changes.items) }
        ensures given_back { IfErr result (λ back. (back.items ≡ changes.items) × ¬ IsRisingChanges changes.items) }
    {
        if are_rising(changes.as_slice()) {
            Ok(Changes { changes })
        } else {
            Err(changes)
        }
    }

    /// The same changes, as a `Vec`. It allocates nothing.
    pub fn into_vec(self) -> Vec<Change>
        ensures { result.items ≡ self }
    {
        let Changes { changes } = self;
        changes
    }

    /// The number of changes.
    pub fn len(&self) -> usize
        ensures { result ≡ length self.now }
    {
        self.changes.len()
    }

    /// Whether there are none.
    pub fn is_empty(&self) -> bool
        ensures { IsTrue result ↔ (self.now ≡ []) }
    {
        self.changes.is_empty()
    }

    /// The changes, in the order of their paths.
    pub fn as_slice(&self) -> &[Change]
        ensures same { result.now ≡ self.now }
        ensures rising { IsRisingChanges self.now }
    {
        self.changes.as_slice()
    }
}

impl Clone for Changes {
    ghost use Rattle.std.specs.Prelude.{◌≡◌};

    ghost is_clone = { λ source made. made ≡ source };

    fn clone(&self) -> Result<Self, AllocError> {
        Ok(Changes {
            changes: self.changes.clone()?,
        })
    }
}

impl PartialEq for Changes {
    ghost use Rattle.std.specs.Prelude.{◌≡◌, ◌↔◌, IsTrue};
    ghost use Rattle.std.specs.Cmp.Lexicographic.{pointwise, pointwise_decides};
    ghost use Rattle.hook_base.specs.AlikeLemmas.{change_decides, per_from_decides};

    ghost eq = { pointwise ⟦<Change as PartialEq>⟧.eq };

    ghost laws = { per_from_decides (pointwise ⟦<Change as PartialEq>⟧.eq) (pointwise_decides change_decides) };

    fn eq(&self, other: &Self) -> bool
        ensures value { result ≡ pointwise ⟦<Change as PartialEq>⟧.eq self.now other.now }
        ensures same { IsTrue result ↔ (self.now ≡ other.now) }
    {
        self.changes == other.changes
    }
}

impl Eq for Changes {
    ghost use Rattle.std.specs.Cmp.Lexicographic.{pointwise, pointwise_decides};
    ghost use Rattle.hook_base.specs.AlikeLemmas.{equiv_from_decides, change_decides};

    ghost laws = { equiv_from_decides (pointwise ⟦<Change as PartialEq>⟧.eq) (pointwise_decides change_decides) };
}

// How far a walk along the files of a tree has come, and what it found at the path it looked for.
#[derive(Drop)]
struct Reached<'a> {
    index: usize,
    entry: Option<&'a FileEntry>,
}

// Walks on to a path from `passed`. All files before that index come before the path.
fn reach<'a>(after: &'a Tree, passed: usize, path: &RepoPath) -> Reached<'a>
    requires { UpTo path.now after.now passed }
    ensures entry { option_copied result.entry ≡ entry_of path.now after.now }
    ensures passed { UpTo path.now after.now result.index }
{
    match place_from(after, passed, path) {
        RowPlace::At(index) => Reached {
            index,
            entry: Some(&after.entry(index).entry),
        },
        RowPlace::Before(index) => Reached { index, entry: None },
    }
}

// Adds what became of a row to the changes, if anything did. `after` is what the later tree has at its path.
fn add_change(
    changes: &mut Vec<Change>,
    row: &File,
    after: Option<&FileEntry>,
) -> Result<(), OutOfMemory>
    ensures { OnOk result (changes.new.items ≡ changes.old.items ++ change_to row.now (option_copied after.entry)) }
{
    if let Some(change) = change_to(row, after)? {
        changes.push(change)?;
    }
    Ok(())
}

// What became of a row. `after` is what the later tree has at its path.
fn change_to(row: &File, after: Option<&FileEntry>) -> Result<Option<Change>, OutOfMemory>
    ensures { IfOk result (λ change. option_to_list change ≡ change_to row.now (option_copied after.entry)) }
{
    let now = match after {
        None => None,
        Some(entry) if entry.bytes == row.entry.bytes => return Ok(None),
        Some(entry) => Some(entry.bytes.clone()?),
    };
    let path = row.path.clone()?;
    Ok(Some(Change { path, now }))
}

// Whether each path comes before the next.
fn are_rising(changes: &[Change]) -> bool
    ensures { IsTrue result ↔ IsRisingChanges changes.now }
{
    'pairs: for index in 1..changes.len() {
        match changes[index - 1].path.cmp(&changes[index].path) {
            Ordering::Less => {}
            _ => return false,
        }
    }
    true
}
