//! The states of base rows, one for each row, and edits of them.

ghost use Rattle.std.specs.Prelude.{◌≡◌, ◌<◌, Some, length, set, IfOk, OnOk};
ghost use Rattle.hook_base.specs.Places.{IsAt};
ghost use Rattle.hook_base.specs.Trees.{IsRising, apply_change, apply_changes, rewrite_file};
ghost use Rattle.hook_base.specs.Overlays.{AreStatesOf, all_kept, live_indices, live_rows, standing_at};

use crate::row_place::{RowPlace, place_near};
use crate::row_state::RowState;
use crate::{Change, Content, File, FileEntry, OutOfMemory, RepoPath, SharedFile};

/// States that keep all rows, or `OutOfMemory` if memory is refused.
pub(crate) fn keep_all(rows: &Vec<SharedFile>) -> Result<Vec<RowState>, OutOfMemory>
    ensures { IfOk result (λ states. states.items ≡ all_kept rows.now.items) }
{
    let mut states = Vec::new(*rows.allocator());
    'rows: for _row in rows {
        states.push(RowState::Kept)?;
    }
    Ok(states)
}

/// A copy of the states, or `OutOfMemory` if memory is refused.
pub(crate) fn copy_states(states: &Vec<RowState>) -> Result<Vec<RowState>, OutOfMemory>
    ensures { IfOk result (λ copy. copy.items ≡ states.now.items) }
{
    Ok(states.clone()?)
}

/// The indices of the rows that remain, in order, or `OutOfMemory` if memory is refused.
pub(crate) fn indices_of(states: &Vec<RowState>) -> Result<Vec<usize>, OutOfMemory>
    ensures { IfOk result (λ live. live.items ≡ live_indices 0 states.now.items) }
{
    let mut live = Vec::new(*states.allocator());
    'states: for index in 0..states.len() {
        match states[index] {
            RowState::Gone => {}
            _ => live.push(index)?,
        }
    }
    Ok(live)
}

/// Sets one state.
pub(crate) fn set_state(states: &mut Vec<RowState>, index: usize, state: RowState)
    requires { index < length states.old.items }
    ensures { states.new.items ≡ set states.old.items index state }
{
    states[index] = state;
}

/// The row that the tree has for a base row; the base row itself if that is gone.
pub(crate) fn standing_row<'a>(
    base: &'a [SharedFile],
    states: &'a [RowState],
    index: usize,
) -> &'a SharedFile
    requires row { index < length base.now }
    requires state { index < length states.now }
    ensures { standing_at base.now states.now index ≡ Some result.now }
{
    match &states[index] {
        RowState::Replaced(row) => row,
        RowState::Kept | RowState::Gone => &base[index],
    }
}

// Gives other bytes to the row that the tree has for a base row, unless that is gone. A refusal leaves the
// states as they were.
fn rewrite_state(
    base: &[SharedFile],
    states: &mut Vec<RowState>,
    index: usize,
    path: RepoPath,
    bytes: Content,
) -> Result<(), OutOfMemory>
    requires rising { IsRising base.now }
    requires states { AreStatesOf base.now states.old.items }
    requires place { IsAt path base.now index }
    ensures rewritten { OnOk result (live_rows base.now states.new.items
        ≡ rewrite_file path bytes (live_rows base.now states.old.items)) }
    ensures states { AreStatesOf base.now states.new.items }
{
    if let RowState::Gone = states[index] {
        return Ok(());
    }
    let mode = standing_row(base, states.as_slice(), index)
        .as_file()
        .entry
        .mode;
    let entry = FileEntry { mode, bytes };
    let row = SharedFile::of(*states.allocator(), File { path, entry })?;
    set_state(states, index, RowState::Replaced(row));
    Ok(())
}

// Applies one change to the rows that remain. Its path is searched from `near` on, and the answer is the
// index where it was found or belongs. A refusal leaves the states as they were.
fn apply_to_state(
    base: &[SharedFile],
    states: &mut Vec<RowState>,
    near: usize,
    change: Change,
) -> Result<usize, OutOfMemory>
    requires rising { IsRising base.now }
    requires states { AreStatesOf base.now states.old.items }
    ensures applied { OnOk result (live_rows base.now states.new.items
        ≡ apply_change change (live_rows base.now states.old.items)) }
    ensures states { AreStatesOf base.now states.new.items }
{
    let Change { path, now } = change;
    let index = match place_near(base, near, &path) {
        RowPlace::At(index) => index,
        RowPlace::Before(index) => return Ok(index),
    };
    match now {
        Some(bytes) => {
            rewrite_state(base, states, index, path, bytes)?;
            Ok(index)
        }
        None => {
            set_state(states, index, RowState::Gone);
            Ok(index)
        }
    }
}

/// Applies changes to the rows that remain, each to the result of the earlier ones. After a refusal some may
/// have been applied.
pub(crate) fn apply_to_states(
    base: &[SharedFile],
    states: &mut Vec<RowState>,
    changes: Vec<Change>,
) -> Result<(), OutOfMemory>
    requires rising { IsRising base.now }
    requires states { AreStatesOf base.now states.old.items }
    ensures applied { OnOk result (live_rows base.now states.new.items
        ≡ apply_changes changes.items (live_rows base.now states.old.items)) }
    ensures states { OnOk result (AreStatesOf base.now states.new.items) }
{
    let mut near = 0;
    'changes: for change in changes {
        near = apply_to_state(base, states, near, change)?;
    }
    Ok(())
}
