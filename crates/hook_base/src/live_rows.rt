//! The base rows that one tree still has.

ghost use Rattle.std.specs.Prelude.{◌≡◌, ◌<◌, ◌^◌, [], length, slice_get, get_or, set, remove, IfOk};
ghost use Rattle.hook_base.specs.Trees.{IsRising, apply_changes};

use crate::base_rows::Base;
use crate::row_state::RowState;
use crate::row_states::{
    apply_to_states, copy_states, indices_of, keep_all, set_state, standing_row,
};
use crate::{Change, OutOfMemory, SharedFile};
use std::alloc::Global;
use std::marker::Model;

/// The rows of a base that one tree still has, some replaced by other rows of the same path. A copy shares
/// the base. Contracts see the list of these rows.
#[derive(Debug, Drop)]
pub(crate) struct LiveRows {
    base: Base,
    // One for each row of the base.
    states: Vec<RowState>,
    // The indices in the base of the rows that remain, so that the row at an index is found without a walk.
    live: Vec<usize>,
}

impl Model for LiveRows {
    ghost use Rattle.std.specs.Prelude.{◌≡◌, List};
    ghost use Rattle.hook_base.specs.declared.file.File.{File};
    ghost use Rattle.hook_base.specs.Overlays.{AreStatesOf, live_indices, live_rows};
    ghost use Rattle.hook_base.specs.Trees.{IsRising};

    ghost Value = { List File };

    ghost view = { λ rows. live_rows rows.base rows.states.items };

    ghost invariant = { λ rows. IsRising rows.base × AreStatesOf rows.base rows.states.items
        × (rows.live.items ≡ live_indices 0 rows.states.items) };
}

impl LiveRows {
    /// No rows, over an empty base.
    pub(crate) fn new(alloc: Global) -> LiveRows
        ensures { result ≡ [] }
    {
        LiveRows {
            base: Base::none(),
            states: Vec::new(alloc),
            live: Vec::new(alloc),
        }
    }

    /// These rows as a base, none of them removed. `OutOfMemory` if memory is refused.
    pub(crate) fn of(rows: Vec<SharedFile>) -> Result<LiveRows, OutOfMemory>
        requires { IsRising rows.items }
        ensures { IfOk result (λ made. made ≡ rows.items) }
    {
        let states = keep_all(&rows)?;
        let live = indices_of(&states)?;
        let base = Base::of(*rows.allocator(), rows)?;
        Ok(LiveRows { base, states, live })
    }

    /// The number of rows.
    pub(crate) fn len(&self) -> usize
        ensures count { result ≡ length self.now }
        ensures bound { result < 2 ^ 63 }
        ensures rising { IsRising self.now }
    {
        self.live.len()
    }

    /// The row at an index in the order of the paths, counted from 0.
    pub(crate) fn row(&self, index: usize) -> &SharedFile
        requires { index < length self.now }
        ensures row { slice_get self.now index ≡ Some result.now }
        ensures rising { IsRising self.now }
    {
        standing_row(
            self.base.as_slice(),
            self.states.as_slice(),
            self.live[index],
        )
    }

    /// Replaces the row at an index by another of the same path. It allocates nothing.
    pub(crate) fn replace(&mut self, index: usize, row: SharedFile)
        requires within { index < length self.old }
        requires path { row.path ≡ (get_or self.old index row).path }
        ensures { self.new ≡ set self.old index row }
    {
        set_state(&mut self.states, self.live[index], RowState::Replaced(row));
    }

    /// Removes the row at an index. It allocates nothing.
    pub(crate) fn remove(&mut self, index: usize)
        requires { index < length self.old }
        ensures { self.new ≡ remove self.old index }
    {
        let gone = self.live.remove(index);
        set_state(&mut self.states, gone, RowState::Gone);
    }

    /// The same rows over the same base, or `OutOfMemory` if memory is refused.
    pub(crate) fn copy(&self) -> Result<LiveRows, OutOfMemory>
        ensures { IfOk result (λ copy. copy ≡ self.now) }
    {
        let base = self.base.share()?;
        let states = copy_states(&self.states)?;
        let live = self.live.clone()?;
        Ok(LiveRows { base, states, live })
    }

    /// The rows after the changes, each applied to the result of the earlier ones. `OutOfMemory` if memory is
    /// refused.
    pub(crate) fn after(self, changes: Vec<Change>) -> Result<LiveRows, OutOfMemory>
        ensures { IfOk result (λ made. made ≡ apply_changes changes.items self) }
    {
        let LiveRows {
            base,
            states,
            live: _,
        } = self;
        let mut states = states;
        apply_to_states(base.as_slice(), &mut states, changes)?;
        let live = indices_of(&states)?;
        Ok(LiveRows { base, states, live })
    }
}
