//! Trees: the files of one moment.

ghost use Rattle.std.specs.Prelude.{◌≡◌, ◌↔◌, ◌<◌, [], length, is_some, slice_get, IfOk, OnOk, OnErr, IsTrue};
ghost use Rattle.std.specs.Option.{option_copied};
ghost use Rattle.hook_base.specs.Overlays.{row_found};
ghost use Rattle.hook_base.specs.Trees.{IsRising, entry_of, put_file, put_found, put_row, remove_file, apply_changes, changes_between};

use crate::live_rows::LiveRows;
use crate::row_order::merged_row;
use crate::row_place::{RowPlace, place_among, place_of};
use crate::rows::{copy_rows, put_row, remove_row};
use crate::{Change, Changes, File, FileEntry, OutOfMemory, RepoPath, SharedFile};
use std::alloc::{AllocError, Global};
use std::marker::Model;

/// The files of one moment, one for each path, in the order of their paths. A tree and its copies share one
/// base of rows. Each tree records which of them it still has, and the rows added since. So a copy of a copy
/// costs a state and an index for each base row and an address for each added one, but no path or contents.
/// Contracts see the list of the rows.
#[derive(Debug, Drop)]
pub struct Tree {
    base: LiveRows,
    // Rows whose paths have no row in `base`, in the order of their paths.
    added: Vec<SharedFile>,
}

impl Model for Tree {
    ghost use Rattle.std.specs.Prelude.{List};
    ghost use Rattle.hook_base.specs.declared.file.File.{File};
    ghost use Rattle.hook_base.specs.Overlays.{AreApart, put_rows};
    ghost use Rattle.hook_base.specs.Trees.{IsRising};

    ghost Value = { List File };

    ghost view = { λ tree. put_rows tree.added.items tree.base };

    ghost invariant = { λ tree. IsRising tree.added.items × IsRising tree.base × AreApart tree.added.items tree.base };
}

impl Tree {
    /// A tree without files.
    pub fn new(alloc: Global) -> Tree
        ensures { result ≡ [] }
    {
        Tree {
            base: LiveRows::new(alloc),
            added: Vec::new(alloc),
        }
    }

    /// The number of files.
    pub fn len(&self) -> usize
        ensures count { result ≡ length self.now }
        ensures rising { IsRising self.now }
    {
        self.base.len() + self.added.len()
    }

    /// Whether there are no files.
    pub fn is_empty(&self) -> bool
        ensures { IsTrue result ↔ (self.now ≡ []) }
    {
        self.len() == 0
    }

    /// The file at an index in the order of the paths, counted from 0.
    pub fn entry(&self, index: usize) -> &File
        requires { index < length self.now }
        ensures row { slice_get self.now index ≡ Some result.now }
        ensures rising { IsRising self.now }
    {
        self.shared(index).as_file()
    }

    /// The same file, to be shared with other trees.
    pub fn shared(&self, index: usize) -> &SharedFile
        requires { index < length self.now }
        ensures row { slice_get self.now index ≡ Some result.now }
        ensures rising { IsRising self.now }
    {
        merged_row(&self.base, self.added.as_slice(), index)
    }

    // The row of a path.
    fn find(&self, path: &RepoPath) -> Option<&SharedFile>
        ensures { option_copied result ≡ row_found path.now (entry_of path.now self.now) }
    {
        if let RowPlace::At(index) = place_of(self.added.as_slice(), path) {
            return Some(&self.added[index]);
        }
        match place_among(&self.base, path) {
            RowPlace::At(index) => Some(self.base.row(index)),
            RowPlace::Before(_) => None,
        }
    }

    /// The file at a path, or `None` if there is none.
    pub fn get(&self, path: &RepoPath) -> Option<&FileEntry>
        ensures { option_copied result ≡ entry_of path.now self.now }
    {
        match self.find(path) {
            Some(row) => Some(&row.as_file().entry),
            None => None,
        }
    }

    /// Replaces the file at a path, with its mode and bytes, or adds it. `OutOfMemory` if memory is refused,
    /// which leaves the tree as it was.
    pub fn put(&mut self, path: RepoPath, entry: FileEntry) -> Result<(), OutOfMemory>
        ensures put { OnOk result (self.new ≡ put_file path entry self.old) }
        ensures kept { OnErr result (self.new ≡ self.old) }
        ensures rising { IsRising self.new }
    {
        let row = SharedFile::of(*self.added.allocator(), File { path, entry })?;
        self.put_shared(row)
    }

    /// Replaces the file at the path of this one, or adds it, and shares this file from then on.
    /// `OutOfMemory` if memory is refused, which leaves the tree as it was.
    pub fn put_shared(&mut self, file: SharedFile) -> Result<(), OutOfMemory>
        ensures put { OnOk result (self.new ≡ put_row file self.old) }
        ensures kept { OnErr result (self.new ≡ self.old) }
        ensures rising { IsRising self.new }
    {
        match place_among(&self.base, &file.as_file().path) {
            RowPlace::At(index) => {
                self.base.replace(index, file);
                Ok(())
            }
            RowPlace::Before(_) => put_row(&mut self.added, file),
        }
    }

    /// Puts the file that another tree has at a path in place of the one here, or adds it. Both trees share
    /// it then. If the other tree has none there, nothing changes. `OutOfMemory` if memory is refused, which
    /// changes nothing either.
    pub fn put_from(&mut self, other: &Tree, path: &RepoPath) -> Result<(), OutOfMemory>
        ensures put { OnOk result (self.new ≡ put_found path.now (entry_of path.now other.now) self.old) }
        ensures kept { OnErr result (self.new ≡ self.old) }
        ensures rising { IsRising self.new }
    {
        // An invariant becomes known to the proof only where a field is used.
        let _ = &self.base;
        match other.find(path) {
            Some(row) => self.put_shared(row.clone()?),
            None => Ok(()),
        }
    }

    /// Removes the file at a path, and answers whether there was one.
    pub fn remove(&mut self, path: &RepoPath) -> bool
        ensures found { result ≡ is_some (entry_of path.now self.old) }
        ensures removed { self.new ≡ remove_file path.now self.old }
        ensures rising { IsRising self.new }
    {
        match place_among(&self.base, path) {
            RowPlace::At(index) => {
                self.base.remove(index);
                true
            }
            RowPlace::Before(_) => remove_row(&mut self.added, path),
        }
    }

    /// A copy that shares the files with this tree, or `OutOfMemory` if memory is refused.
    pub fn copy(&self) -> Result<Tree, OutOfMemory>
        ensures { IfOk result (λ copy. copy ≡ self.now) }
    {
        if self.base.len() == 0 {
            let base = LiveRows::of(copy_rows(&self.added)?)?;
            let added = Vec::new(*self.added.allocator());
            return Ok(Tree { base, added });
        }
        let base = self.base.copy()?;
        let added = copy_rows(&self.added)?;
        Ok(Tree { base, added })
    }

    /// What became of the files of this tree in `after`: their bytes if they differ, or that they are gone.
    /// Modes don't count, nor do files that only `after` has. `OutOfMemory` if memory is refused.
    pub fn changes_to(&self, after: &Tree) -> Result<Changes, OutOfMemory>
        ensures { IfOk result (λ changes. changes ≡ changes_between self.now after.now) }
    {
        Changes::between(*self.added.allocator(), self, after)
    }

    /// Applies changes, each to the result of the earlier ones. Modes stay, and a change of a path that the
    /// tree lacks has no effect. `OutOfMemory` if memory is refused, which leaves the tree as it was.
    pub fn apply(&mut self, changes: &[Change]) -> Result<(), OutOfMemory>
        ensures applied { OnOk result (self.new ≡ apply_changes changes.now self.old) }
        ensures kept { OnErr result (self.new ≡ self.old) }
        ensures rising { IsRising self.new }
    {
        let changes = changes.to_vec(*self.added.allocator())?;
        self.absorb(changes)
    }

    /// Applies changes as [`apply`](Tree::apply) does, but adopts their paths and bytes, so none is
    /// copied. `OutOfMemory` if memory is refused, which leaves the tree as it was; the changes are lost
    /// then.
    pub fn absorb(&mut self, changes: Vec<Change>) -> Result<(), OutOfMemory>
        ensures applied { OnOk result (self.new ≡ apply_changes changes.items self.old) }
        ensures kept { OnErr result (self.new ≡ self.old) }
        ensures rising { IsRising self.new }
    {
        let alloc = *self.added.allocator();
        if changes.is_empty() {
            return Ok(());
        }
        let base = self.as_base()?.after(changes)?;
        let added = Vec::new(alloc);
        *self = Tree { base, added };
        Ok(())
    }

    // All rows as base rows. If rows were added, a base is made of all of them.
    fn as_base(&self) -> Result<LiveRows, OutOfMemory>
        ensures { IfOk result (λ base. base ≡ self.now) }
    {
        if self.added.is_empty() {
            self.base.copy()
        } else {
            LiveRows::of(self.rows()?)
        }
    }

    // All rows in order.
    fn rows(&self) -> Result<Vec<SharedFile>, OutOfMemory>
        ensures { IfOk result (λ rows. (rows.items ≡ self.now) × IsRising self.now) }
    {
        let mut rows = Vec::new(*self.added.allocator());
        'rows: for index in 0..self.len() {
            rows.push(self.shared(index).clone()?)?;
        }
        Ok(rows)
    }
}

impl PartialEq for Tree {
    ghost use Rattle.std.specs.Prelude.{◌≡◌, ◌↔◌, IsTrue};
    ghost use Rattle.std.specs.Cmp.Lexicographic.{pointwise, pointwise_decides};
    ghost use Rattle.hook_base.specs.AlikeLemmas.{file_decides, per_from_decides};

    ghost eq = { pointwise ⟦<File as PartialEq>⟧.eq };

    ghost laws = { per_from_decides (pointwise ⟦<File as PartialEq>⟧.eq) (pointwise_decides file_decides) };

    fn eq(&self, other: &Self) -> bool
        ensures value { result ≡ pointwise ⟦<File as PartialEq>⟧.eq self.now other.now }
        ensures same { IsTrue result ↔ (self.now ≡ other.now) }
    {
        if self.len() != other.len() {
            return false;
        }
        'rows: for index in 0..self.len() {
            if self.entry(index) != other.entry(index) {
                return false;
            }
        }
        true
    }
}

impl Eq for Tree {
    ghost use Rattle.std.specs.Cmp.Lexicographic.{pointwise, pointwise_decides};
    ghost use Rattle.hook_base.specs.AlikeLemmas.{equiv_from_decides, file_decides};

    ghost laws = { equiv_from_decides (pointwise ⟦<File as PartialEq>⟧.eq) (pointwise_decides file_decides) };
}
