//! The tags of a tree's files, kept from change to change.
//!
//! The contracts cite `specs/TreeTags.antt`.

ghost use Rattle.std.specs.Prelude.{◌≡◌, ◌<◌, length, slice_get, Some, IfOk, OnOk, OnErr};
ghost use Rattle.hook_base.specs.Trees.{apply_changes};
ghost use Rattle.file_tags.specs.TreeTags.{tags_of_tree};

use crate::Tags;
use crate::changed_paths::changed_paths;
use crate::shared_tags::SharedTags;
use crate::tree_tags::{tags_after, tags_of_tree};
use hook_base::{Change, OutOfMemory, Tree};
use std::alloc::Global;
use std::marker::Model;

/// The tags of the files of a tree, in its order, each kept until its file changes. Contracts see the list
/// of them.
#[derive(Debug, Drop)]
pub struct KeptTags {
    kept: Vec<SharedTags>,
}

impl Model for KeptTags {
    ghost use Rattle.std.specs.Prelude.{List, ℕ};

    ghost Value = { List (List (List ℕ)) };

    ghost view = { λ all. all.kept.items };
}

impl KeptTags {
    /// The tags of the files of a tree. `OutOfMemory` if memory is refused.
    pub fn of(alloc: Global, tree: &Tree) -> Result<KeptTags, OutOfMemory>
        ensures { IfOk result (λ kept. kept ≡ tags_of_tree tree.now) }
    {
        let kept = tags_of_tree(alloc, tree)?;
        Ok(KeptTags { kept })
    }

    /// The number of files whose tags are kept.
    pub fn len(&self) -> usize
        ensures { result ≡ length self.now }
    {
        self.kept.len()
    }

    /// The tags of the file at an index in the order of the tree, counted from 0. It takes no memory.
    pub fn get(&self, index: usize) -> &Tags
        requires { index < length self.now }
        ensures { slice_get self.now index ≡ Some result.now }
    {
        self.kept[index].as_tags()
    }

    /// Turns the tags of the tree `old` into those of the tree `new`, which these changes make of it. The
    /// tags of the files that the changes name are computed, and the others kept. `OutOfMemory` if memory
    /// is refused, which leaves the tags as they were.
    pub fn follow(&mut self, old: &Tree, new: &Tree, changes: &[Change]) -> Result<(), OutOfMemory>
        requires held { self.old ≡ tags_of_tree old.now }
        requires applied { new.now ≡ apply_changes changes.now old.now }
        ensures followed { OnOk result (self.new ≡ tags_of_tree new.now) }
        ensures kept { OnErr result (self.new ≡ self.old) }
    {
        if changes.is_empty() {
            return Ok(());
        }
        let alloc = *self.kept.allocator();
        let paths = changed_paths(alloc, changes)?;
        self.kept = tags_after(alloc, self.kept.as_slice(), old, new, paths.as_slice())?;
        Ok(())
    }
}
