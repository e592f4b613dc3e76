//! A tree next to a plain one: each call is made on both, and their answers are compared. A call that is
//! refused memory has to leave the tree as it was.

use crate::plain_tree::PlainTree;
use hook_base::{Change, File, FileEntry, OutOfMemory, RepoPath, SharedFile, Tree};
use std::alloc::Global;

/// A tree, and the plain one that it should be like.
#[derive(Drop)]
pub(crate) struct TreePair {
    alloc: Global,
    tree: Tree,
    plain: PlainTree,
}

impl TreePair {
    pub(crate) fn new(alloc: Global) -> TreePair {
        TreePair {
            alloc,
            tree: Tree::new(alloc),
            plain: PlainTree::new(alloc),
        }
    }

    pub(crate) fn len(&self) -> usize {
        self.plain.rows().len()
    }

    /// Whether both hold the same files, asked for one by one.
    pub(crate) fn is_same(&self) -> bool {
        let rows = self.plain.rows();
        if self.tree.len() != rows.len() || self.tree.is_empty() != rows.is_empty() {
            return false;
        }
        for index in 0..self.tree.len() {
            match rows.get(index) {
                Some(row) if self.tree.entry(index) == row.as_file() => {}
                _ => return false,
            }
        }
        true
    }

    pub(crate) fn put(&mut self, path: RepoPath, entry: FileEntry) -> Result<bool, OutOfMemory> {
        let file = File {
            path: path.clone()?,
            entry: entry.clone()?,
        };
        if let Err(refused) = self.tree.put(path, entry) {
            return self.left_by(refused);
        }
        self.plain.put(SharedFile::of(self.alloc, file)?)?;
        Ok(true)
    }

    pub(crate) fn put_from(
        &mut self,
        other: &TreePair,
        path: &RepoPath,
    ) -> Result<bool, OutOfMemory> {
        if let Err(refused) = self.tree.put_from(&other.tree, path) {
            return self.left_by(refused);
        }
        self.plain.put_from(&other.plain, path)?;
        Ok(true)
    }

    /// Takes the file that the other has at an index, if there is one.
    pub(crate) fn share(&mut self, other: &TreePair, index: usize) -> Result<bool, OutOfMemory> {
        if index < other.tree.len() {
            let file = other.tree.shared(index).clone()?;
            if let Err(refused) = self.tree.put_shared(file.clone()?) {
                return self.left_by(refused);
            }
            self.plain.put(file)?;
        }
        Ok(true)
    }

    /// The result of a call for which the tree was refused memory, and which wasn't made on the plain one.
    /// It is the refusal if both are still alike, and `false` if the tree was changed.
    fn left_by(&self, refused: OutOfMemory) -> Result<bool, OutOfMemory> {
        if self.is_same() {
            Err(refused)
        } else {
            Ok(false)
        }
    }

    /// Whether both agree on what was removed.
    pub(crate) fn remove(&mut self, path: &RepoPath) -> bool {
        self.plain.remove(path) == self.tree.remove(path)
    }

    /// Whether both have the same file at a path.
    pub(crate) fn get(&self, path: &RepoPath) -> bool {
        match (self.plain.find(path), self.tree.get(path)) {
            (Some(row), Some(entry)) => row.as_file().entry == *entry,
            (None, None) => true,
            _ => false,
        }
    }

    pub(crate) fn copy(&self) -> Result<TreePair, OutOfMemory> {
        Ok(TreePair {
            alloc: self.alloc,
            tree: self.tree.copy()?,
            plain: self.plain.copy()?,
        })
    }

    pub(crate) fn apply(&mut self, changes: &[Change]) -> Result<bool, OutOfMemory> {
        if let Err(refused) = self.tree.apply(changes) {
            return self.left_by(refused);
        }
        self.plain.apply(changes)?;
        Ok(true)
    }

    pub(crate) fn absorb(&mut self, changes: Vec<Change>) -> Result<bool, OutOfMemory> {
        let the_same = changes.clone()?;
        if let Err(refused) = self.tree.absorb(changes) {
            return self.left_by(refused);
        }
        self.plain.apply(the_same.as_slice())?;
        Ok(true)
    }

    /// Whether both agree on what became of their files, and on whether they are equal.
    pub(crate) fn changes_to(&self, after: &TreePair) -> Result<bool, OutOfMemory> {
        let changes = self.tree.changes_to(&after.tree)?;
        let are_same = changes.as_slice() == self.plain.changes_to(&after.plain)?.as_slice();
        let are_equal = self.plain.rows() == after.plain.rows();
        Ok(are_same && (self.tree == after.tree) == are_equal)
    }
}
