//! A tree that is a plain list of its files. The trees of `hook_base` are compared with it.

use hook_base::{Change, File, FileEntry, OutOfMemory, RepoPath, SharedFile};
use std::alloc::Global;

/// The files of one moment, one per path, in the order of their paths.
#[derive(Drop)]
pub(crate) struct PlainTree {
    alloc: Global,
    rows: Vec<SharedFile>,
}

impl PlainTree {
    pub(crate) fn new(alloc: Global) -> PlainTree {
        PlainTree {
            alloc,
            rows: Vec::new(alloc),
        }
    }

    pub(crate) fn rows(&self) -> &[SharedFile] {
        self.rows.as_slice()
    }

    /// The index of the first row whose path doesn't come before this one.
    fn place(&self, path: &RepoPath) -> usize {
        for index in 0..self.rows.len() {
            if self.rows[index].as_file().path >= *path {
                return index;
            }
        }
        self.rows.len()
    }

    /// The index of the row of a path.
    fn index_of(&self, path: &RepoPath) -> Option<usize> {
        let place = self.place(path);
        if place < self.rows.len() && self.rows[place].as_file().path == *path {
            Some(place)
        } else {
            None
        }
    }

    /// The row of a path.
    pub(crate) fn find(&self, path: &RepoPath) -> Option<&SharedFile> {
        let index = self.index_of(path)?;
        self.rows.get(index)
    }

    pub(crate) fn put(&mut self, row: SharedFile) -> Result<(), OutOfMemory> {
        let place = self.place(&row.as_file().path);
        if place >= self.rows.len() {
            self.rows.push(row)?;
        } else if self.rows[place].as_file().path == row.as_file().path {
            self.rows[place] = row;
        } else {
            self.rows.insert(place, row)?;
        }
        Ok(())
    }

    pub(crate) fn put_from(
        &mut self,
        other: &PlainTree,
        path: &RepoPath,
    ) -> Result<(), OutOfMemory> {
        match other.find(path) {
            Some(row) => self.put(row.clone()?),
            None => Ok(()),
        }
    }

    /// Removes the row of a path, and returns whether there was one.
    pub(crate) fn remove(&mut self, path: &RepoPath) -> bool {
        match self.index_of(path) {
            Some(index) if index < self.rows.len() => {
                self.rows.remove(index);
                true
            }
            _ => false,
        }
    }

    pub(crate) fn copy(&self) -> Result<PlainTree, OutOfMemory> {
        let rows = self.rows.clone()?;
        Ok(PlainTree {
            alloc: self.alloc,
            rows,
        })
    }

    /// What became of each row in `after`: other bytes, or gone.
    pub(crate) fn changes_to(&self, after: &PlainTree) -> Result<Vec<Change>, OutOfMemory> {
        let mut changes = Vec::new(self.alloc);
        for row in &self.rows {
            let file = row.as_file();
            let there = after.find(&file.path);
            if let Some(change) = change_of(file, there)? {
                changes.push(change)?;
            }
        }
        Ok(changes)
    }

    pub(crate) fn apply(&mut self, changes: &[Change]) -> Result<(), OutOfMemory> {
        for change in changes {
            self.apply_one(change)?;
        }
        Ok(())
    }

    fn apply_one(&mut self, change: &Change) -> Result<(), OutOfMemory> {
        let Some(bytes) = &change.now else {
            self.remove(&change.path);
            return Ok(());
        };
        let Some(row) = self.find(&change.path) else {
            return Ok(());
        };
        let entry = FileEntry {
            mode: row.as_file().entry.mode,
            bytes: bytes.clone()?,
        };
        let path = change.path.clone()?;
        self.put(SharedFile::of(self.alloc, File { path, entry })?)
    }
}

fn change_of(file: &File, after: Option<&SharedFile>) -> Result<Option<Change>, OutOfMemory> {
    let now = match after {
        None => None,
        Some(row) => {
            let bytes = &row.as_file().entry.bytes;
            if *bytes == file.entry.bytes {
                return Ok(None);
            }
            Some(bytes.clone()?)
        }
    };
    let path = file.path.clone()?;
    Ok(Some(Change { path, now }))
}
