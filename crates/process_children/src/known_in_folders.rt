//! What is known of the files in each folder of a run.

use crate::known_files::KnownFiles;
use std::alloc::Global;

/// What is known of the files in each folder of a run. The first one is that of the turns.
#[derive(Drop)]
pub(crate) struct KnownInFolders {
    /// In the first folder.
    pub first: KnownFiles,
    further: Vec<KnownFiles>,
}

impl KnownInFolders {
    /// In the first folder this is known, and there are no others.
    pub(crate) fn of_first(alloc: Global, first: KnownFiles) -> KnownInFolders {
        KnownInFolders {
            first,
            further: Vec::new(alloc),
        }
    }

    /// In the folder with this number. Children count that were started in the first one.
    pub(crate) fn of_folder(&mut self, at: usize) -> Option<&mut KnownFiles> {
        if at == 0 {
            return Some(&mut self.first);
        }
        let times = self.first.times();
        let known = self.further.get_mut(at.saturating_sub(1))?;
        known.set_times(times);
        Some(known)
    }

    /// Whether the folder with this number was laid, or begun to be.
    pub(crate) fn is_of_laid(&self, at: usize) -> bool {
        let known = if at == 0 {
            Some(&self.first)
        } else {
            self.further.get(at.saturating_sub(1))
        };
        known.is_some_and(|known| known.has_folder())
    }

    /// Adds a folder in which nothing is known. `None` if memory is refused.
    pub(crate) fn add(&mut self, alloc: Global) -> Option<()> {
        self.further.push(KnownFiles::new(alloc)).ok()
    }

    /// Removes the folder with this number, which isn't the first.
    pub(crate) fn remove(&mut self, at: usize) {
        let place = at.saturating_sub(1);
        if place < self.further.len() {
            let _removed = self.further.remove(place);
        }
    }
}
