//! Files that trees share.

ghost use Rattle.std.specs.Prelude.{◌≡◌, IfOk};

use crate::{File, OutOfMemory};
use std::alloc::{AllocError, Global};
use std::marker::Model;
use std::rc::Rc;

/// A file, shared by the trees that have it. A copy allocates nothing, and a list of files is copied at the
/// cost of their addresses. Contracts see the file.
#[derive(Debug, Drop)]
pub struct SharedFile {
    file: Rc<File>,
}

impl Model for SharedFile {
    ghost use Rattle.hook_base.specs.declared.file.File.{File};
    ghost use Rattle.hook_base.specs.SharedFiles.{file_code};

    ghost Value = { File };

    ghost coded = { file_code };

    ghost view = { λ shared. shared.file.value };
}

impl SharedFile {
    /// Makes the file shareable. `OutOfMemory` if memory is refused.
    pub fn of(alloc: Global, file: File) -> Result<SharedFile, OutOfMemory>
        ensures { IfOk result (λ shared. shared ≡ file) }
    {
        let file = Rc::new(alloc, file)?;
        Ok(SharedFile { file })
    }

    /// The file.
    pub fn as_file(&self) -> &File
        ensures { result.now ≡ self.now }
    {
        self.file.as_ref()
    }
}

// The same file, shared with one more owner. `AllocError` if it has too many owners to be counted.
impl Clone for SharedFile {
    ghost use Rattle.std.specs.Prelude.{◌≡◌};

    ghost is_clone = { λ source made. made ≡ source };

    fn clone(&self) -> Result<Self, AllocError> {
        let file = self.file.clone()?;
        Ok(SharedFile { file })
    }
}

impl PartialEq for SharedFile {
    ghost use Rattle.hook_base.specs.AlikeLemmas.{file_decides, per_from_decides};

    ghost eq = { ⟦<File as PartialEq>⟧.eq };

    ghost laws = { per_from_decides ⟦<File as PartialEq>⟧.eq file_decides };

    fn eq(&self, other: &Self) -> bool {
        self.as_file() == other.as_file()
    }
}
