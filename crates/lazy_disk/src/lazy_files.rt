//! A `LazyDisk` over each file of a database that was just opened.

ghost use Rattle.std.specs.Prelude.{◌≡◌, true, false, None, IsTrue};
ghost use Rattle.lazy_disk.specs.LazyDisk.{inner_of, is_dirty, cut_of};
ghost use Rattle.sqlite_std_file.specs.File.{IsFresh};

use crate::LazyDisk;
use sqlite_disk::{Disk, Files, Start};
use sqlite_std_file::FileFrom;

/// Wraps the files as `sqlite_std_file::open` gives them, which has synced both. A sync of either is passed
/// on only after the next write to it. A cut is passed on only before a write, a longer length or a sync.
pub fn settled_files<S: Start>(files: Files<FileFrom<S>>) -> Files<LazyDisk<FileFrom<S>>>
    requires fresh { IsFresh true files.log × IsFresh false files.db }
    ensures log { inner_of result.log ≡ files.log }
    ensures db { inner_of result.db ≡ files.db }
    ensures log_uncut { cut_of result.log ≡ None }
    ensures db_uncut { cut_of result.db ≡ None }
    ensures log_clean { is_dirty result.log ≡ false }
    ensures db_clean { is_dirty result.db ≡ false }
    ensures log_usable { IsTrue (⟦<LazyDisk<FileFrom<S>> as Disk>⟧.is_usable result.log) }
    ensures db_usable { IsTrue (⟦<LazyDisk<FileFrom<S>> as Disk>⟧.is_usable result.db) }
{
    Files {
        log: LazyDisk::over_synced(files.log),
        db: LazyDisk::over_synced(files.db),
    }
}
