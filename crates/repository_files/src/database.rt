//! The database of the store: how it is opened under the lock, and what is left of its files afterwards.

ghost use Rattle.std.specs.Prelude.{◌≡◌, false, IfErr, IfOk};
ghost use Rattle.repository_files.specs.RepositoryFaults.{IsFaultOfDatabase, IsFaultOfOpening, before_of};

use crate::bare_log;
use crate::connect::{DatabaseFile, connect};
use crate::folder::{FileState, Lock, STORE, bytes_at, found_at};
use crate::repository_fault::RepositoryFault;
use lazy_disk::LazyDisk;
use repo_store::{Store, StoreFault};
use sqlite::{Alter, Connection, FileStore};
use sqlite_disk::Disk;
use std::rt::Files;
use std::{fs, io};

/// The log that the library writes next to the database.
pub(crate) const LOG: &str = ".hookhost/store.db-wal";

/// A connection to the store's database, over files of this kind.
pub type DatabaseOver<D> = Connection<FileStore<LazyDisk<D>>>;

/// A connection to the store's database.
pub type Database = Connection<FileStore<DatabaseFile>>;

/// What was at the name of the log before the database was opened.
#[derive(Clone, Copy, Debug)]
pub struct Before {
    log: FileState,
}

impl Before {
    /// What is at the name of the log. The store's database must exist. If its file is empty or has a single
    /// byte, the error is `RepositoryFault::NoStore`: to open it would make a database of it. If nothing or
    /// anything but a file is there, or if this can't be said of either name, it is
    /// `RepositoryFault::CannotUseStore`.
    pub fn found<R: Files>(rt: &R, _lock: &Lock) -> Result<Before, RepositoryFault>
        ensures { IfErr result IsFaultOfOpening }
    {
        before_of(found_at(rt, STORE), found_at(rt, LOG))
    }

    // Puts the log back as it was, if no change was written to it. Nobody else may have the database open.
    fn put_back<R: Files>(&self, rt: &R) {
        match self.log {
            FileState::Nothing => {
                let _gone = fs::remove_file(rt, LOG);
            }
            FileState::Empty => {
                let _emptied = fs::create(rt, LOG);
            }
            FileState::OneByte | FileState::Filled | FileState::Other => {}
        }
    }
}

fn before_of(
    store: io::Result<FileState>,
    log: io::Result<FileState>,
) -> Result<Before, RepositoryFault>
    ensures before { result ≡ before_of store log }
    ensures refused { IfErr result IsFaultOfOpening }
{
    match (store, log) {
        (Ok(FileState::Filled), Ok(log)) => Ok(Before { log }),
        (Ok(FileState::Empty | FileState::OneByte), Ok(_)) => {
            Err(RepositoryFault::NoStore(StoreFault::NotAStore))
        }
        _ => Err(RepositoryFault::CannotUseStore),
    }
}

/// Opens the database, which must exist. If its file is at fault, the error is
/// `RepositoryFault::CannotUseStore`, and otherwise `RepositoryFault::NoStore`. The folder is then as before.
pub fn open_database(rt: &HostRuntime, before: &Before) -> Result<Database, RepositoryFault>
    ensures outside { IfOk result (λ conn. conn.in_transaction ≡ false) }
    ensures refused { IfErr result IsFaultOfDatabase }
{
    match connect(rt, STORE) {
        Ok(conn) => Ok(conn),
        Err((error, left)) => {
            // If nothing is left of the files, another process may have opened the database.
            if left.is_some() {
                before.put_back(rt);
            }
            Err(RepositoryFault::of_database(error))
        }
    }
}

/// Opens the store in the database, whatever kind of storage that uses. A store of an earlier version is
/// adopted, which is a change (docs/REFERENCE.md, "A store of version 1"). The error is
/// `RepositoryFault::NoStore`, and the folder is then as before. If adopting a store is refused, the log may
/// have been written to. It is left as it is, as after a refused change, and the next command reads it.
pub fn open_store<S: Alter + Drop>(
    rt: &HostRuntime,
    before: &Before,
    conn: Connection<S>,
) -> Result<Store<S>, RepositoryFault>
    requires { conn.in_transaction ≡ false }
    ensures { IfErr result IsFaultOfOpening }
{
    match Store::open(rt.alloc(), conn) {
        Ok(store) => Ok(store),
        Err((fault, conn)) => {
            if !bare_log::may_hold_change(rt, LOG) {
                before.put_back(rt);
            }
            drop(conn);
            Err(RepositoryFault::NoStore(fault))
        }
    }
}

/// Leaves the database. If its log may hold what the database lacks, from this command or a killed one, that
/// is copied into the database. The database is then all of the repository. Otherwise the log is as before,
/// and there is no wait for the disk. If the copying fails, the log keeps its changes, and nothing is lost.
/// Either way the files are closed, which releases the library's locks on them: whoever gets the repository's
/// lock next finds them free. It is generic over the files because the same statements about the program's
/// own files take the checker minutes.
pub fn leave_database<R: Files, D: Disk + Drop>(rt: &R, before: &Before, conn: DatabaseOver<D>) {
    if bare_log::may_hold_change(rt, LOG) {
        let _copied = close_database(rt, LOG, conn);
    } else {
        before.put_back(rt);
        drop(conn);
    }
}

/// Copies the log of this name into the database, which then has all of it, as the disk does. The log stays
/// next to it, without a change in it: a command that has to make that file waits longer for the disk. The
/// errors are those of [`open_database`].
pub(crate) fn close_database<R: Files, D: Disk + Drop>(
    rt: &R,
    log: &str,
    conn: DatabaseOver<D>,
) -> Result<(), RepositoryFault>
    ensures { IfErr result IsFaultOfOpening }
{
    match conn.close_files() {
        Ok(mut files) => {
            bare_log::leave(&mut files.log, bytes_at(rt, log));
            Ok(())
        }
        Err((error, _store)) => Err(RepositoryFault::of_database(error)),
    }
}
