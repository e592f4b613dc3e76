//! A new repository in the working folder.
//!
//! Its database is made under another name, and renamed once it is a store and all of it is on the disk:
//! `store.db` is a store or doesn't exist.

ghost use Rattle.std.specs.Prelude.{◌≡◌, false, IfErr};
ghost use Rattle.repository_files.specs.RepositoryFaults.{IsFaultOfOpening};
ghost use Rattle.repository_files.specs.declared.repository_fault.RepositoryFault.TheVariants.{CannotUseStore};

use crate::connect::connect;
use crate::database::{DatabaseOver, LOG, close_database};
use crate::folder::{
    FOLDER, FileState, Folder, LOCK, Lock, STORE, found_at, look_for_no_store, make_folder,
    take_away, take_lock,
};
use crate::git_exclude::keep_out_of_git;
use crate::repository_fault::RepositoryFault;
use repo_store::Store;
use sqlite::{Alter, Connection};
use sqlite_disk::Disk;
use std::fs::OpenFile;
use std::rt::Files;
use std::{fs, io};

// The database while it is made. No other command uses the name, so what is there was left by a killed
// `init`.
const NEW_STORE: &str = ".hookhost/new.db";

// The log that the library writes next to it.
const NEW_LOG: &str = ".hookhost/new.db-wal";

/// Makes an empty repository, whose folder is kept out of Git. The errors are, in this order:
/// `CannotUseStore` if anything is at the store's name, or if the folder can't be made; `CannotUseLock`;
/// `CannotUseStore` if another `init` has made a store since, or if anything but a file is at the log's name;
/// and then `CannotUseStore` or `NoStore` if the database can't be made or renamed. An error leaves the
/// folder as it was, except for its lock if the folder was there, and for what a killed `init` left. If the
/// system refuses the last of the renames, a log without a store is gone, as after a success.
pub fn init(rt: &HostRuntime) -> Result<(), RepositoryFault> {
    look_for_no_store(rt)?;
    let folder = make_folder(rt)?;
    let done = init_in(rt, folder);
    if done.is_ok() {
        keep_out_of_git(rt);
    } else if folder == Folder::Made {
        // This fails if another command has put its lock there.
        let _unless_used = fs::remove_dir(rt, FOLDER);
    }
    done
}

// Makes a repository in its folder.
fn init_in(rt: &HostRuntime, folder: Folder) -> Result<(), RepositoryFault> {
    let lock = take_lock(rt)?;
    let done = init_under(rt, &lock);
    if done.is_err() && folder == Folder::Made {
        // Another process that has opened the file can lock it only after this one, and then finds that it is
        // gone.
        let _gone = take_away(rt, LOCK);
    }
    done
}

// Makes a repository under its lock.
fn init_under(rt: &HostRuntime, _lock: &Lock) -> Result<(), RepositoryFault>
    ensures { IfErr result IsFaultOfOpening }
{
    look_for_no_store(rt)?;
    let log = log_before(rt)?;
    take_new_away(rt)?;
    let done = make_and_place(rt);
    if done.is_err() {
        undo(rt, log);
    }
    done
}

// What is at the name of the log, which may be left of a store that was removed. If it isn't a file, or if
// that can't be said, the error is `CannotUseStore`.
fn log_before<R: Files>(rt: &R) -> Result<FileState, RepositoryFault>
    ensures { IfErr result (λ fault. fault ≡ CannotUseStore) }
{
    match found_at(rt, LOG) {
        Ok(FileState::Other) | Err(_) => Err(RepositoryFault::CannotUseStore),
        Ok(found) => Ok(found),
    }
}

// Removes what a killed `init` left, the log first: a new database next to it would be read with it.
fn take_new_away<R: Files>(rt: &R) -> Result<(), RepositoryFault>
    ensures { IfErr result (λ fault. fault ≡ CannotUseStore) }
{
    if take_away(rt, NEW_LOG).is_err() || take_away(rt, NEW_STORE).is_err() {
        return Err(RepositoryFault::CannotUseStore);
    }
    Ok(())
}

// Removes what was made. Before, nothing was at the store's name.
fn undo<R: Files>(rt: &R, log: FileState) {
    let _gone = take_away(rt, STORE);
    let _gone = take_new_away(rt);
    if log == FileState::Nothing {
        let _gone = take_away(rt, LOG);
    }
}

fn make_and_place(rt: &HostRuntime) -> Result<(), RepositoryFault>
    ensures { IfErr result IsFaultOfOpening }
{
    make_database(rt)?;
    match put_in_place(rt) {
        Ok(()) => Ok(()),
        Err(_) => Err(RepositoryFault::CannotUseStore),
    }
}

// Makes the database under its other name.
fn make_database(rt: &HostRuntime) -> Result<(), RepositoryFault>
    ensures { IfErr result IsFaultOfOpening }
{
    match connect(rt, NEW_STORE) {
        Ok(conn) => make_and_close(rt, conn),
        Err((error, _left)) => Err(RepositoryFault::of_database(error)),
    }
}

// Makes a store in a database, and closes it. Then the database's file has all of it, and the file is on the
// disk.
fn make_and_close<D: Disk + Drop>(
    rt: &HostRuntime,
    conn: DatabaseOver<D>,
) -> Result<(), RepositoryFault>
    requires { conn.in_transaction ≡ false }
    ensures { IfErr result IsFaultOfOpening }
{
    match make_store(rt, conn) {
        Ok(conn) => close_database(rt, NEW_LOG, conn),
        Err(fault) => Err(fault),
    }
}

// Makes a store in a database, whatever kind of storage that uses.
fn make_store<S: Alter + Drop>(
    rt: &HostRuntime,
    conn: Connection<S>,
) -> Result<Connection<S>, RepositoryFault>
    requires { conn.in_transaction ≡ false }
    ensures { IfErr result IsFaultOfOpening }
{
    match Store::create(rt.alloc(), conn) {
        Ok(store) => Ok(store.into_connection()),
        Err((fault, _conn)) => Err(RepositoryFault::NoStore(fault)),
    }
}

// Gives the database its name. First its log replaces one that may be there, and the folder is synced:
// whenever the power fails, the database must have no other one's log next to it.
fn put_in_place<R: Files>(rt: &R) -> io::Result<()> {
    fs::rename(rt, NEW_LOG, LOG)?;
    sync_folder(rt)?;
    fs::rename(rt, NEW_STORE, STORE)?;
    sync_folder(rt)
}

fn sync_folder<R: Files>(rt: &R) -> io::Result<()> {
    fs::open(rt, FOLDER)?.sync_all()
}
