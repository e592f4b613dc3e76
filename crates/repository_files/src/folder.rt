//! The folder of a repository, which lies in the working folder: its store's file, the lock that keeps other
//! commands out, and the folder in which children run.

ghost use Rattle.std.specs.Prelude.{◌≡◌, ◌↔◌, IfErr, IsTrue};
ghost use Rattle.repository_files.specs.RepositoryFaults.{IsFile, IsFoundWith};
ghost use Rattle.repository_files.specs.declared.repository_fault.RepositoryFault.TheVariants.{CannotUseLock, CannotUseStore};

use crate::repository_fault::RepositoryFault;
use std::fs::{File, OpenOptions};
use std::os::fd::AsRawFd;
use std::os::unix::fs::MetadataExt;
use std::rt::Files;
use std::{fs, io};

/// The file of the store.
pub const STORE: &str = ".hookhost/store.db";

/// The file whose lock a command holds.
pub const LOCK: &str = ".hookhost/lock";

/// The folder in which children run. It is made for the first of them, with the folder that holds it.
pub const SCRATCH: &str = ".hookhost/scratch";

/// The folder that holds the store, the lock and the folder of children.
pub const FOLDER: &str = ".hookhost";

// The descriptor of standard error, `STDERR_FILENO`, the last of the standard streams.
const LAST_STREAM: i32 = 2;

/// The lock of the repository: no other process has it until this value is dropped or the process ends.
#[derive(Drop)]
pub struct Lock {
    _file: File,
}

/// What is at the name of a file. A link isn't followed.
#[derive(Clone, Copy, Debug, PartialEq, Eq)]
pub(crate) enum FileState {
    /// Nothing.
    Nothing,
    /// A file without bytes.
    Empty,
    /// A file of one byte, which the database's library treats as empty.
    OneByte,
    /// A file with more bytes.
    Filled,
    /// Anything but a regular file, such as a folder, a link or a fifo.
    Other,
}

/// Where the repository's folder comes from.
#[derive(Clone, Copy, Debug, PartialEq, Eq)]
pub(crate) enum Folder {
    /// It was there.
    Found,
    /// It was made.
    Made,
}

/// Makes the repository's folder if there is none. The error is `RepositoryFault::CannotUseStore`, also if a
/// link is there: no child would run in the folder that it leads to.
pub(crate) fn make_folder<R: Files>(rt: &R) -> Result<Folder, RepositoryFault>
    ensures { IfErr result (λ fault. fault ≡ CannotUseStore) }
{
    if fs::create_dir(rt, FOLDER).is_ok() {
        return Ok(Folder::Made);
    }
    match fs::symlink_metadata(rt, FOLDER) {
        Ok(found) if found.is_dir() => Ok(Folder::Found),
        _ => Err(RepositoryFault::CannotUseStore),
    }
}

/// Checks that the store's file exists and can be read, without opening it for writing. The error is
/// `RepositoryFault::CannotUseStore`.
pub fn look_at_store<R: Files>(rt: &R) -> Result<(), RepositoryFault>
    ensures { IfErr result (λ fault. fault ≡ CannotUseStore) }
{
    match found_at(rt, STORE) {
        Ok(found) if is_file(found) => {}
        _ => return Err(RepositoryFault::CannotUseStore),
    }
    match fs::open(rt, STORE) {
        Ok(_) => Ok(()),
        Err(_) => Err(RepositoryFault::CannotUseStore),
    }
}

/// Checks that the name of the store's file is free. If anything is there, or if this can't be said, the
/// error is `RepositoryFault::CannotUseStore`.
pub(crate) fn look_for_no_store<R: Files>(rt: &R) -> Result<(), RepositoryFault>
    ensures { IfErr result (λ fault. fault ≡ CannotUseStore) }
{
    match found_at(rt, STORE) {
        Ok(FileState::Nothing) => Ok(()),
        _ => Err(RepositoryFault::CannotUseStore),
    }
}

/// Takes the lock. If another process has it, or if its file can't be opened or isn't a regular file, the
/// error is `RepositoryFault::CannotUseLock`.
pub fn take_lock(rt: &HostRuntime) -> Result<Lock, RepositoryFault>
    ensures { IfErr result (λ fault. fault ≡ CannotUseLock) }
{
    match try_to_lock(rt) {
        Ok(lock) => Ok(lock),
        Err(_) => Err(RepositoryFault::CannotUseLock),
    }
}

fn try_to_lock(rt: &HostRuntime) -> io::Result<Lock> {
    // Opening a fifo would wait for its reader (fifo(7)), and a link may lead out of the folder.
    if found_at(rt, LOCK)? == FileState::Other {
        return Err(io::ErrorKind::Unsupported.into());
    }
    let mut file = OpenOptions::new().write(true).create(true).open(rt, LOCK)?;
    // If a standard stream was closed, open(2) has given its number to the file. Output for that stream must
    // not land there.
    if file.as_raw_fd() <= LAST_STREAM {
        file = file.try_clone()?;
    }
    file.try_lock()?;
    // An `init` that made the folder and then failed has removed the file: a lock on it keeps nobody out.
    if !is_at(rt, &file, LOCK)? {
        return Err(io::ErrorKind::NotFound.into());
    }
    Ok(Lock { _file: file })
}

// Whether this file is at the name.
fn is_at(rt: &HostRuntime, file: &File, name: &str) -> io::Result<bool> {
    let (held, named) = (file.metadata()?, fs::symlink_metadata(rt, name)?);
    Ok(held.dev() == named.dev() && held.ino() == named.ino())
}

/// What is at a name.
pub(crate) fn found_at<R: Files>(rt: &R, name: &str) -> io::Result<FileState> {
    match fs::symlink_metadata(rt, name) {
        Ok(found) if !found.is_file() => Ok(FileState::Other),
        Ok(found) => Ok(found_with(found.len())),
        Err(error) if error.kind() == io::ErrorKind::NotFound => Ok(FileState::Nothing),
        Err(error) => Err(error),
    }
}

// What a file of this length counts as.
fn found_with(bytes: u64) -> FileState
    ensures { IsFoundWith bytes result }
{
    match bytes {
        0 => FileState::Empty,
        1 => FileState::OneByte,
        _ => FileState::Filled,
    }
}

fn is_file(found: FileState) -> bool
    ensures { IsTrue result ↔ IsFile found }
{
    match found {
        FileState::Empty | FileState::OneByte | FileState::Filled => true,
        FileState::Nothing | FileState::Other => false,
    }
}

/// Removes a file, if there is one.
pub(crate) fn take_away<R: Files>(rt: &R, name: &str) -> io::Result<()> {
    match fs::remove_file(rt, name) {
        Err(error) if error.kind() != io::ErrorKind::NotFound => Err(error),
        _ => Ok(()),
    }
}

/// How many bytes the file of this name has, or `None` if that can't be said.
pub(crate) fn bytes_at<R: Files>(rt: &R, name: &str) -> Option<u64> {
    match fs::symlink_metadata(rt, name) {
        Ok(found) => Some(found.len()),
        Err(_) => None,
    }
}
