//! A connection to a database, with as much room in memory as its file needs.

ghost use Rattle.std.specs.Prelude.{◌≡◌, false, IsTrue, IfErr, IfOk};
ghost use Rattle.sqlite.specs.Opening.{is_open_error};

use crate::bare_log::fit;
use crate::folder::bytes_at;
use lazy_disk::{LazyDisk, settled_files};
use libc::types::rlimit;
use sqlite::{
    Connection, Error, ErrorCode, FileFrom, FileStore, Files as DatabaseFiles, Leftover, Options,
    Wary,
};
use sqlite_disk::Disk;
use sqlite_std_file::OpenError;
use std::alloc::Global;
use std::hash::{BuildHasher, RandomState};
use std::io::ErrorKind;

/// A file of the database that waits for the disk only if something was written. While the library opens its
/// two files, it syncs both several times, although `open` has synced all that is in them. `Wary` assumes
/// nothing about the bytes that a write leaves if the power fails within it. A library that assumes more
/// prepares its log for many commits, and a command makes only one.
pub type DatabaseFile = LazyDisk<FileFrom<Wary>>;

// `RLIMIT_FSIZE` on Linux: the limit on the size of files that this process writes (getrlimit(2)).
const FILE_BYTES: i32 = 1;

/// The bytes of a page of the databases that the library makes.
const PAGE_BYTES: u64 = 4_096;

// The fewest pages that are kept in memory. A database without rows has fewer.
const FEWEST_PAGES: u64 = 64;

// The most pages: 64 MiB. Of a larger database pages are read again and again.
const MOST_PAGES: u64 = 16_384;

/// Opens the database at the path, or makes it if there is none. The library reserves memory for its pages
/// when it opens the file. For the most pages this takes longer than everything else that it does with a
/// small file. The error comes with what is left of the files, if they were opened.
pub(crate) fn connect(
    rt: &HostRuntime,
    path: &str,
) -> Result<Connection<FileStore<DatabaseFile>>, (Error, Option<Leftover<DatabaseFile>>)>
    ensures outside { IfOk result (λ conn. conn.in_transaction ≡ false) }
    ensures refused { IfErr result (λ failed. IsTrue (is_open_error failed.0)) }
{
    let Ok(seed) = random_number(rt) else {
        return Err((Error::SqliteFailure(ErrorCode::CannotOpen), None));
    };
    let options = Options {
        cache_pages: pages_for(bytes_at(rt, path).unwrap_or(0)),
        ..Options::new(seed)
    };
    let files = match sqlite_std_file::open(rt, path, Wary) {
        Ok(files) => files,
        Err(error) => return Err((error_of(error), None)),
    };
    let settled = settled_files(files);
    let most = most_file_bytes();
    let files = DatabaseFiles {
        log: settled.log.up_to(most),
        db: settled.db.up_to(most),
    };
    connect_over(rt.alloc(), files, options)
}

// Opens the database in its files, or makes it if they are empty.
fn connect_over<D: Disk + Drop>(
    alloc: Global,
    files: DatabaseFiles<LazyDisk<D>>,
    options: Options,
) -> Result<Connection<FileStore<LazyDisk<D>>>, (Error, Option<Leftover<LazyDisk<D>>>)>
    requires log { IsTrue (⟦<LazyDisk<D> as Disk>⟧.is_usable files.log) }
    requires db { IsTrue (⟦<LazyDisk<D> as Disk>⟧.is_usable files.db) }
    ensures outside { IfOk result (λ conn. conn.in_transaction ≡ false) }
    ensures refused { IfErr result (λ failed. IsTrue (is_open_error failed.0)) }
{
    let mut files = files;
    let _fitted = fit(&mut files);
    match Connection::open_files(alloc, files, options) {
        Ok(conn) => Ok(conn),
        Err((error, left)) => Err((error, Some(left))),
    }
}

// The greatest size of a file that this process may write. A write past it, or a longer length, would end the
// process by the signal `SIGXFSZ` (getrlimit(2), "RLIMIT_FSIZE"), which the kit has no call to ignore.
fn most_file_bytes() -> usize {
    let mut limit = rlimit {
        rlim_cur: u64::MAX,
        rlim_max: u64::MAX,
    };
    if libc::getrlimit(FILE_BYTES, &mut limit) < 0 {
        return usize::MAX;
    }
    limit.rlim_cur as usize
}

fn random_number(rt: &HostRuntime) -> Result<u64, std::io::Error> {
    Ok(RandomState::new(rt)?.hash_one(&0u8))
}

// How many pages of a database of this length are kept in memory: twice as many as it has, since it grows.
fn pages_for(bytes: u64) -> usize {
    let pages = bytes / PAGE_BYTES;
    pages.saturating_mul(2).clamp(FEWEST_PAGES, MOST_PAGES) as usize
}

fn error_of(error: OpenError) -> Error
    ensures { IsTrue (is_open_error result) }
{
    let code = match error {
        OpenError::OutOfMemory => ErrorCode::OutOfMemory,
        OpenError::Io(error) if error.kind() == ErrorKind::OutOfMemory => ErrorCode::OutOfMemory,
        OpenError::Busy => ErrorCode::DatabaseBusy,
        OpenError::Io(_) | OpenError::HotJournal => ErrorCode::CannotOpen,
    };
    Error::SqliteFailure(code)
}
