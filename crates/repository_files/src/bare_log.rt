//! The database's write-ahead log while it holds no change.

ghost use Rattle.std.specs.Prelude.{◌≡◌, ◌≢◌, ◌↔◌, ◌<◌, ℕ, IfOk, IsTrue, OnOk};
ghost use Rattle.sqlite_wal.specs.Files.{seen_image};
ghost use Rattle.sqlite_wal.specs.Format.{part};
ghost use Rattle.sqlite_wal.specs.Recovery.{RecoversAs};

use lazy_disk::LazyDisk;
use sqlite::Files as DatabaseFiles;
use sqlite_disk::Disk;
use std::fs;
use std::io::{self, Read};
use std::rt::Files;

// The bytes of a log's header and of its first frame's header (SQLite's file format, section 4.1). A log of
// this length holds no change, which has its page as well.
const BARE_LOG: usize = 56;

// A log with more bytes than this doesn't stay as long as it is.
const MOST_BYTES: u64 = 262_144;

// The offset of the page size in the header of a database (SQLite's file format, section 1.3).
const PAGE_IN_DATABASE: usize = 16;

// The header of a log (SQLite's file format, section 4.1): its magic number without the lowest bit, and the
// offsets of the page size and of the mark. The mark is the two salts, eight bytes together. Each frame of a
// change repeats it: if the first frame has another mark, the log holds no change.
const SIGNATURE: u32 = 0x377f_0682;

const PAGE_IN_LOG: usize = 8;

const MARK: usize = 16;

const MARK_OF_FIRST_PAGE: usize = 40;

/// Whether the log of this name may hold a change: its first frame has its mark. So it may if reading it
/// fails. A log that is missing, or too short for a page, holds none.
pub(crate) fn may_hold_change<R: Files>(rt: &R, name: &str) -> bool {
    match begins_with_change(rt, name) {
        Ok(begins) => begins,
        Err(error) => {
            error.kind() != io::ErrorKind::UnexpectedEof && error.kind() != io::ErrorKind::NotFound
        }
    }
}

fn begins_with_change<R: Files>(rt: &R, name: &str) -> io::Result<bool> {
    let mut log = fs::open(rt, name)?;
    let mut head = [0; BARE_LOG];
    log.read_exact(&mut head)?;
    let mut first_of_page = [0; 1];
    log.read_exact(&mut first_of_page)?;
    Ok(is_marked(&head))
}

// Whether a log's first frame has the log's mark.
fn is_marked(head: &[u8; BARE_LOG]) -> bool
    ensures { IsTrue result ↔ (part head.now 40 8 ≡ part head.now 16 8) }
{
    head[MARK_OF_FIRST_PAGE..MARK_OF_FIRST_PAGE + 8] == head[MARK..MARK + 8]
}

/// Leaves the log of a closed database, which the library has cut to 41 bytes. A log so short would be begun
/// again when the library opens it, with six waits for the disk; a longer one is used as it is. So a log
/// whose cut is still due stays as it is, since a cut takes as long as writing a change. Any other log, or
/// one whose file has more than `MOST_BYTES` bytes by now, is made longer after its cut. Nothing relies on
/// this, so a failure does no harm.
pub(crate) fn leave<D: Disk>(log: &mut LazyDisk<D>, bytes_now: Option<u64>)
    requires { IsTrue (⟦<LazyDisk<D> as Disk>⟧.is_usable log.old) }
{
    if !may_stay(log.uncut_len(), bytes_now) {
        let _longer = log.set_len(BARE_LOG);
    }
}

// Whether a log may stay as it is. `uncut` is how many bytes it is known to have while its cut is due.
fn may_stay(uncut: Option<usize>, bytes_now: Option<u64>) -> bool {
    match (uncut, bytes_now) {
        (Some(known), Some(bytes)) => known >= BARE_LOG && bytes <= MOST_BYTES,
        _ => false,
    }
}

/// Empties a log that holds no change and whose page size isn't the database's, which was put next to it
/// since. The library would take the page size from the log, and refuse the database. What the files mean
/// stays the same. A failure does no harm: the library meets it too.
pub(crate) fn fit<D: Disk>(files: &mut DatabaseFiles<D>) -> io::Result<()>
    requires log { IsTrue (D.Disk.is_usable files.old.log) }
    requires db { IsTrue (D.Disk.is_usable files.old.db) }
    ensures log { IsTrue (D.Disk.is_usable files.new.log) }
    ensures db { IsTrue (D.Disk.is_usable files.new.db) }
    ensures recovers { OnOk result (IsTrue (D.Disk.is_clean files.new.log) → (size : ℕ)
        → RecoversAs size (seen_image D.Disk files.old.log files.old.db) (seen_image D.Disk files.new.log files.new.db)) }
{
    if is_of_another_database(files)? {
        files.log.set_len(0)?;
    }
    Ok(())
}

fn is_of_another_database<D: Disk>(files: &mut DatabaseFiles<D>) -> io::Result<bool>
    requires log { IsTrue (D.Disk.is_usable files.old.log) }
    requires db { IsTrue (D.Disk.is_usable files.old.db) }
    ensures log { IsTrue (D.Disk.is_usable files.new.log) }
    ensures db { IsTrue (D.Disk.is_usable files.new.db) }
    ensures log_seen { D.Disk.seen files.new.log ≡ D.Disk.seen files.old.log }
    ensures db_seen { D.Disk.seen files.new.db ≡ D.Disk.seen files.old.db }
    ensures unmarked { IfOk result (λ other. IsTrue other → IsTrue (D.Disk.is_clean files.new.log)
        → part (D.Disk.seen files.old.log) 40 8 ≢ part (D.Disk.seen files.old.log) 16 8) }
{
    if files.log.len()? < BARE_LOG {
        return Ok(false);
    }
    let mut log = [0; BARE_LOG];
    files.log.read_at(0, &mut log)?;
    if number_at(&log, 0) & !1 != SIGNATURE || is_marked(&log) {
        return Ok(false);
    }
    let mut of_database = [0; 2];
    files.db.read_at(PAGE_IN_DATABASE, &mut of_database)?;
    Ok(number_at(&log, PAGE_IN_LOG) != page_bytes(of_database))
}

// The four bytes of a log at `at` as a number, the highest byte first.
fn number_at(log: &[u8; BARE_LOG], at: usize) -> u32
    requires { at < 53 }
{
    u32::from_be_bytes([log[at], log[at + 1], log[at + 2], log[at + 3]])
}

// The field has two bytes, so 1 means 65,536 (SQLite's file format, section 1.3.2).
fn page_bytes(of_database: [u8; 2]) -> u32 {
    match u16::from_be_bytes(of_database) {
        1 => 65_536,
        bytes => u32::from(bytes),
    }
}
