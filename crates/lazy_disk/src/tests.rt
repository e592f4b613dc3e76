//! Tests of what no clause says: which calls are passed on.
//!
//! A case is a disk, the calls that are made on it, and what is expected, a word for each call. A word is `.`
//! if the call passed and `!` if it failed, the letters of the calls that were passed on (`call_recorder.rt`), and
//! after a slash what was read. A disk that may not be used gets no call but a crash: `-`. The end says
//! whether a cut is due.
//!
//! A case is plain data, and a function of its own, over any disk, adds each layer of its disk. For a proof
//! grows faster than the types that its function names.

ghost use Rattle.std.specs.Prelude.{◌≡◌, true, false, IsTrue};
ghost use Rattle.sqlite_disk.specs.Disk.{Only};
ghost use Rattle.sqlite_std_file.specs.File.{IsFresh};

use crate::call_recorder::{Noted, Notes};
use crate::{LazyDisk, settled_files};
use sqlite_disk::{Crash, Disk, Files, Fuse, Memory, digest_of};
use sqlite_std_file::{FileFrom, Start, Unknown, open};
use std::alloc::Global;
use std::process::Abort;
use std::test::Fail;
use std::{fs, io};

#[derive(Clone, Copy)]
enum Call {
    Write(usize, &'static str),
    SetLen(usize),
    Sync,
    Len,
    // Two bytes from this offset on.
    Read(usize),
    // Writes two bytes, syncs, and reads them together with their digest.
    ReadBesideDigest,
    Crash,
}

use Call::{Len, Read, ReadBesideDigest, SetLen, Sync, Write};

// A disk over an empty file in memory, on which so many calls pass and then each one fails.
#[derive(Clone, Copy)]
enum Over {
    // Nothing is known to be synced.
    Unsynced(u64),
    Synced(u64),
    // Nothing is known to be synced, and the file gets no longer than the first number.
    UpTo(usize, u64),
}

use Over::{Synced, Unsynced, UpTo};

fn passing_calls(over: Over) -> u64 {
    match over {
        Unsynced(calls) | Synced(calls) | UpTo(_, calls) => calls,
    }
}

// Lost text is missing in what a test compares.
fn tell(told: &mut String, text: &str) {
    let _told = told.push_str(text);
}

fn tell_byte(told: &mut String, byte: u8) {
    let _told = told.push(char::from(byte));
}

fn mark(ended: io::Result<()>) -> &'static str {
    match ended {
        Ok(()) => ".",
        Err(_) => "!",
    }
}

fn read_beside_digest<D: Disk>(disk: &mut D, read: &mut [u8; 2]) -> io::Result<()>
    requires { IsTrue (D.Disk.is_usable disk.old) }
{
    disk.write_at(0, b"ab")?;
    disk.sync()?;
    disk.read_checked(7, digest_of(7, b"ab"), 0, read)
}

// Makes a call on a disk that may be used.
fn called<D: Disk>(disk: &mut D, call: Call, read: &mut [u8; 2]) -> &'static str {
    if !disk.may_be_used() {
        return "-";
    }
    mark(match call {
        Call::Write(at, text) => disk.write_at(at, text.as_bytes()),
        Call::SetLen(len) => disk.set_len(len),
        Call::Sync => disk.sync(),
        Call::Read(at) => disk.read_at(at, read),
        Call::ReadBesideDigest => read_beside_digest(disk, read),
        Call::Len | Call::Crash => disk.len().map(|_len| ()),
    })
}

fn played_call<D: Crash>(disk: &mut D, call: Call, read: &mut [u8; 2]) -> &'static str {
    match call {
        Call::Crash => {
            disk.crash();
            "."
        }
        call => called(disk, call, read),
    }
}

fn tell_read(told: &mut String, call: Call, read: [u8; 2]) {
    if matches!(call, Call::Read(_) | Call::ReadBesideDigest) {
        tell(told, "/");
        tell_byte(told, read[0]);
        tell_byte(told, read[1]);
    }
}

// Appends the word of a call.
fn tell_call<D: Crash + Notes>(told: &mut String, disk: &mut LazyDisk<D>, call: Call) {
    let before = disk.inner().notes().len();
    let mut read = [0; 2];
    tell(told, played_call(disk, call, &mut read));
    tell(told, disk.inner().notes().get(before..).unwrap_or(""));
    tell_read(told, call, read);
    tell(told, " ");
}

// The words of the calls that are made on a disk, and the end.
fn played<D: Crash + Notes + Drop>(alloc: Global, disk: LazyDisk<D>, calls: &[Call]) -> String {
    let mut disk = disk;
    let mut told = String::new(alloc);
    for call in calls {
        tell_call(&mut told, &mut disk, *call);
    }
    tell(
        &mut told,
        match disk.uncut_len() {
            Some(_) => "due",
            None => "none due",
        },
    );
    told
}

fn lazy<D: Disk>(inner: D, over: Over) -> LazyDisk<D>
    requires mixing { (a b : D) → D.Disk.is_mixing a ≡ D.Disk.is_mixing b }
    requires synced { Only (D.Disk.seen inner) (D.Disk.may_leave inner) }
{
    match over {
        Unsynced(_) => LazyDisk::new(inner),
        Synced(_) => LazyDisk::over_synced(inner),
        UpTo(most_len, _) => LazyDisk::new(inner).up_to(most_len),
    }
}

// Puts the disk under test over one that records its calls.
fn told_lazily<D: Crash + Notes + Drop>(
    alloc: Global,
    inner: D,
    over: Over,
    calls: &[Call],
) -> String
    requires mixing { (a b : D) → D.Disk.is_mixing a ≡ D.Disk.is_mixing b }
    requires synced { Only (D.Disk.seen inner) (D.Disk.may_leave inner) }
{
    played(alloc, lazy(inner, over), calls)
}

// Puts that one over a disk that may fail.
fn told_noted<D: Crash + Drop>(alloc: Global, inner: D, over: Over, calls: &[Call]) -> String
    requires mixing { (a b : D) → D.Disk.is_mixing a ≡ D.Disk.is_mixing b }
    requires synced { Only (D.Disk.seen inner) (D.Disk.may_leave inner) }
{
    let noted = Noted {
        inner,
        calls: String::new(alloc),
    };
    told_lazily(alloc, noted, over, calls)
}

fn told(alloc: Global, over: Over, calls: &[Call]) -> String {
    let inner = Fuse::new(Memory::new(alloc), passing_calls(over));
    told_noted(alloc, inner, over, calls)
}

// Checks that these calls on such a disk give these words.
fn check(rt: &(impl Abort + AllocGlobal), over: Over, calls: &[Call], wanted: &str) {
    let told = told(rt.alloc(), over, calls);
    assert_eq!(rt; told.as_str(), wanted);
}

#[test]
fn hands_one_sync_on_after_each_write(rt: HostRuntime) {
    check(
        &rt,
        Synced(4),
        &[
            Write(0, "ab"),
            Sync,
            Sync,
            Sync,
            SetLen(1),
            Sync,
            Sync,
            Sync,
            Write(0, "c"),
        ],
        ".w .s . . . .cs . . !w none due",
    );
}

#[test]
fn hands_the_first_sync_on_where_it_may_tell_something(rt: HostRuntime) {
    check(&rt, Unsynced(1), &[Sync, Sync], ".s . none due");
    check(&rt, Synced(0), &[Sync], ". none due");
}

#[test]
fn counts_a_failed_write_as_written(rt: HostRuntime) {
    check(&rt, Synced(0), &[Write(0, "ab"), Sync], "!w !s none due");
    check(&rt, Synced(0), &[SetLen(1), Sync], "!c !s none due");
}

#[test]
fn hands_no_sync_on_after_reads(rt: HostRuntime) {
    check(
        &rt,
        Unsynced(5),
        &[Write(0, "ab"), Sync, Len, Read(0), Read(1), Sync],
        ".w .s .l .r/ab !r/\0\0 . none due",
    );
}

#[test]
fn hands_a_sync_on_after_a_crash(rt: HostRuntime) {
    check(
        &rt,
        Unsynced(3),
        &[
            Write(0, "ab"),
            Sync,
            Write(0, "cd"),
            Sync,
            Sync,
            Call::Crash,
            Read(0),
            Sync,
            Sync,
            Call::Crash,
            Read(0),
            Sync,
            Sync,
        ],
        ".w .s .w !s - . .r/ab .s . . .r/ab .s . none due",
    );
}

#[test]
fn cuts_before_the_next_write(rt: HostRuntime) {
    check(&rt, Unsynced(1), &[Write(0, "abcd"), SetLen(1)], ".w . due");
    check(
        &rt,
        Unsynced(5),
        &[Write(0, "abcd"), SetLen(1), Write(2, "z"), Read(0), Read(1)],
        ".w . .cw .r/a\0 .r/\0z none due",
    );
}

#[test]
fn cuts_before_a_longer_length(rt: HostRuntime) {
    check(
        &rt,
        Unsynced(4),
        &[Write(0, "abcd"), SetLen(2), SetLen(3), Read(1)],
        ".w . .cc .r/b\0 none due",
    );
}

#[test]
fn cuts_before_a_sync(rt: HostRuntime) {
    check(
        &rt,
        Unsynced(5),
        &[
            Write(0, "abcd"),
            SetLen(3),
            SetLen(2),
            Sync,
            Read(0),
            Read(1),
        ],
        ".w . . .cs .r/ab !r/\0\0 none due",
    );
}

#[test]
fn keeps_a_cut_due_that_fails(rt: HostRuntime) {
    check(
        &rt,
        Unsynced(1),
        &[Write(0, "abcd"), SetLen(2), Sync, Sync],
        ".w . !c - due",
    );
}

#[test]
fn reads_only_what_is_not_cut(rt: HostRuntime) {
    check(
        &rt,
        Unsynced(2),
        &[Write(0, "abcd"), SetLen(3), Read(2), Read(1)],
        ".w . !/\0\0 .r/bc due",
    );
}

#[test]
fn hands_nothing_on_that_ends_past_the_most_bytes(rt: HostRuntime) {
    check(
        &rt,
        UpTo(4, 9),
        &[
            Write(0, "abcd"),
            Write(3, "ef"),
            Write(4, "x"),
            SetLen(5),
            SetLen(2),
            Write(4, "x"),
            SetLen(4),
            Sync,
            Read(0),
        ],
        ".w ! ! ! . ! .cc .s .r/ab none due",
    );
}

#[test]
fn hands_no_sync_on_after_a_read_beside_a_digest(rt: HostRuntime) {
    check(
        &rt,
        Unsynced(3),
        &[ReadBesideDigest, Sync],
        ".wsr/ab . none due",
    );
}

const FOLDER: &str = "lazy_disk_test";

const PATH: &str = "lazy_disk_test/a.db";

// Writes bytes between two syncs, and returns the length of the file then.
fn kept<D: Disk>(disk: &mut D, bytes: &[u8]) -> io::Result<usize>
    requires { IsTrue (D.Disk.is_usable disk.old) }
{
    disk.sync()?;
    disk.write_at(0, bytes)?;
    disk.sync()?;
    disk.len()
}

// Whether both files are as long as what is written to them.
fn both_keep<D: Disk>(files: &mut Files<D>) -> io::Result<bool>
    requires log { IsTrue (D.Disk.is_usable files.old.log) }
    requires db { IsTrue (D.Disk.is_usable files.old.db) }
{
    Ok(kept(&mut files.log, b"log")? == 3 && kept(&mut files.db, b"db")? == 2)
}

// Whether both files have what was written to them.
fn both_have<D: Disk>(files: &mut Files<D>) -> io::Result<bool>
    requires log { IsTrue (D.Disk.is_usable files.old.log) }
    requires db { IsTrue (D.Disk.is_usable files.old.db) }
{
    let (mut log, mut db) = ([0; 3], [0; 2]);
    files.log.read_at(0, &mut log)?;
    files.db.read_at(0, &mut db)?;
    Ok(log == *b"log" && db == *b"db")
}

// What is done with the files once they are opened.
#[derive(Clone, Copy)]
enum Turn {
    Keep,
    Have,
}

fn took_turn<D: Disk + Drop>(files: Files<D>, turn: Turn) -> io::Result<bool> {
    let mut files = files;
    if !files.may_be_used() {
        return Ok(false);
    }
    match turn {
        Turn::Keep => both_keep(&mut files),
        Turn::Have => both_have(&mut files),
    }
}

fn took_settled_turn<S: Start>(files: Files<FileFrom<S>>, turn: Turn) -> io::Result<bool>
    requires { IsFresh true files.log × IsFresh false files.db }
{
    took_turn(settled_files(files), turn)
}

fn opened(rt: &HostRuntime, turn: Turn) -> Result<bool, Fail> {
    Ok(took_settled_turn(open(rt, PATH, Unknown)?, turn)?)
}

#[test]
fn keeps_what_is_written_to_the_files_of_a_database(rt: HostRuntime) -> Result<(), Fail> {
    let _ = fs::remove_dir_all(&rt, FOLDER);
    fs::create_dir(&rt, FOLDER)?;
    assert!(rt; opened(&rt, Turn::Keep)?);
    let is_there = opened(&rt, Turn::Have)?;
    fs::remove_dir_all(&rt, FOLDER)?;
    assert!(rt; is_there);
    Ok(())
}
