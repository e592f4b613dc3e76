//! Reads and writes what files contain.

ghost use Rattle.std.specs.Io.{ReadsAtMost};

use crate::new_file_modes::asked_mode;
use crate::stamp::Stamp;
use hook_base::{FileEntry, MOST_FILE_BYTES};
use libc::types::rlimit;
use std::alloc::Global;
use std::fs::{Files, OpenFile, OpenOptions};
use std::io::{ErrorKind, Read, Write};
use std::os::unix::fs::OpenOptionsExt;
use std::{fs, io};

// `RLIMIT_FSIZE` on Linux: the limit on the size of files that this process writes (getrlimit(2)).
const FILE_BYTES: i32 = 1;

/// How many bytes are read at once.
pub(crate) const PIECE_BYTES: usize = 65_536;

/// Whether what is left to read of an open file begins with these bytes.
pub(crate) fn begins_with<F: Read>(
    file: &mut F,
    bytes: &[u8],
    piece: &mut [u8],
) -> io::Result<bool> {
    let mut left = bytes;
    for _ in 0..u64::MAX {
        if left.is_empty() {
            return Ok(true);
        }
        let count = read_some(file, piece)?;
        match left.split_at_checked(count) {
            Some((first, rest)) if count > 0 && first == &piece[..count] => left = rest,
            _ => return Ok(false),
        }
    }
    Ok(false)
}

/// What the file at a place contains. `ErrorKind::FileTooLarge` if that is more than `MOST_FILE_BYTES`.
pub(crate) fn read_file<R: Files>(
    files: &R,
    alloc: Global,
    place: &str,
    piece: &mut [u8],
) -> io::Result<Vec<u8>> {
    read_open(alloc, &mut fs::open(files, place)?, piece)
}

/// What an open file contains from its current offset on, with the same error.
pub(crate) fn read_open<F: Read>(
    alloc: Global,
    file: &mut F,
    piece: &mut [u8],
) -> io::Result<Vec<u8>> {
    let mut bytes = Vec::new(alloc);
    for _ in 0..u64::MAX {
        let count = read_some(file, piece)?;
        if count == 0 {
            return Ok(bytes);
        }
        bytes.extend_from_slice(&piece[..count])?;
        if bytes.len() > MOST_FILE_BYTES {
            break;
        }
    }
    Err(io::Error::from(ErrorKind::FileTooLarge))
}

/// Makes a new file with the bytes and the mode of this one, and returns its stamp. An error if anything is
/// at its place, and `ErrorKind::FileTooLarge` if there are more bytes than this process may write.
pub(crate) fn write_new<R: Files>(files: &R, place: &str, wanted: &FileEntry) -> io::Result<Stamp> {
    let bytes = wanted.bytes.as_slice();
    if bytes.len() as u64 > most_bytes() {
        return Err(io::Error::from(ErrorKind::FileTooLarge));
    }
    let mut options = OpenOptions::new();
    let options = options.mode(asked_mode(wanted.mode));
    let mut file = options.write(true).create_new(true).open(files, place)?;
    file.write_all(bytes)?;
    Ok(Stamp::of(&file.metadata()?))
}

// The most bytes that a file of this process may get. A write past them would end the process by the signal
// `SIGXFSZ` (getrlimit(2), "RLIMIT_FSIZE"), which the kit has no call to ignore.
fn most_bytes() -> u64 {
    let mut limit = rlimit {
        rlim_cur: u64::MAX,
        rlim_max: u64::MAX,
    };
    if libc::getrlimit(FILE_BYTES, &mut limit) < 0 {
        return u64::MAX;
    }
    limit.rlim_cur
}

/// Reads once, and again if a signal interrupted that (read(2), EINTR). 0 at the end of the file.
pub(crate) fn read_some<F: Read>(file: &mut F, piece: &mut [u8]) -> io::Result<usize>
    ensures { ReadsAtMost result piece.new }
{
    for _ in 0..u64::MAX {
        match file.read(piece) {
            Err(e) if e.kind() == ErrorKind::Interrupted => {}
            ended => return ended,
        }
    }
    Ok(0)
}
