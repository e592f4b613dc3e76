//! The file system of the scratch folder, as far as the times of files depend on it.

use crate::contents::read_file;
use crate::stamp::Moment;
use std::alloc::{AllocError, Global};
use std::fs::{Files, Metadata};
use std::os::unix::fs::MetadataExt;
use std::str;

// What is mounted (proc(5), mountinfo), and two settings in hundredths of a second: how old dirty data is
// when the system writes it to the disk, and how often the system looks for it.
const MOUNTS: &str = "/proc/self/mountinfo";

const EXPIRES_AFTER: &str = "/proc/sys/vm/dirty_expire_centisecs";

const LOOKS_EACH: &str = "/proc/sys/vm/dirty_writeback_centisecs";

// The file systems on which a trial has shown that a write through a memory mapping stamps the file, at the
// first write after the page was clean. mmap(2) promises that only by the next msync(2). A file in memory
// (`tmpfs`) isn't stamped at all.
const STAMPING: [&[u8]; 1] = [b"ext4"];

// How many times longer than the settings say a write to the disk may take.
const TIMES_LONGER: i64 = 4;

/// Whether a write through a memory mapping stamps files on the file system of this file, and times there are
/// finer than a thousandth of a second.
pub(crate) fn stamps_writes<R: Files>(
    files: &R,
    alloc: Global,
    made: &Metadata,
    piece: &mut [u8],
) -> bool {
    !Moment::of_change(made).is_coarse() && is_stamping(files, alloc, made.dev(), piece)
}

fn is_stamping<R: Files>(files: &R, alloc: Global, device: u64, piece: &mut [u8]) -> bool {
    let Ok(number) = device_text(alloc, device) else {
        return false;
    };
    let Ok(mounts) = read_file(files, alloc, MOUNTS, piece) else {
        return false;
    };
    for line in mounts.as_slice().split(|byte| *byte == b'\n') {
        if let Some(kind) = kind_on(line, number.as_str().as_bytes()) {
            return STAMPING.contains(&kind);
        }
    }
    false
}

// The major and minor number of a device, as `mountinfo` has them.
fn device_text(alloc: Global, device: u64) -> Result<String, AllocError> {
    let major = ((device >> 32) & 0xffff_f000) | ((device >> 8) & 0xfff);
    let minor = ((device >> 12) & 0xffff_ff00) | (device & 0xff);
    format!(in alloc; "{major}:{minor}")
}

// The kind of file system that a line of `mountinfo` has for this device: the word after the separator, a
// dash (proc(5), mountinfo).
fn kind_on<'a>(line: &'a [u8], device: &[u8]) -> Option<&'a [u8]> {
    let mut words = line.split(|byte| *byte == b' ');
    if words.nth(2) != Some(device) {
        return None;
    }
    words.skip_while(|word| *word != b"-".as_slice()).nth(1)
}

/// In how many seconds the system has written all dirty data to the disk, with time to spare. `None` if it
/// may never do so, or if the settings can't be read.
pub(crate) fn seconds_to_disk<R: Files>(files: &R, alloc: Global, piece: &mut [u8]) -> Option<i64> {
    let expires = hundredths_in(files, alloc, EXPIRES_AFTER, piece)?;
    let looks = hundredths_in(files, alloc, LOOKS_EACH, piece)?;
    if looks == 0 {
        return None;
    }
    Some((i64::from(expires) + i64::from(looks)) * TIMES_LONGER / 100 + 1)
}

fn hundredths_in<R: Files>(files: &R, alloc: Global, place: &str, piece: &mut [u8]) -> Option<u32> {
    let Ok(said) = read_file(files, alloc, place, piece) else {
        return None;
    };
    match str::from_utf8(said.as_slice()) {
        Ok(text) => text.trim().parse().ok(),
        Err(_) => None,
    }
}
