//! How many processors this process may use.

ghost use Rattle.std.specs.Prelude.{◌≤◌};

use crate::contents::{PIECE_BYTES, read_file};
use std::fs::Files;
use std::str;

// What the system says of this process (proc(5), "/proc/pid/status").
const STATUS: &str = "/proc/self/status";

// The line of it that has a bit for each processor which the process may use, in hexadecimal digits.
const ALLOWED: &[u8] = b"Cpus_allowed:";

// The time of processors that the control group of a container may use in each period, and the period, both in
// microseconds (Linux, cgroup-v2.rst, "cpu.max").
const QUOTA: &str = "/sys/fs/cgroup/cpu.max";

/// How many processors this process may use: those that it may run on (sched_setaffinity(2)), or as many as the
/// time that its control group may use, if that is less. It is 1 if the system doesn't say.
pub fn usable_processors<R: Files + AllocGlobal>(files: &R) -> usize
    ensures { 1 ≤ result }
{
    let allowed = said_at(files, STATUS).and_then(|said| allowed_in(said.as_slice()));
    let quota = said_at(files, QUOTA).and_then(|said| quota_in(said.as_slice()));
    let least = match (allowed, quota) {
        (Some(allowed), Some(quota)) if quota < allowed => quota,
        (Some(allowed), _) => allowed,
        (None, _) => 1,
    };
    if least == 0 { 1 } else { least }
}

// What the file at a place says, if it can be read.
fn said_at<R: Files + AllocGlobal>(files: &R, place: &str) -> Option<Vec<u8>> {
    let alloc = files.alloc();
    let mut piece = vec![in alloc; 0u8; PIECE_BYTES].ok()?;
    read_file(files, alloc, place, piece.as_mut_slice()).ok()
}

fn allowed_in(status: &[u8]) -> Option<usize> {
    let mut lines = status.split(|byte| *byte == b'\n');
    let mask = lines.find_map(|line| line.strip_prefix(ALLOWED))?;
    let mut count = 0usize;
    for byte in mask {
        count = count.saturating_add(bits_of(*byte));
    }
    Some(count)
}

// How many bits are set in a hexadecimal digit. Other bytes have none.
fn bits_of(byte: u8) -> usize {
    match char::from(byte).to_digit(16) {
        Some(digit) => digit.count_ones() as usize,
        None => 0,
    }
}

// `max` is no limit. Less than the time of one processor counts as one.
fn quota_in(said: &[u8]) -> Option<usize> {
    let (time, period) = str::from_utf8(said).ok()?.trim().split_once(' ')?;
    let (time, period): (usize, usize) = (time.parse().ok()?, period.parse().ok()?);
    Some(time.checked_div(period)?.max(1))
}
