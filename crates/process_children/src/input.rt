//! The standard input of the children of a run. By its lock a later run sees that one of them is still alive.

use os::RangeLock;
use std::fs::{File, Files, OpenOptions};
use std::os::fd::AsRawFd;
use std::{fs, io};

// The file that is always empty (null(4)).
const NOTHING: &str = "/dev/null";

/// Opens the standard input of a child. The processes that it starts share it, unless they open another. It
/// is empty, and holds a lock until the last of them has ended or closed it (fcntl(2), "Open file description
/// locks"). The lock is on a byte of `/dev/null` that distinguishes its run from others. If it can't be
/// locked, it is empty all the same.
pub(crate) fn open<R: Files<File = File>>(files: &R, byte: u64) -> io::Result<File> {
    let file = fs::open(files, NOTHING)?;
    let _locked = os::try_lock_range(file.as_raw_fd(), RangeLock::Shared, byte, 1);
    Ok(file)
}

/// Whether a living process has a child's standard input that is locked on this byte.
pub(crate) fn is_open<R: Files<File = File>>(files: &R, byte: u64) -> bool {
    match OpenOptions::new().write(true).open(files, NOTHING) {
        Ok(file) => {
            let locked = os::try_lock_range(file.as_raw_fd(), RangeLock::Exclusive, byte, 1);
            locked < 0 && os::errno() == libc::EAGAIN
        }
        Err(_) => false,
    }
}
