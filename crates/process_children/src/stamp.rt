//! The metadata by which a file is recognized again.

use std::fs::Metadata;
use std::os::unix::fs::MetadataExt;

// A file system that keeps whole seconds, or whole thousandths of one, has no part below this, in
// nanoseconds.
const COARSE_NANOSECONDS: i64 = 1_000_000;

/// A moment, by the clock that a file system stamps its files with.
#[derive(Clone, Copy, Debug, PartialEq, Eq)]
pub(crate) struct Moment {
    seconds: i64,
    nanoseconds: i64,
}

impl Moment {
    /// The moment at which this was last changed: its bytes, its mode, its owner or one of its names
    /// (inode(7), ctime).
    pub(crate) fn of_change(found: &Metadata) -> Moment {
        Moment {
            seconds: found.ctime(),
            nanoseconds: found.ctime_nsec(),
        }
    }

    /// So many seconds earlier.
    pub(crate) fn earlier_by(self, seconds: i64) -> Moment {
        Moment {
            seconds: self.seconds.saturating_sub(seconds),
            nanoseconds: self.nanoseconds,
        }
    }

    /// Whether it comes before another.
    pub(crate) fn is_before(self, other: Moment) -> bool {
        self.seconds < other.seconds
            || self.seconds == other.seconds && self.nanoseconds < other.nanoseconds
    }

    /// This moment, or the other one if that comes later.
    pub(crate) fn or_later(self, other: Moment) -> Moment {
        if self.is_before(other) { other } else { self }
    }

    /// Whether it is a whole thousandth of a second, so that it may come from a file system that keeps no
    /// finer ones.
    pub(crate) fn is_coarse(self) -> bool {
        self.nanoseconds % COARSE_NANOSECONDS == 0
    }
}

/// The device and the inode number by which the system knows a file or folder, as long as it exists or is
/// held open.
#[derive(Clone, Copy, Debug, PartialEq, Eq)]
pub(crate) struct Identity {
    device: u64,
    number: u64,
}

impl Identity {
    /// The identity of what was found.
    pub(crate) fn of(found: &Metadata) -> Identity {
        Identity {
            device: found.dev(),
            number: found.ino(),
        }
    }
}

/// The metadata of a file. Whoever changes its bytes, or puts another file in its place, changes the stamp
/// too. The exceptions are in the module `file_ages`.
#[derive(Clone, Copy, Debug, PartialEq, Eq)]
pub(crate) struct Stamp {
    identity: Identity,
    kind_and_mode: u32,
    names: u64,
    owner: u32,
    group: u32,
    length: u64,
    written: Moment,
    changed: Moment,
}

impl Stamp {
    /// The stamp of what was found.
    pub(crate) fn of(found: &Metadata) -> Stamp {
        Stamp {
            identity: Identity::of(found),
            kind_and_mode: found.mode(),
            names: found.nlink(),
            owner: found.uid(),
            group: found.gid(),
            length: found.len(),
            written: Moment {
                seconds: found.mtime(),
                nanoseconds: found.mtime_nsec(),
            },
            changed: Moment::of_change(found),
        }
    }

    /// Whether it belongs to the file that was found, even if that was changed since.
    pub(crate) fn is_of(&self, found: &Metadata) -> bool {
        self.identity == Identity::of(found)
    }

    /// The device that the file lies on.
    pub(crate) fn device(&self) -> u64 {
        self.identity.device
    }

    /// The number of bytes.
    pub(crate) fn length(&self) -> u64 {
        self.length
    }

    /// The moment at which it was last changed.
    pub(crate) fn changed(&self) -> Moment {
        self.changed
    }
}
