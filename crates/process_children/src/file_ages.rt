//! What the times of files show in a run.

use crate::file_system::{seconds_to_disk, stamps_writes};
use crate::stamp::{Moment, Stamp};
use std::alloc::Global;
use std::fs::{Files, Metadata};
use std::os::unix::fs::MetadataExt;

/// What the times of files show in a run. Take a file that was last changed as long ago as is asked here, and
/// that still has the stamp that it had when it was read. It contains what was read. For any later change
/// gives it another stamp, even one through what was opened before.
#[derive(Clone, Copy, Debug)]
pub(crate) enum FileTimes {
    /// Nobody has asked yet.
    Unasked,
    /// They show nothing.
    Mute,
    /// They show who can have changed a file, by when it was last changed.
    Telling(Ages),
}

/// The moments of the file system's clock that count in a run.
#[derive(Clone, Copy, Debug)]
pub(crate) struct Ages {
    device: u64,
    // What was last changed before this was on the disk before the run.
    settled: Moment,
    // What was last changed before this wasn't changed by the run's children.
    first_child: Option<Moment>,
}

impl FileTimes {
    /// Asks, once in a run, by the metadata of something that was made in the scratch folder just before.
    pub(crate) fn ask<R: Files>(
        &mut self,
        files: &R,
        alloc: Global,
        made: &Metadata,
        piece: &mut [u8],
    ) {
        if matches!(self, FileTimes::Unasked) {
            *self = match ages_of(files, alloc, made, piece) {
                Some(ages) => FileTimes::Telling(ages),
                None => FileTimes::Mute,
            };
        }
    }

    /// Notes that a child is about to be started, if it is the first. The scratch folder was changed just
    /// before.
    pub(crate) fn child_starts(&mut self, folder: &Metadata) {
        if let FileTimes::Telling(ages) = self {
            if ages.first_child.is_none() {
                ages.first_child = Some(if folder.dev() == ages.device {
                    Moment::of_change(folder)
                } else {
                    ages.settled
                });
            }
        }
    }

    /// Whether it is known that no child was started yet.
    pub(crate) fn is_before_children(&self) -> bool {
        match self {
            FileTimes::Telling(ages) => ages.first_child.is_none(),
            FileTimes::Unasked | FileTimes::Mute => false,
        }
    }

    /// The device on which every change of a file shows in its stamp, if it is known to.
    pub(crate) fn device(&self) -> Option<u64> {
        match self {
            FileTimes::Telling(ages) => Some(ages.device),
            FileTimes::Unasked | FileTimes::Mute => None,
        }
    }

    /// Whether a file was last changed so long before the run that no process has unwritten changes of it in
    /// its memory.
    pub(crate) fn are_settled(&self, stamp: &Stamp) -> bool {
        match self {
            FileTimes::Telling(ages) => {
                stamp.device() == ages.device && stamp.changed().is_before(ages.settled)
            }
            FileTimes::Unasked | FileTimes::Mute => false,
        }
    }

    /// Whether a file was last changed before the run's first child. If this run has made the file, no
    /// process has it open then.
    pub(crate) fn precede_children(&self, stamp: &Stamp) -> bool {
        match self {
            FileTimes::Telling(
                Ages {
                    device,
                    first_child: Some(first),
                    settled: _,
                },
            ) => stamp.device() == *device && stamp.changed().is_before(*first),
            _ => false,
        }
    }
}

fn ages_of<R: Files>(files: &R, alloc: Global, made: &Metadata, piece: &mut [u8]) -> Option<Ages> {
    if !stamps_writes(files, alloc, made, piece) {
        return None;
    }
    let seconds = seconds_to_disk(files, alloc, piece)?;
    Some(Ages {
        device: made.dev(),
        settled: Moment::of_change(made).earlier_by(seconds),
        first_child: None,
    })
}
