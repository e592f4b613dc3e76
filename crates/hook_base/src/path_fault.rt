//! The reasons why a text is refused as a path (docs/REFERENCE.md, "Paths").

ghost use Rattle.std.specs.Prelude.{◌≡◌};
ghost use Rattle.hook_base.specs.PathFaults.{path_fault_number};
ghost use Rattle.hook_base.specs.declared.path_fault.PathFault.TheVariants.{OutOfMemory};

use crate::MOST_PATH_BYTES;
use std::alloc::{AllocError, AllocFailed};
use thiserror::Error;

/// Why a text is refused as a path inside a repository. If there are several reasons, the first in this order
/// is given: `Empty`, `TooLong`, `ControlByte`, `Absolute`, `EmptyPart`, `DotPart`, `UnderGit`,
/// `OutOfMemory`.
#[derive(Clone, Copy, Debug, PartialEq, Eq, Error)]
pub enum PathFault {
    /// The text has no bytes.
    #[error("the path is empty")]
    Empty,
    /// The path begins with a slash.
    #[error("the path begins with a slash")]
    Absolute,
    /// A part is `.` or `..`.
    #[error("the path has a part . or ..")]
    DotPart,
    /// A part between slashes, or the last one, has no bytes.
    #[error("the path has an empty part")]
    EmptyPart,
    /// The text has more than [`MOST_PATH_BYTES`](crate::MOST_PATH_BYTES) (4,096) bytes.
    #[error("the path has more than {} bytes", MOST_PATH_BYTES)]
    TooLong,
    /// A byte is under 32, or is 127.
    #[error("the path has a control byte")]
    ControlByte,
    /// The first part is `.git`.
    #[error("the path lies under .git")]
    UnderGit,
    /// Memory was refused. The text has none of the other faults.
    #[error("out of memory")]
    OutOfMemory,
}

impl PathFault {
    /// The refusal's number, from 1 to 8.
    pub fn number(&self) -> u8
        ensures { result ≡ path_fault_number self.now }
    {
        match self {
            PathFault::Empty => 1,
            PathFault::Absolute => 2,
            PathFault::DotPart => 3,
            PathFault::EmptyPart => 4,
            PathFault::TooLong => 5,
            PathFault::ControlByte => 6,
            PathFault::UnderGit => 7,
            PathFault::OutOfMemory => 8,
        }
    }
}

impl From<AllocError> for PathFault {
    ghost from_gives = { λ _ fault. fault ≡ OutOfMemory };

    fn from(_refused: AllocError) -> Self {
        PathFault::OutOfMemory
    }
}

impl<T: Drop> From<AllocFailed<T>> for PathFault {
    ghost from_gives = { λ _ fault. fault ≡ OutOfMemory };

    fn from(_refused: AllocFailed<T>) -> Self {
        PathFault::OutOfMemory
    }
}
