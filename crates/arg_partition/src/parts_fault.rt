//! The reasons why a command can't be cut into parts.

ghost use Rattle.std.specs.Prelude.{◌≡◌};
ghost use Rattle.arg_partition.specs.PartsFaults.{parts_fault_number};
ghost use Rattle.arg_partition.specs.declared.parts_fault.PartsFault.TheVariants.{OutOfMemory};

use hook_base::OutOfMemory as Refused;
use std::alloc::{AllocError, AllocFailed};
use thiserror::Error;

/// Why a command can't be cut into parts.
#[derive(Clone, Copy, Debug, PartialEq, Eq, Error)]
pub enum PartsFault {
    /// The name at this index doesn't fit with the words alone, and each name before it does. If there are no
    /// names, the words don't fit, and the index is 0.
    #[error("the name at index {0} does not fit the command")]
    TooLong(usize),
    /// Memory was refused.
    #[error("out of memory")]
    OutOfMemory,
}

impl PartsFault {
    /// The number of the fault: 1 or 2.
    pub fn number(&self) -> u8
        ensures { result ≡ parts_fault_number self.now }
    {
        match self {
            PartsFault::TooLong(_) => 1,
            PartsFault::OutOfMemory => 2,
        }
    }
}

impl From<Refused> for PartsFault {
    ghost from_gives = { λ _ fault. fault ≡ OutOfMemory };

    fn from(_refused: Refused) -> Self {
        PartsFault::OutOfMemory
    }
}

impl From<AllocError> for PartsFault {
    ghost from_gives = { λ _ fault. fault ≡ OutOfMemory };

    fn from(_refused: AllocError) -> Self {
        PartsFault::OutOfMemory
    }
}

impl<T: Drop> From<AllocFailed<T>> for PartsFault {
    ghost from_gives = { λ _ fault. fault ≡ OutOfMemory };

    fn from(_refused: AllocFailed<T>) -> Self {
        PartsFault::OutOfMemory
    }
}
