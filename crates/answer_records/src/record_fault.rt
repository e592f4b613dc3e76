//! The reasons why a record can't be made.

ghost use Rattle.std.specs.Prelude.{◌≡◌};
ghost use Rattle.answer_records.specs.declared.record_fault.RecordFault.TheVariants.{OutOfMemory};

use hook_base::OutOfMemory as Refused;
use std::alloc::{AllocError, AllocFailed};
use thiserror::Error;

/// Why a record can't be made.
#[derive(Clone, Copy, Debug, PartialEq, Eq, Error)]
pub enum RecordFault {
    /// It would have more than [`MOST_RECORD_BYTES`](crate::MOST_RECORD_BYTES) bytes.
    #[error("a record of more than 16 MiB")]
    TooLarge,
    /// Memory was refused.
    #[error("out of memory")]
    OutOfMemory,
}

impl From<Refused> for RecordFault {
    ghost from_gives = { λ _ fault. fault ≡ OutOfMemory };

    fn from(_refused: Refused) -> Self {
        RecordFault::OutOfMemory
    }
}

impl From<AllocError> for RecordFault {
    ghost from_gives = { λ _ fault. fault ≡ OutOfMemory };

    fn from(_refused: AllocError) -> Self {
        RecordFault::OutOfMemory
    }
}

impl<T: Drop> From<AllocFailed<T>> for RecordFault {
    ghost from_gives = { λ _ fault. fault ≡ OutOfMemory };

    fn from(_refused: AllocFailed<T>) -> Self {
        RecordFault::OutOfMemory
    }
}
