//! The reasons why bytes aren't read as a record.

ghost use Rattle.std.specs.Prelude.{◌≡◌};
ghost use Rattle.answer_records.specs.declared.unread.Unread.TheVariants.{OutOfMemory};

use hook_base::OutOfMemory as Refused;
use std::alloc::{AllocError, AllocFailed};

/// Why bytes aren't read as a record.
#[derive(Clone, Copy, Debug, PartialEq, Eq)]
pub(crate) enum Unread {
    /// The bytes are the record of no value.
    NoRecord,
    /// Memory was refused.
    OutOfMemory,
}

impl From<Refused> for Unread {
    ghost from_gives = { λ _ unread. unread ≡ OutOfMemory };

    fn from(_refused: Refused) -> Self {
        Unread::OutOfMemory
    }
}

impl From<AllocError> for Unread {
    ghost from_gives = { λ _ unread. unread ≡ OutOfMemory };

    fn from(_refused: AllocError) -> Self {
        Unread::OutOfMemory
    }
}

impl<T: Drop> From<AllocFailed<T>> for Unread {
    ghost from_gives = { λ _ unread. unread ≡ OutOfMemory };

    fn from(_refused: AllocFailed<T>) -> Self {
        Unread::OutOfMemory
    }
}
