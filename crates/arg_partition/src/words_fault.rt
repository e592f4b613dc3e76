//! The reasons why a text can't be cut into words.

ghost use Rattle.std.specs.Prelude.{◌≡◌};
ghost use Rattle.arg_partition.specs.WordsFaults.{words_fault_number};
ghost use Rattle.arg_partition.specs.declared.words_fault.WordsFault.TheVariants.{OutOfMemory};

use hook_base::OutOfMemory as Refused;
use std::alloc::{AllocError, AllocFailed};
use thiserror::Error;

/// Why a text can't be cut into words. A text has at most one of the first two faults.
#[derive(Clone, Copy, Debug, PartialEq, Eq, Error)]
pub enum WordsFault {
    /// The text ends inside quotes, but `NothingEscaped` doesn't apply.
    #[error("a quote is open at the end")]
    OpenQuote,
    /// The text ends after a backslash that, outside quotes or in double quotes, has nothing to escape.
    #[error("a backslash at the end escapes nothing")]
    NothingEscaped,
    /// Memory was refused.
    #[error("out of memory")]
    OutOfMemory,
}

impl WordsFault {
    /// The number of the fault, from 1 to 3.
    pub fn number(&self) -> u8
        ensures { result ≡ words_fault_number self.now }
    {
        match self {
            WordsFault::OpenQuote => 1,
            WordsFault::NothingEscaped => 2,
            WordsFault::OutOfMemory => 3,
        }
    }
}

impl From<Refused> for WordsFault {
    ghost from_gives = { λ _ fault. fault ≡ OutOfMemory };

    fn from(_refused: Refused) -> Self {
        WordsFault::OutOfMemory
    }
}

impl From<AllocError> for WordsFault {
    ghost from_gives = { λ _ fault. fault ≡ OutOfMemory };

    fn from(_refused: AllocError) -> Self {
        WordsFault::OutOfMemory
    }
}

impl<T: Drop> From<AllocFailed<T>> for WordsFault {
    ghost from_gives = { λ _ fault. fault ≡ OutOfMemory };

    fn from(_refused: AllocFailed<T>) -> Self {
        WordsFault::OutOfMemory
    }
}
