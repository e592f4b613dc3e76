//! Why a call of a book is refused.

ghost use Rattle.std.specs.Prelude.{◌≡◌};
ghost use Rattle.result_book.specs.Faults.{book_fault_number};

use hook_base::OutOfMemory as Refused;
use std::alloc::{AllocError, AllocFailed};
use store_faults::StoreFault;
use thiserror::Error;

/// Why a call of a book is refused. The book has the same answers as before the call.
#[derive(Clone, Copy, Debug, PartialEq, Eq, Error)]
pub enum BookFault {
    /// Memory was refused.
    #[error("out of memory")]
    OutOfMemory,
    /// The store that keeps the answers refuses, for a reason other than want of memory.
    #[error("the store refuses: {0}")]
    Store(StoreFault),
}

impl BookFault {
    /// The number of the fault: 1 or 2.
    pub fn number(&self) -> u8
        ensures { result ≡ book_fault_number self.now }
    {
        match self {
            BookFault::OutOfMemory => 1,
            BookFault::Store(_) => 2,
        }
    }
}

impl From<StoreFault> for BookFault {
    ghost use Rattle.result_book.specs.Faults.{book_fault_of_store};

    ghost from_gives = { λ fault refusal. refusal ≡ book_fault_of_store fault };

    /// Want of memory becomes `OutOfMemory`, and every other fault `Store`.
    fn from(fault: StoreFault) -> Self {
        match fault {
            StoreFault::OutOfMemory => BookFault::OutOfMemory,
            other => BookFault::Store(other),
        }
    }
}

impl From<Refused> for BookFault {
    ghost use Rattle.result_book.specs.declared.book_fault.BookFault.TheVariants.{OutOfMemory};

    ghost from_gives = { λ _ fault. fault ≡ OutOfMemory };

    fn from(_refused: Refused) -> Self {
        BookFault::OutOfMemory
    }
}

impl From<AllocError> for BookFault {
    ghost use Rattle.result_book.specs.declared.book_fault.BookFault.TheVariants.{OutOfMemory};

    ghost from_gives = { λ _ fault. fault ≡ OutOfMemory };

    fn from(_refused: AllocError) -> Self {
        BookFault::OutOfMemory
    }
}

impl<T: Drop> From<AllocFailed<T>> for BookFault {
    ghost use Rattle.result_book.specs.declared.book_fault.BookFault.TheVariants.{OutOfMemory};

    ghost from_gives = { λ _ fault. fault ≡ OutOfMemory };

    fn from(_refused: AllocFailed<T>) -> Self {
        BookFault::OutOfMemory
    }
}
