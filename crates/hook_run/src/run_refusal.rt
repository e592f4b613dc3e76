//! Why a run is refused.

ghost use Rattle.std.specs.Prelude.{◌≡◌};
ghost use Rattle.hook_run.specs.Refusals.{run_refusal_name, run_refusal_number};
ghost use Rattle.hook_run.specs.declared.run_refusal.RunRefusal.TheVariants.{OutOfMemory};

use hook_base::OutOfMemory;
use result_book::BookFault;
use std::alloc::{AllocError, AllocFailed};
use thiserror::Error;

/// Why a run is refused.
#[derive(Clone, Copy, Debug, PartialEq, Eq, Error)]
pub enum RunRefusal {
    /// Memory was refused.
    #[error("out of memory")]
    OutOfMemory,
    /// The book refuses, for another reason than lack of memory.
    #[error("the remembered answers: {0}")]
    Book(BookFault),
    /// The run asks for a name that no hook of the stage has.
    #[error("no hook of the stage has that id or alias")]
    NoSuchHook,
    /// A child is needed, and the children have reported as many outcomes as can be counted, 2^64 - 1.
    #[error("no more children can be counted")]
    Spent,
}

impl RunRefusal {
    /// The refusal's number, from 1 to 4 (docs/REFERENCE.md, "A run that is asked for").
    pub fn number(&self) -> u8
        ensures { result ≡ run_refusal_number self.now }
    {
        match self {
            RunRefusal::OutOfMemory => 1,
            RunRefusal::Book(_) => 2,
            RunRefusal::NoSuchHook => 3,
            RunRefusal::Spent => 4,
        }
    }

    /// The refusal's name, as it is printed after its number.
    pub fn name(&self) -> &'static str
        ensures { result.now ≡ run_refusal_name self.now }
    {
        match self {
            RunRefusal::OutOfMemory => "OutOfMemory",
            RunRefusal::Book(_) => "Book",
            RunRefusal::NoSuchHook => "NoSuchHook",
            RunRefusal::Spent => "Spent",
        }
    }
}

impl From<OutOfMemory> for RunRefusal {
    ghost from_gives = { λ _ refusal. refusal ≡ OutOfMemory };

    fn from(_refused: OutOfMemory) -> Self {
        RunRefusal::OutOfMemory
    }
}

impl From<BookFault> for RunRefusal {
    ghost use Rattle.hook_run.specs.Refusals.{run_refusal_of_book};

    ghost from_gives = { λ fault refusal. refusal ≡ run_refusal_of_book fault };

    /// Lack of memory is `OutOfMemory`, and every other fault `Book`.
    fn from(fault: BookFault) -> Self {
        match fault {
            BookFault::OutOfMemory => RunRefusal::OutOfMemory,
            other => RunRefusal::Book(other),
        }
    }
}

impl From<AllocError> for RunRefusal {
    ghost from_gives = { λ _ refusal. refusal ≡ OutOfMemory };

    fn from(_refused: AllocError) -> Self {
        RunRefusal::OutOfMemory
    }
}
