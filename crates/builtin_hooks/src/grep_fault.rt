//! Why a pattern and its arguments make no `Grep`.

ghost use Rattle.std.specs.Prelude.{◌≡◌};
ghost use Rattle.builtin_hooks.specs.GrepFaults.{grep_fault_number};
ghost use Rattle.builtin_hooks.specs.declared.grep_fault.GrepFault.TheVariants.{OutOfMemory};

use std::alloc::AllocError;
use thiserror::Error;

/// Why an entry and its arguments make no [`Grep`](crate::Grep). If both are wrong, it is `BadArg`.
#[derive(Clone, Copy, Debug, PartialEq, Eq, Error)]
pub enum GrepFault {
    /// The entry is no pattern, nests too deep, or is too big once it is compiled.
    #[error("the entry is no pattern")]
    NotAPattern,
    /// An argument is none of `-i`, `--ignore-case`, `--multiline` and `--negate`.
    #[error("an argument is none of -i, --ignore-case, --multiline and --negate")]
    BadArg,
    /// Memory was refused. The arguments are known.
    #[error("out of memory")]
    OutOfMemory,
}

impl GrepFault {
    /// The refusal's number, from 1 to 3.
    pub fn number(&self) -> u8
        ensures { result ≡ grep_fault_number self.now }
    {
        match self {
            GrepFault::NotAPattern => 1,
            GrepFault::BadArg => 2,
            GrepFault::OutOfMemory => 3,
        }
    }
}

impl From<AllocError> for GrepFault {
    ghost from_gives = { λ _ fault. fault ≡ OutOfMemory };

    fn from(_refused: AllocError) -> Self {
        GrepFault::OutOfMemory
    }
}

impl From<regex::Error> for GrepFault {
    ghost use Rattle.builtin_hooks.specs.GrepFaults.{grep_fault_of_pattern};

    ghost from_gives = { λ given fault. fault ≡ grep_fault_of_pattern given };

    fn from(refused: regex::Error) -> Self {
        match refused {
            regex::Error::OutOfMemory => GrepFault::OutOfMemory,
            regex::Error::Syntax(_) | regex::Error::CompiledTooBig | regex::Error::Internal => {
                GrepFault::NotAPattern
            }
        }
    }
}
