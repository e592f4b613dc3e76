//! Why changes of the staged files are refused, and which of them.

ghost use Rattle.std.specs.Prelude.{◌≡◌};
ghost use Rattle.store_faults.specs.declared.fault.StoreFault.TheVariants.{OutOfMemory as Wanting};
ghost use Rattle.repo_store.specs.declared.staging_refusal.StagingFault.TheVariants.{Store};

use crate::StoreFault;
use hook_base::{OutOfMemory, PathFault};
use std::alloc::{AllocError, AllocFailed};
use thiserror::Error;

/// Why a change of the staged files is refused.
#[derive(Clone, Copy, Debug, PartialEq, Eq, Error)]
pub enum StagingFault {
    /// The text is no valid path inside a repository.
    #[error("{0}")]
    BadPath(PathFault),
    /// The path to remove isn't staged.
    #[error("the path is not staged")]
    NotStaged,
    /// The path is a folder of a staged one, or a staged one is a folder of it.
    #[error("a staged file stands at a folder of the path, or the path is a folder of one")]
    Clash,
    /// The store refuses: contents of more than 16 MiB, more files or bytes of paths than a staged tree has,
    /// or contents with the digest of others. Or lack of memory, or the database.
    #[error("{0}")]
    Store(StoreFault),
}

/// A refusal, and which of the changes it is about.
#[derive(Clone, Copy, Debug, PartialEq, Eq)]
pub struct StagingRefusal {
    /// The index of the refused change, counted from 0, or `None` if all of them are refused together.
    pub at: Option<usize>,
    /// Why it is refused.
    pub fault: StagingFault,
}

impl From<StoreFault> for StagingFault {
    ghost from_gives = { λ fault made. made ≡ Store fault };

    fn from(fault: StoreFault) -> Self {
        StagingFault::Store(fault)
    }
}

impl From<OutOfMemory> for StagingFault {
    ghost from_gives = { λ _ made. made ≡ Store Wanting };

    fn from(_refused: OutOfMemory) -> Self {
        StagingFault::Store(StoreFault::OutOfMemory)
    }
}

impl From<AllocError> for StagingFault {
    ghost from_gives = { λ _ made. made ≡ Store Wanting };

    fn from(_refused: AllocError) -> Self {
        StagingFault::Store(StoreFault::OutOfMemory)
    }
}

impl<T: Drop> From<AllocFailed<T>> for StagingFault {
    ghost from_gives = { λ _ made. made ≡ Store Wanting };

    fn from(_refused: AllocFailed<T>) -> Self {
        StagingFault::Store(StoreFault::OutOfMemory)
    }
}

impl From<PathFault> for StagingFault {
    ghost use Rattle.repo_store.specs.Edits.{staging_fault_of_path};

    ghost from_gives = { λ fault made. made ≡ staging_fault_of_path fault };

    /// Lack of memory becomes the store's `OutOfMemory`, and every other fault becomes `BadPath`.
    fn from(fault: PathFault) -> Self {
        match fault {
            PathFault::OutOfMemory => StagingFault::Store(StoreFault::OutOfMemory),
            other => StagingFault::BadPath(other),
        }
    }
}
