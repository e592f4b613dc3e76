//! The refusals of the calls on a store, with the numbers and names of docs/REFERENCE.md, "The store".

use answer_records::RecordFault;
use hook_base::OutOfMemory;
use sqlite::ErrorCode;
use std::alloc::{AllocError, AllocFailed};
use thiserror::Error;

/// Why a call on a store is refused. What the store shows is as it was before the call. So are the tables, as
/// long as the connection is open. After a crash, and when a fault of the disk has shut the connection, the
/// file holds the state before the call or all of its change.
#[derive(Clone, Copy, Debug, PartialEq, Eq, Error)]
pub enum StoreFault {
    /// The opened database holds no store, or one of an unknown version.
    #[error("the database holds no store of a version that is known")]
    NotAStore,
    /// The tables of the opened database break a rule of a store.
    #[error("the store is damaged")]
    Damaged,
    /// The database refused, for another reason than lack of memory; no contract says when. It is the error
    /// code `NameTaken` if a store is made in a database that has tables, indexes or views already.
    #[error("{0}")]
    Sql(sqlite::Error),
    /// Memory was refused.
    #[error("out of memory")]
    OutOfMemory,
    /// Other bytes are kept under the same digest.
    #[error("other contents have the same digest")]
    Collision,
    /// Contents, a message or a record of a cached answer have more than 16 MiB.
    #[error("contents, a message or a record of more than 16 MiB")]
    TooLarge,
    /// There would be more than 100,000 commits, or a staged tree of more than 100,000 files or 8 MiB of
    /// paths.
    #[error("more commits, staged files or paths than a store takes")]
    TooMany,
}

impl StoreFault {
    ghost use Rattle.std.specs.Prelude.{◌≡◌};
    ghost use Rattle.store_faults.specs.Faults.{store_fault_name, store_fault_number};

    /// The number of the refusal, from 1 to 7.
    pub fn number(&self) -> u8
        ensures { result ≡ store_fault_number self.now }
    {
        match self {
            StoreFault::NotAStore => 1,
            StoreFault::Damaged => 2,
            StoreFault::Sql(_) => 3,
            StoreFault::OutOfMemory => 4,
            StoreFault::Collision => 5,
            StoreFault::TooLarge => 6,
            StoreFault::TooMany => 7,
        }
    }

    /// The refusal's name, as it is printed after its number.
    pub fn name(&self) -> &'static str
        ensures { result.now ≡ store_fault_name self.now }
    {
        match self {
            StoreFault::NotAStore => "NotAStore",
            StoreFault::Damaged => "Damaged",
            StoreFault::Sql(_) => "Sql",
            StoreFault::OutOfMemory => "OutOfMemory",
            StoreFault::Collision => "Collision",
            StoreFault::TooLarge => "TooLarge",
            StoreFault::TooMany => "TooMany",
        }
    }
}

impl From<sqlite::Error> for StoreFault {
    ghost use Rattle.std.specs.Prelude.{◌≡◌};
    ghost use Rattle.store_faults.specs.Faults.{fault_of};

    ghost from_gives = { λ error fault. fault ≡ fault_of error };

    /// Lack of memory becomes `OutOfMemory`, and every other error of the database becomes `Sql`.
    fn from(error: sqlite::Error) -> StoreFault {
        fault_of(error)
    }
}

impl From<OutOfMemory> for StoreFault {
    ghost use Rattle.std.specs.Prelude.{◌≡◌};
    ghost use Rattle.store_faults.specs.declared.fault.StoreFault.TheVariants.{OutOfMemory as Wanting};

    ghost from_gives = { λ _ fault. fault ≡ Wanting };

    fn from(_refused: OutOfMemory) -> StoreFault {
        StoreFault::OutOfMemory
    }
}

impl From<RecordFault> for StoreFault {
    ghost use Rattle.std.specs.Prelude.{◌≡◌};
    ghost use Rattle.store_faults.specs.Faults.{record_fault};

    ghost from_gives = { λ refused fault. fault ≡ record_fault refused };

    /// A record over its limit becomes `TooLarge`, and lack of memory becomes `OutOfMemory`.
    fn from(refused: RecordFault) -> StoreFault {
        match refused {
            RecordFault::TooLarge => StoreFault::TooLarge,
            RecordFault::OutOfMemory => StoreFault::OutOfMemory,
        }
    }
}

impl From<AllocError> for StoreFault {
    ghost use Rattle.std.specs.Prelude.{◌≡◌};
    ghost use Rattle.store_faults.specs.declared.fault.StoreFault.TheVariants.{OutOfMemory};

    ghost from_gives = { λ _ fault. fault ≡ OutOfMemory };

    fn from(_refused: AllocError) -> StoreFault {
        StoreFault::OutOfMemory
    }
}

impl<T: Drop> From<AllocFailed<T>> for StoreFault {
    ghost use Rattle.std.specs.Prelude.{◌≡◌};
    ghost use Rattle.store_faults.specs.declared.fault.StoreFault.TheVariants.{OutOfMemory};

    ghost from_gives = { λ _ fault. fault ≡ OutOfMemory };

    fn from(_refused: AllocFailed<T>) -> StoreFault {
        StoreFault::OutOfMemory
    }
}

ghost use Rattle.std.specs.Prelude.{◌≡◌};
ghost use Rattle.store_faults.specs.Faults.{IsRefusal};
ghost use Rattle.store_faults.specs.Faults as spec;

/// The refusal for an error of the database: lack of memory becomes `OutOfMemory`, every other error `Sql`.
pub fn fault_of(error: sqlite::Error) -> StoreFault
    ensures exact { result ≡ spec.fault_of error }
    ensures why { IsRefusal ⊥ ⊥ ⊥ result }
{
    match error {
        sqlite::Error::SqliteFailure(ErrorCode::OutOfMemory) => StoreFault::OutOfMemory,
        other => StoreFault::Sql(other),
    }
}
