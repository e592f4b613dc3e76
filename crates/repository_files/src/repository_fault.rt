//! Why the files of a repository can't be used.

use repo_store::StoreFault;
use sqlite::ErrorCode;
use thiserror::Error;

/// Why the files of a repository can't be used, or why a repository can't be made.
#[derive(Clone, Copy, Debug, PartialEq, Eq, Error)]
pub enum RepositoryFault {
    /// The store's file can't be used.
    #[error("the store's file cannot be used")]
    CannotUseStore,
    /// The lock can't be taken.
    #[error("the lock cannot be had")]
    CannotUseLock,
    /// The store can't be made or opened.
    #[error("{0}")]
    NoStore(StoreFault),
}

impl RepositoryFault {
    ghost use Rattle.std.specs.Prelude.{◌≡◌};
    ghost use Rattle.repository_files.specs.RepositoryFaults.{of_database};

    /// What an error of the store's database means: if the file is at fault, it can't be used, and any other
    /// error is the store's.
    pub(crate) fn of_database(error: sqlite::Error) -> RepositoryFault
        ensures { result ≡ of_database error }
    {
        match error {
            sqlite::Error::SqliteFailure(
                ErrorCode::CannotOpen
                | ErrorCode::DatabaseBusy
                | ErrorCode::NotADatabase
                | ErrorCode::DatabaseCorrupt
                | ErrorCode::SystemIoFailure,
            ) => RepositoryFault::CannotUseStore,
            error => RepositoryFault::NoStore(StoreFault::from(error)),
        }
    }
}
