//! The files of a repository: its folder, the lock that keeps other commands out, and the database of its
//! store with its log.
//!
//! [`init`] makes a repository. [`keep_out_of_git`] keeps its folder out of Git, since it may lie in a
//! checkout ([`is_in_checkout`]). A command looks for a repository with [`look_at_store`] and takes its lock
//! with [`take_lock`]. It opens the database with [`open_database`] and the store in it with [`open_store`],
//! and leaves it with [`leave_database`]. No contract can say what a file contains. The clauses say which
//! errors may come, by `specs/RepositoryFaults.antt`, and that a log which is emptied held no change.
#![tactic(auto)]

mod bare_log;
mod checkout;
mod connect;
mod database;
mod folder;
mod git_exclude;
mod new_repository;
mod repository_fault;

pub use checkout::is_in_checkout;
pub use connect::DatabaseFile;
pub use database::{Before, Database, DatabaseOver, leave_database, open_database, open_store};
pub use folder::{FOLDER, LOCK, Lock, SCRATCH, STORE, look_at_store, take_lock};
pub use git_exclude::{keep_out_of_git, replace_ignore_file};
pub use new_repository::init;
pub use repository_fault::RepositoryFault;
