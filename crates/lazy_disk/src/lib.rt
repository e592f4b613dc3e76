//! A disk that delays or skips what needn't be done at once.
//!
//! `LazyDisk` implements the trait `Disk` over another disk. It passes a sync on only if something may have
//! been written since the last one that passed. It delays a cut of the file until the next write, a longer
//! length or a sync. [`settled_files`] puts one over each file that `sqlite_std_file::open` gives. The
//! contracts cite `specs/LazyDisk.antt`, and [`laws`] says by `specs/DueCut.antt` what a crash may leave.
#![tactic(auto)]

#[cfg(test)]
mod call_recorder;
pub mod laws;
mod lazy_disk;
mod lazy_files;
#[cfg(test)]
mod tests;

pub use lazy_disk::LazyDisk;
pub use lazy_files::settled_files;
