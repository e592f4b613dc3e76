//! Paths, trees of files and the changes between them.
//!
//! `RepoPath` is a path inside a repository; `PathFault` says why a text isn't one. `Tree` has the files of
//! one moment in the order of their paths (`File`, `FileEntry`, `Mode`). `Changes` says what a program did to
//! the files of a tree (`Change`).
//!
//! Trees share their files (`SharedFile`) and the rows that they have in common (`Base`). `LiveRows` says
//! which of these rows one tree still has. Files share their bytes (`Content`). Crates that build on this one
//! take the collections and `OutOfMemory` of `owned_lists` from here.
//!
//! The contracts cite `specs/Paths.antt`, `specs/PathFaults.antt`, `specs/Rising.antt`, `specs/Trees.antt`
//! and `specs/Limits.antt`; `specs/Places.antt` and `specs/Overlays.antt` serve private functions alone.
//! [`laws`] says that the limits in the code are those of the definitions.
#![tactic(auto)]

mod base_rows;
mod change;
mod changes;
mod content;
mod file;
pub mod laws;
mod limits;
mod live_rows;
mod path_check;
mod path_fault;
mod repo_path;
mod row_order;
mod row_place;
mod row_state;
mod row_states;
mod rows;
mod shared_file;
mod tree;

pub use change::Change;
pub use changes::Changes;
pub use content::Content;
pub use file::{File, FileEntry, Mode};
pub use limits::{MOST_FILE_BYTES, MOST_PATH_BYTES};
pub use owned_lists::{Bytes, Items, OutOfMemory, Text, copy_texts};
pub use path_fault::PathFault;
pub use repo_path::RepoPath;
pub use shared_file::SharedFile;
pub use tree::Tree;
