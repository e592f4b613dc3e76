//! Tags of files, after the Python package `identify`: what a file is by its mode, its name, its first line
//! and its bytes.
//!
//! `tags_of` gives the [`Tags`] of a file, and `shebang` the words of a script's first line. [`KeptTags`]
//! are the tags of all files of a tree, each kept until its file changes.
//!
//! The contracts cite `specs/FileTags.antt`, `specs/TreeTags.antt` and `specs/Shebangs.antt`; the rules
//! look names up in `specs/TagTables.antt`. A caller sees `Tags` as the list of the tags, and `KeptTags` as
//! the list of those.
#![tactic(auto)]

mod changed_paths;
mod cuts;
mod first_line;
mod kept_tags;
pub mod laws;
mod look_up;
mod rules;
mod shared_tags;
mod tables;
mod tags;
mod tree_tags;

pub use first_line::{MOST_SHEBANG_BYTES, shebang};
pub use kept_tags::KeptTags;
pub use rules::tags_of;
pub use tags::Tags;
