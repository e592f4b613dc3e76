//! Which files the words of `add` and `rm` name, as far as that is decided apart from the disk and the store.
//!
//! A word may name a folder, with slashes at its end ([`without_slashes`], [`is_working_folder`]). It names the
//! files whose paths begin with [`beginning_below`]. Of a folder of the disk, `add` takes the names for which
//! [`is_left_out`] is false, each at the path [`path_in`].
//!
//! The contracts cite `specs/Words.antt`.
#![tactic(auto)]

mod folders;
mod named_paths;
mod words;

pub use folders::{is_left_out, is_of_repository, path_in};
pub use named_paths::NamedPaths;
pub use words::{beginning_below, begins_with, is_working_folder, without_slashes};
