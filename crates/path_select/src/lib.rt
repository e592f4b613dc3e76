//! Patterns over paths, and which files of a tree a hook gets.
//!
//! [`Pattern`] is a pattern in the syntax of `regex` (`PatternFault` says why a text is none). [`select`]
//! gives the files that [`Rules`] select. These are candidates whose paths pass the patterns of the whole
//! configuration and of the hook, and that have the tags that the hook asks for.
//!
//! A run with many hooks makes the [`Candidates`] once and calls [`select_kept_among`] for each hook. It
//! takes the tags that are kept for all files of a tree (`KeptTags` of the crate `file_tags`), while
//! [`select_among`] makes them again. [`laws`] says that both select what [`select`] does, and so does
//! [`select_kept`].
//!
//! The contracts cite `specs/Patterns.antt`, `specs/PatternFaults.antt`, `specs/Candidates.antt` and
//! `specs/Selection.antt`. `specs/SelectionLaws.antt` is for callers' proofs. `specs/Regexes.antt`,
//! `specs/Chosen.antt` and `specs/KeptTags.antt` serve private fields and functions only.
#![tactic(auto)]

mod candidates;
mod found_files;
mod index;
mod kept_selection;
pub mod laws;
mod path_filter;
mod path_look_up;
mod pattern;
mod pattern_fault;
mod rules;
mod search;
mod selection;
mod sorted_paths;
mod type_rules;

pub use candidates::Candidates;
pub use found_files::select_found;
pub use kept_selection::{select_kept, select_kept_among};
pub use pattern::Pattern;
pub use pattern_fault::PatternFault;
pub use rules::Rules;
pub use selection::{select, select_among};
