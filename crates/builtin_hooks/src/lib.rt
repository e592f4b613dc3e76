//! The hooks of the languages `fail` and `pygrep`, which start no child: what each answers.
//!
//! `fail_answer` is the answer of a hook that always fails. `Grep` is a pattern with its flags, compiled once
//! (`GrepFault` says why it can't be), and answers for files of a tree.
//!
//! The contracts cite `specs/FailAnswer.antt`, `specs/Search.antt` (what a pattern finds), `specs/Lines.antt`
//! and `specs/GrepAnswer.antt`, and `specs/GrepFaults.antt` for the refusals. `specs/Searchers.antt` serves
//! private functions only.
#![tactic(auto)]

mod fail;
mod file_lines;
mod flags;
mod grep;
mod grep_fault;
mod grep_output;
mod line_feeds;
mod matched_file;
mod searcher;
mod written;

pub use fail::fail_answer;
pub use grep::Grep;
pub use grep_fault::GrepFault;
