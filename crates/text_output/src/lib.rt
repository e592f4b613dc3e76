//! Texts that are written to a writer whole ([`write_out`], [`write_pieces`]), how much of a text is out
//! after an error, and paths within a line ([`write_path`]).
//!
//! The contracts cite `specs/Outputs.antt` and `specs/QuotedPaths.antt`. `specs/OutputLemmas.antt` is for
//! callers' proofs: it says what holds of texts that follow one another.
#![tactic(auto)]

mod quoted_path;
mod writing;

pub use quoted_path::write_path;
pub use writing::{Unwritten, write_out, write_pieces};
