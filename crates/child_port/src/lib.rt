//! The children that a run starts: what a child answers, how it can fail, and the trait `Children` of
//! everything that starts them.
//!
//! `Outcome` is what became of a child, `Answer` what a completed one answered, and `Fault` how one failed.
//! [`seen_of`] says which files a child has seen, [`is_stray`] whether an answer changes others, and
//! [`plain_word`] which path a word may be. `News` is what a run reports of itself while it goes on, and
//! `ChildAsk` what it may ask next. `TableChildren` answers from a table of `TableRow`s, and `FuseChildren` answers as others do, except for
//! one call.
//!
//! The contracts cite `specs/Telling.antt`, `specs/Outcomes.antt`, `specs/Seen.antt`, `specs/Tables.antt`,
//! `specs/Fuses.antt` and `specs/Limits.antt`. [`laws`] says that the limit in the code is that of the
//! definitions.
#![tactic(auto)]

mod answer;
mod child_ask;
mod children;
mod fault;
mod fuse;
mod indexed_files;
pub mod laws;
mod limits;
mod news;
mod path_index;
mod seen;
mod seen_indexes;
mod table;
mod table_outcome;
mod table_row;
mod words;

pub use answer::{Answer, Outcome};
pub use child_ask::ChildAsk;
pub use children::Children;
pub use fault::Fault;
pub use fuse::FuseChildren;
pub use limits::MOST_OUTPUT_BYTES;
pub use news::News;
pub use seen::{is_stray, seen_of};
pub use table::TableChildren;
pub use table_row::TableRow;
pub use words::plain_word;
