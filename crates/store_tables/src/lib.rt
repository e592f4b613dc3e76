//! The tables of a store (docs/REFERENCE.md, "The store"), and every statement on them. `make_tables` makes
//! them; the other functions put rows in and take them out inside a transaction, or read a table back.
//!
//! Contracts cite these definitions:
//! - `specs/Schema`: the tables as SQL has them;
//! - `specs/Tables`: the rows that a database holds, as lists;
//! - `specs/Steps`: what a statement in a transaction leaves, also after a crash;
//! - `specs/Uses`: the table of uses, which only version 2 of a store has, with its statements in `uses`.
//!
//! `specs/Rowids` and `specs/Shape` serve private functions only.
#![tactic(auto)]

mod columns;
mod creates;
mod decode;
mod reads;
mod rowids;
mod rows;
mod schema;
mod uses;
mod writes;

pub use creates::make_tables;
pub use reads::{
    read_answers, read_blobs, read_commits, read_entries, read_fixes, read_meta, read_staged,
};
pub use rows::{AnswerRow, BlobRow, CommitRow, EntryRow, FixRow, MetaRow, StagedRow, UseRow};
pub use schema::{has_store_tables, has_uses_tables};
pub use uses::{clear_uses, make_uses, put_use, read_uses, read_uses_by_tick, take_use};
pub use writes::{
    change_nothing, clear_answers, clear_fixes, clear_staged, put_answer, put_blob, put_commit,
    put_entry, put_fix, put_meta, put_staged, replace_meta, take_answer, take_staged,
};
