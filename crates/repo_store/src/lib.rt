//! A repository that is kept in SQL: its commits, the staged files, the fixes and the cached answers of
//! children. Each change is one transaction. A cached answer is what docs/REFERENCE.md, "Cached results",
//! calls a cached result; "The store" there has the format.
//!
//! The public types are:
//! - `Store`;
//! - `StoreFault`, why a call is refused;
//! - `Digest`, of contents;
//! - `LogEntry`, a commit in the log;
//! - `StagingEdit`, a requested change of the staged files;
//! - `StagingRefusal`, which of several changes is refused, and why;
//! - `FileRef`, a file by reference;
//! - `AnswerRef`, an answer by reference;
//! - `StoredAnswer`, a copy of a cached answer;
//! - `StoreBook`, a store as a book.
//!
//! The constants are the limits.
//!
//! Contracts cite these definitions:
//! - `specs/Repository` and `specs/Log`: the repository as plain lists;
//! - `specs/Answers`: the answers of children, and which one is cached for words and seen files;
//! - `specs/WrittenAnswers`: an answer's records, and which contents are kept for it, in which order;
//! - `specs/UsedAnswers`: the cached answers as a list with a limit, and what a use, an added answer and a
//!   changed limit make of it;
//! - `specs/Kept`, `specs/AllOrNothing` and `specs/Contents`: what each call makes of the repository, of the
//!   answers and of the contents, and which contents collide;
//! - `specs/Edits`: what several changes of the staged files make of them;
//! - `specs/Clashes`: which paths can't be in one tree;
//! - `specs/FileRefs`: a file that is shown by reference;
//! - `specs/AnswerRefs` and `specs/Remembering`: an answer that is given by reference or returned as a copy,
//!   and what a store makes of one that it is to cache;
//! - `specs/Limits` and `specs/Faults` of `store_faults`: the limits, and the refusals with when each may
//!   come;
//! - `specs/Rows` and `specs/RowRules`: the tables of a repository, and the rules of their rows;
//! - `specs/Bounded` and `specs/UsesOf`: what a store holds, the rules of a store with a limit, how its uses
//!   give the order of the answers, and how version 1 is migrated;
//! - `specs/Sound` and `specs/SoundAnswers`: a repository in order and within the limits, and such an answer;
//! - `specs/Complete`: a complete repository, with its contents;
//! - `specs/Calls` and `specs/Shown`: what is seen of a store, and what a refusal or a crash leaves;
//! - `specs/StoreBooks`: a store as a book;
//! - `specs/Unfit`: why a database isn't opened;
//! - `specs/AnswerLemmas` and `specs/RestLemmas`: lemmas that callers need. They say which cached answer is
//!   found, what caching one changes of that, and what rests over calls of a store as a book.
//!
//! The other files of `specs` serve private functions only.
//!
//! [`laws`] says that a database holds at most one complete repository. It also says that what the calls and
//! a crash leave is never taken for a damaged store or for none.
#![tactic(auto)]

mod accept;
mod accepted;
mod answer_contents;
mod answer_list;
mod answer_puts;
mod answer_ref;
mod answer_search;
mod blobs;
mod clashes;
mod commit;
mod contents;
mod create;
mod differences;
mod digest;
mod edits;
mod few_fixes;
mod file_ref;
mod files;
mod fixed_files;
mod fixes;
mod forget;
mod from_rows;
mod known_digests;
pub mod laws;
mod limits;
mod lists;
mod log_entry;
mod look_ups;
mod migrate;
mod mode;
mod opening;
mod remember;
mod shared;
mod shared_answer;
mod shared_edit;
mod stage;
mod staging_edit;
mod staging_refusal;
mod store;
mod store_book;
mod stored_answer;
mod table_rows;
mod take_over;
mod trees;
mod unstage;
mod uses;

pub use answer_ref::AnswerRef;
pub use digest::Digest;
pub use file_ref::FileRef;
pub use log_entry::LogEntry;
pub use staging_edit::StagingEdit;
pub use staging_refusal::{StagingFault, StagingRefusal};
pub use store::Store;
pub use store_book::StoreBook;
pub use store_faults::{
    FIRST_LIMIT, MOST_ANSWERS, MOST_COMMITS, MOST_CONTENT_BYTES, MOST_FILES, MOST_TREE_PATH_BYTES,
    StoreFault,
};
pub use stored_answer::StoredAnswer;
