//! The records of a cached result: the words of a command, the files that its child saw and what became of
//! files, as bytes, and the way back.
//!
//! [`words_record`], [`seen_record`] and [`changes_record`] make the bytes, and [`read_words`], [`read_seen`]
//! and [`read_changes`] read them. A record has the SHA-256 of contents instead of these (`SeenFile`,
//! `ChangedFile`), and the caller computes it. It has at most [`MOST_RECORD_BYTES`] bytes.
//!
//! The contracts cite `specs/Records.antt` (the bytes of each record), `specs/Reading.antt` (which bytes are
//! the record of a value) and `specs/Limits.antt`; `specs/Items.antt` serves private functions alone.
//! [`laws`] says that a record determines the value that it was made of.
#![tactic(auto)]

mod changed_file;
mod changes;
mod draft;
mod fields;
mod item;
pub mod laws;
mod limits;
mod list;
mod record_fault;
mod rising;
mod seen;
mod seen_file;
mod unread;
mod words;

pub use changed_file::ChangedFile;
pub use changes::{changes_record, read_changes};
pub use limits::MOST_RECORD_BYTES;
pub use record_fault::RecordFault;
pub use seen::{read_seen, seen_record};
pub use seen_file::SeenFile;
pub use words::{read_words, words_record};
