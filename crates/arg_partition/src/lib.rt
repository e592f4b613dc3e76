//! The words of an entry, and the parts of a command.
//!
//! [`words`] cuts the text of an entry into words, as Python's `shlex.split` does; [`WordsFault`] says why a
//! text can't be cut. [`parts`] cuts a command with many names into parts that are short enough, each a
//! [`Cut`] of the list of names; [`PartsFault`] says which name doesn't fit. docs/REFERENCE.md describes both
//! in "The words of an entry" and "The parts of a command".
//!
//! The contracts cite `words_of` of `specs/Words.antt`, and `AreParts`, `fits` and `too_long_at` of
//! `specs/Parts.antt`. The numbers of the faults are in `specs/WordsFaults.antt` and
//! `specs/PartsFaults.antt`. `specs/WordsSoFar.antt` and `specs/Rooms.antt` serve private functions alone.
//!
//! [`laws`] says that a word is read piece by piece and a text word by word, and that quoted words
//! (`specs/Quoted.antt`) are read back. It also says that a command has one list of parts, which have all its
//! names.
#![tactic(auto)]

mod command_parts;
mod cut;
mod entry_words;
pub mod laws;
mod parts_fault;
mod reading_state;
mod room;
mod step;
mod words_fault;

pub use command_parts::parts;
pub use cut::Cut;
pub use entry_words::words;
pub use parts_fault::PartsFault;
pub use words_fault::WordsFault;
