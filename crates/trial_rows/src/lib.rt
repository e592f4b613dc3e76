//! The rows by which programs for tests are asked, one per line of standard input, and the lines by which
//! they answer.
//!
//! A [`Row`] is a call's name and its arguments. In the line they are separated by single blanks, and each
//! argument is in hexadecimal digits, or `-` if it has no bytes. A program is [`play`] over its
//! [`Answers`], each an [`AnswerBytes`] that is put together piece by piece; `answer_line` makes a line of an
//! answer's bytes. A [`Stop`] says why a play ends before its last row.
//!
//! [`Words`] are arguments that are taken one after another. [`row_of`] and [`fault_of`] say how children
//! answer or fail, and [`verdict_of`] how a run ended. Only tests use this crate, and it has no contracts.
#![tactic(auto)]

mod answer;
mod answer_bytes;
mod arguments;
mod child_rows;
mod plays;
mod row;
mod stop;
mod verdict;
mod words;

pub use answer::answer_line;
pub use answer_bytes::AnswerBytes;
pub use arguments::{number_of, only, text_of, texts_of};
pub use child_rows::{fault_of, row_of};
pub use plays::{Answers, play};
pub use row::Row;
pub use stop::Stop;
pub use verdict::verdict_of;
pub use words::{Words, mode_of};
