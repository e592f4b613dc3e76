//! The line of an answer.

use crate::stop::Stop;
use std::alloc::Global;

/// The line of an answer, without its end: the answer in hexadecimal digits. `OutOfMemory` if memory is
/// refused.
pub fn answer_line(alloc: Global, answer: &[u8]) -> Result<String, Stop> {
    Ok(hex::encode(alloc, answer)?)
}
