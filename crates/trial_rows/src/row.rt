//! A row of a play.

use crate::stop::Stop;
use std::alloc::Global;

/// A call's name and its arguments.
#[derive(Drop)]
pub struct Row {
    /// The name of the call.
    pub call: String,
    /// The call's arguments, in the order of the line.
    pub arguments: Vec<Vec<u8>>,
}

impl Row {
    /// The row of a line. `BadLine` if an argument isn't hexadecimal digits, `OutOfMemory` if memory is
    /// refused.
    pub fn read(alloc: Global, line: &str) -> Result<Row, Stop> {
        let mut words = line.split(' ');
        let call = String::from_str(alloc, words.next().unwrap_or(""))?;
        let mut arguments = Vec::new(alloc);
        for word in words {
            arguments.push(argument(alloc, word)?)?;
        }
        Ok(Row { call, arguments })
    }
}

fn argument(alloc: Global, word: &str) -> Result<Vec<u8>, Stop> {
    match word {
        "" => Err(Stop::BadLine),
        "-" => Ok(Vec::new(alloc)),
        digits => Ok(hex::decode(alloc, digits)?),
    }
}
