//! Why a play ends before its last row.

use hex::FromHexError;
use hook_base::{OutOfMemory, PathFault};
use std::alloc::{AllocError, AllocFailed};
use std::io;

/// Why a play ends before its last row. It holds nothing, so a function that may end a play is quick to
/// check.
#[derive(Clone, Copy)]
pub enum Stop {
    /// No call has the line's first word as its name.
    NoCall,
    /// The line isn't a name and hexadecimal digits, or the call doesn't take these arguments.
    BadLine,
    /// Two ways to ask for the same gave different answers.
    TwoAnswers,
    /// The program itself was refused memory.
    OutOfMemory,
    /// Standard input can't be read, or standard output can't be written.
    Io,
}

impl Stop {
    /// The exit status of the program: 1 if input or output failed, 2 for a line that is no call, 3 if
    /// memory was refused, 4 for two answers.
    pub fn status(self) -> u8 {
        match self {
            Stop::NoCall | Stop::BadLine => 2,
            Stop::OutOfMemory => 3,
            Stop::TwoAnswers => 4,
            Stop::Io => 1,
        }
    }

    /// The message on standard error.
    pub fn message(self) -> &'static str {
        match self {
            Stop::NoCall => "no call has this name",
            Stop::BadLine => "this line is no call with its arguments",
            Stop::TwoAnswers => "two ways to ask for the same give two answers",
            Stop::OutOfMemory => "out of memory",
            Stop::Io => "input or output failed",
        }
    }
}

impl From<io::Error> for Stop {
    fn from(error: io::Error) -> Stop {
        if error.kind() == io::ErrorKind::OutOfMemory {
            Stop::OutOfMemory
        } else {
            Stop::Io
        }
    }
}

impl From<FromHexError> for Stop {
    fn from(error: FromHexError) -> Stop {
        match error {
            FromHexError::OutOfMemory => Stop::OutOfMemory,
            _ => Stop::BadLine,
        }
    }
}

impl From<PathFault> for Stop {
    fn from(fault: PathFault) -> Stop {
        match fault {
            PathFault::OutOfMemory => Stop::OutOfMemory,
            _ => Stop::BadLine,
        }
    }
}

impl From<OutOfMemory> for Stop {
    fn from(_refused: OutOfMemory) -> Stop {
        Stop::OutOfMemory
    }
}

impl From<AllocError> for Stop {
    fn from(_refused: AllocError) -> Stop {
        Stop::OutOfMemory
    }
}

impl<T: Drop> From<AllocFailed<T>> for Stop {
    fn from(_refused: AllocFailed<T>) -> Stop {
        Stop::OutOfMemory
    }
}
