//! Why a play ends before its last line.

use hook_base::{OutOfMemory, PathFault};
use sqlite::Error;
use std::alloc::{AllocError, AllocFailed};
use std::io;

#[derive(Clone, Copy)]
pub(crate) enum Stop {
    /// The program's arguments name no disk.
    Usage,
    /// The line isn't a command, or is one that can't be played.
    BadLine,
    /// The program itself was refused memory, outside the store's calls.
    OutOfMemory,
    /// Standard input can't be read, or standard output can't be written.
    Io,
    /// The database refused something that no line asks for.
    Database,
}

impl Stop {
    /// The exit status of the program.
    pub(crate) fn status(self) -> u8 {
        match self {
            Stop::Usage | Stop::BadLine => 2,
            Stop::OutOfMemory => 3,
            Stop::Io | Stop::Database => 1,
        }
    }

    /// The text on standard error.
    pub(crate) fn message(self) -> &'static str {
        match self {
            Stop::Usage =>
                "usage: store_trial FILE, or store_trial log NUMBER, or store_trial database NUMBER",
            Stop::BadLine => "store_trial: this line can't be played",
            Stop::OutOfMemory => "store_trial: out of memory",
            Stop::Io => "store_trial: input or output failed",
            Stop::Database => "store_trial: the database refused",
        }
    }
}

impl From<io::Error> for Stop {
    fn from(error: io::Error) -> Stop {
        if error.kind() == io::ErrorKind::OutOfMemory {
            Stop::OutOfMemory
        } else {
            Stop::Io
        }
    }
}

impl From<PathFault> for Stop {
    fn from(fault: PathFault) -> Stop {
        match fault {
            PathFault::OutOfMemory => Stop::OutOfMemory,
            _ => Stop::BadLine,
        }
    }
}

impl From<Error> for Stop {
    fn from(_refused: Error) -> Stop {
        Stop::Database
    }
}

impl From<OutOfMemory> for Stop {
    fn from(_refused: OutOfMemory) -> Stop {
        Stop::OutOfMemory
    }
}

impl From<AllocError> for Stop {
    fn from(_refused: AllocError) -> Stop {
        Stop::OutOfMemory
    }
}

impl<T: Drop> From<AllocFailed<T>> for Stop {
    fn from(_refused: AllocFailed<T>) -> Stop {
        Stop::OutOfMemory
    }
}
