//! The refusals of a path by their names.

use hook_base::PathFault;
use std::alloc::Global;
use trial_rows::{AnswerBytes, Stop};

const FAULTS: &[PathFault] = &[
    PathFault::Empty,
    PathFault::Absolute,
    PathFault::DotPart,
    PathFault::EmptyPart,
    PathFault::TooLong,
    PathFault::ControlByte,
    PathFault::UnderGit,
    PathFault::OutOfMemory,
];

/// A refusal's number and its name.
pub(crate) fn refused(alloc: Global, fault: PathFault) -> AnswerBytes {
    AnswerBytes::new(alloc)
        .shown(fault.number())
        .text(" ")
        .debug(fault)
}

/// The message of a refusal with this name, after its number.
pub(crate) fn told(alloc: Global, name: &[u8]) -> Result<AnswerBytes, Stop> {
    for fault in FAULTS {
        if name_of(*fault).as_bytes() == name {
            return Ok(shown(alloc, *fault));
        }
    }
    Err(Stop::BadLine)
}

fn shown(alloc: Global, fault: PathFault) -> AnswerBytes {
    AnswerBytes::new(alloc)
        .shown(fault.number())
        .text(" ")
        .shown(fault)
}

fn name_of(fault: PathFault) -> &'static str {
    match fault {
        PathFault::Empty => "Empty",
        PathFault::Absolute => "Absolute",
        PathFault::DotPart => "DotPart",
        PathFault::EmptyPart => "EmptyPart",
        PathFault::TooLong => "TooLong",
        PathFault::ControlByte => "ControlByte",
        PathFault::UnderGit => "UnderGit",
        PathFault::OutOfMemory => "OutOfMemory",
    }
}
