//! Why a call ends before its child has answered.

use child_port::Fault;
use std::alloc::AllocError;
use std::io;
use std::io::ErrorKind;

/// Why a call ends before its child has answered.
#[derive(Debug, Drop)]
pub(crate) enum ChildStop {
    /// Memory was refused, which counts as no call.
    OutOfMemory,
    /// The child failed.
    Fault(Fault),
}

impl ChildStop {
    /// The stop for an error at a step: want of memory, whether the allocator or the system refused it,
    /// and otherwise the step's fault.
    pub(crate) fn of(error: &io::Error, fault: Fault) -> ChildStop {
        if is_want_of_memory(error) {
            ChildStop::OutOfMemory
        } else {
            ChildStop::Fault(fault)
        }
    }
}

impl From<AllocError> for ChildStop {
    fn from(_refusal: AllocError) -> ChildStop {
        ChildStop::OutOfMemory
    }
}

/// Whether memory was refused. The C library takes some of its own while it starts a program, so the system's
/// error for it counts too.
pub(crate) fn is_want_of_memory(error: &io::Error) -> bool {
    error.kind() == ErrorKind::OutOfMemory
}
