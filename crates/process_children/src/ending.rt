//! How a child ended.

use crate::outputs::{Outputs, Pipes};
use crate::stop::ChildStop;
use child_port::Fault;
use hook_base::Bytes;
use std::alloc::Global;
use std::io::Read;
use std::os::fd::AsRawFd;
use std::process::{Child, OpenProcess};

/// The exit status of a child that gave one, and what it wrote.
#[derive(Debug, Drop)]
pub(crate) struct ChildEnding {
    /// Its exit status.
    pub status: u8,
    /// Its standard output, followed by its standard error.
    pub output: Bytes,
}

/// Reads what the child writes until both outputs are at their ends, and waits for its end. It is waited for
/// in any case, so that none goes on while the next one runs.
///
/// `WaitFailed` if reading or waiting fails, `Signal` if a signal ended the child (wait(2), "WIFSIGNALED"),
/// and `OutputTooLong` if it wrote more than it may. Want of memory is `ChildStop::OutOfMemory`.
pub(crate) fn ending_of<P: OpenProcess + Drop>(
    alloc: Global,
    mut child: Child<P>,
    piece: &mut [u8],
) -> Result<ChildEnding, ChildStop>
where
    P::Stdout: AsRawFd,
    P::Stderr: AsRawFd,
{
    let mut outputs = Outputs::new(alloc);
    let mut pipes = Pipes::of(child.stdout.take(), child.stderr.take());
    let is_read = outputs.read_from(&mut pipes, piece).is_ok();
    end(child, outputs, is_read)
}

/// Waits for the end of a child whose outputs were read to their ends, if `is_read`. The errors are those of
/// `ending_of`.
pub(crate) fn end<P: OpenProcess + Drop>(
    mut child: Child<P>,
    outputs: Outputs,
    is_read: bool,
) -> Result<ChildEnding, ChildStop> {
    let Ok(status) = child.wait() else {
        return Err(ChildStop::Fault(Fault::WaitFailed));
    };
    if !is_read {
        return Err(ChildStop::Fault(Fault::WaitFailed));
    }
    match status.code().map(u8::try_from) {
        Some(Ok(status)) => {
            let output = outputs.into_bytes()?;
            Ok(ChildEnding { status, output })
        }
        _ => Err(ChildStop::Fault(Fault::Signal)),
    }
}
