//! The two outputs of a child, read at the same time.

ghost use Rattle.std.specs.Io.{ReadsAtMost};

use crate::contents::read_some;
use crate::stop::ChildStop;
use child_port::{Fault, MOST_OUTPUT_BYTES};
use hook_base::Bytes;
use libc::net::POLLIN;
use libc::types::pollfd;
use std::alloc::{AllocError, Global};
use std::io;
use std::io::{ErrorKind, Read};
use std::os::fd::AsRawFd;

/// The number of milliseconds for which poll(2) waits without a limit.
pub(crate) const NO_LIMIT: i32 = -1;

/// What is kept of the two outputs of a child.
#[derive(Debug, Drop)]
pub(crate) struct Outputs {
    standard_output: Vec<u8>,
    standard_error: Vec<u8>,
    kept: KeptOutput,
}

// Whether everything that was read is kept.
#[derive(Clone, Copy, Debug, PartialEq, Eq)]
enum KeptOutput {
    All,
    // There is more than a child may write, and nothing is kept.
    TooLong,
    // Memory was refused, and nothing is kept.
    OutOfMemory,
}

impl Outputs {
    /// Nothing, before the first byte is read.
    pub(crate) fn new(alloc: Global) -> Outputs {
        Outputs {
            standard_output: Vec::new(alloc),
            standard_error: Vec::new(alloc),
            kept: KeptOutput::All,
        }
    }

    /// Reads both pipes to their ends, whichever of them has something. Past the limit, or once memory is
    /// refused, what comes is dropped. So the child can still write: it isn't ended by `SIGPIPE`, nor does it
    /// wait for room in a pipe (pipe(7)).
    pub(crate) fn read_from<O: Read + AsRawFd + Drop, E: Read + AsRawFd + Drop>(
        &mut self,
        pipes: &mut Pipes<O, E>,
        piece: &mut [u8],
    ) -> io::Result<()> {
        for _ in 0..u64::MAX {
            if pipes.are_closed() {
                break;
            }
            let mut both = pipes.asked();
            wait_for_any(&mut both, NO_LIMIT)?;
            self.read_ready(pipes, both, piece)?;
        }
        Ok(())
    }

    /// Reads once from each of the pipes that has something, or is at its end.
    pub(crate) fn read_ready<O: Read + AsRawFd + Drop, E: Read + AsRawFd + Drop>(
        &mut self,
        pipes: &mut Pipes<O, E>,
        found: [pollfd; 2],
        piece: &mut [u8],
    ) -> io::Result<()> {
        if found[0].revents != 0 {
            let count = read_or_close(&mut pipes.output, piece)?;
            self.keep(Stream::Output, &piece[..count]);
        }
        if found[1].revents != 0 {
            let count = read_or_close(&mut pipes.error, piece)?;
            self.keep(Stream::Error, &piece[..count]);
        }
        Ok(())
    }

    fn keep(&mut self, stream: Stream, bytes: &[u8]) {
        if self.kept != KeptOutput::All {
            return;
        }
        let length = self
            .standard_output
            .len()
            .saturating_add(self.standard_error.len());
        if length.saturating_add(bytes.len()) > MOST_OUTPUT_BYTES {
            self.drop_all(KeptOutput::TooLong);
            return;
        }
        let kept = match stream {
            Stream::Output => self.standard_output.extend_from_slice(bytes),
            Stream::Error => self.standard_error.extend_from_slice(bytes),
        };
        if kept.is_err() {
            self.drop_all(KeptOutput::OutOfMemory);
        }
    }

    fn drop_all(&mut self, why: KeptOutput) {
        let alloc = *self.standard_output.allocator();
        self.standard_output = Vec::new(alloc);
        self.standard_error = Vec::new(alloc);
        self.kept = why;
    }

    /// The standard output followed by the standard error. `OutputTooLong` if they are longer than a child
    /// may write, and `ChildStop::OutOfMemory` if memory was refused.
    pub(crate) fn into_bytes(self) -> Result<Bytes, ChildStop> {
        let Outputs {
            standard_output: mut output,
            standard_error,
            kept,
        } = self;
        match kept {
            KeptOutput::All => {
                output.extend_from_slice(standard_error.as_slice())?;
                Ok(Bytes::from(output))
            }
            KeptOutput::TooLong => Err(ChildStop::Fault(Fault::OutputTooLong)),
            KeptOutput::OutOfMemory => Err(ChildStop::OutOfMemory),
        }
    }
}

// One of the two outputs.
#[derive(Clone, Copy, Debug)]
enum Stream {
    Output,
    Error,
}

// Reads once, and closes the pipe at its end.
fn read_or_close<P: Read + Drop>(pipe: &mut Option<P>, piece: &mut [u8]) -> io::Result<usize>
    ensures { ReadsAtMost result piece.new }
{
    let Some(open) = pipe else {
        return Ok(0);
    };
    let count = read_some(open, piece)?;
    if count == 0 {
        *pipe = None;
    }
    Ok(count)
}

/// The pipes of a child's outputs. One that was read to its end is closed.
#[derive(Drop)]
pub(crate) struct Pipes<O: Drop, E: Drop> {
    output: Option<O>,
    error: Option<E>,
}

impl<O: Read + AsRawFd + Drop, E: Read + AsRawFd + Drop> Pipes<O, E> {
    /// The two pipes of a child.
    pub(crate) fn of(output: Option<O>, error: Option<E>) -> Pipes<O, E> {
        Pipes { output, error }
    }

    /// Whether both were read to their ends.
    pub(crate) fn are_closed(&self) -> bool {
        self.output.is_none() && self.error.is_none()
    }

    /// What poll(2) is asked about them.
    pub(crate) fn asked(&self) -> [pollfd; 2] {
        [
            asked(number_of(&self.output)),
            asked(number_of(&self.error)),
        ]
    }
}

// The descriptor of an open pipe, or -1, which poll(2) ignores.
fn number_of<P: AsRawFd>(pipe: &Option<P>) -> i32 {
    match pipe {
        Some(pipe) => pipe.as_raw_fd(),
        None => -1,
    }
}

fn asked(fd: i32) -> pollfd {
    pollfd {
        fd,
        events: POLLIN,
        revents: 0,
    }
}

/// Waits until one of the pipes has something to read, or is at its end, or until so many milliseconds have
/// passed. After a signal none may be (poll(2)).
pub(crate) fn wait_for_any(pipes: &mut [pollfd], milliseconds: i32) -> io::Result<()> {
    if libc::net::poll(pipes, milliseconds) < 0 {
        let error = io::Error::from_raw_os_error(os::errno());
        if error.kind() != ErrorKind::Interrupted {
            return Err(error);
        }
    }
    Ok(())
}
