//! Children that run at the same time.

use crate::ending::{ChildEnding, end};
use crate::outputs::{NO_LIMIT, Outputs, Pipes, wait_for_any};
use crate::stop::ChildStop;
use libc::types::pollfd;
use std::alloc::{AllocError, Global};
use std::os::fd::AsRawFd;
use std::process::{Child, OpenProcess};

/// Children that run at the same time, each with a number by which it was asked for.
#[derive(Drop)]
pub(crate) struct RunningChildren<P: OpenProcess + Drop>
where
    P::Stdout: AsRawFd,
    P::Stderr: AsRawFd,
{
    alloc: Global,
    running: Vec<RunningChild<P>>,
    pipes: Vec<pollfd>,
}

// A child, what was read of it, and whether reading went well so far.
#[derive(Drop)]
struct RunningChild<P: OpenProcess + Drop>
where
    P::Stdout: AsRawFd,
    P::Stderr: AsRawFd,
{
    number: usize,
    child: Child<P>,
    pipes: Pipes<P::Stdout, P::Stderr>,
    outputs: Outputs,
    is_read: bool,
}

impl<P: OpenProcess + Drop> RunningChildren<P>
where
    P::Stdout: AsRawFd,
    P::Stderr: AsRawFd,
{
    /// None yet, with room for so many at once.
    pub(crate) fn with_room(alloc: Global, most: usize) -> Result<RunningChildren<P>, AllocError> {
        Ok(RunningChildren {
            alloc,
            running: Vec::with_capacity(alloc, most)?,
            pipes: Vec::with_capacity(alloc, most.saturating_mul(2))?,
        })
    }

    /// How many run.
    pub(crate) fn len(&self) -> usize {
        self.running.len()
    }

    /// Adds a child that was just started. There has to be room for it: otherwise it isn't waited for.
    pub(crate) fn add(&mut self, number: usize, child: Child<P>) {
        let mut child = child;
        let pipes = Pipes::of(child.stdout.take(), child.stderr.take());
        let _added = self.running.push(RunningChild {
            number,
            child,
            pipes,
            outputs: Outputs::new(self.alloc),
            is_read: true,
        });
    }

    /// Waits until one of the children writes or closes an output, and reads that; or until so many
    /// milliseconds have passed. If the system doesn't take the question, all outputs count as not read.
    pub(crate) fn read(&mut self, piece: &mut [u8], milliseconds: i32) {
        self.pipes.clear();
        for child in self.running.iter() {
            let [output, error] = child.pipes.asked();
            let _output = self.pipes.push(output);
            let _error = self.pipes.push(error);
        }
        if wait_for_any(self.pipes.as_mut_slice(), milliseconds).is_err() {
            for child in self.running.iter_mut() {
                child.give_up();
            }
            return;
        }
        let found = self.pipes.as_slice();
        for (index, child) in self.running.iter_mut().enumerate() {
            let at = index.saturating_mul(2);
            if let (Some(output), Some(error)) = (found.get(at), found.get(at.saturating_add(1))) {
                child.read([*output, *error], piece);
            }
        }
    }

    /// Waits until all have ended.
    pub(crate) fn end_all(&mut self) {
        let mut piece = [0u8; 4_096];
        for _ in 0..u64::MAX {
            if self.len() == 0 {
                break;
            }
            self.read(&mut piece, NO_LIMIT);
            for _ in 0..self.len() {
                let _ended = self.take_ended();
            }
        }
    }

    /// Takes a child whose outputs are at their ends, and waits for its end.
    pub(crate) fn take_ended(&mut self) -> Option<(usize, Result<ChildEnding, ChildStop>)> {
        let at = self
            .running
            .iter()
            .position(|child| child.pipes.are_closed())?;
        let RunningChild {
            number,
            child,
            pipes: _,
            outputs,
            is_read,
        } = self.running.swap_remove(at);
        Some((number, end(child, outputs, is_read)))
    }
}

impl<P: OpenProcess + Drop> RunningChild<P>
where
    P::Stdout: AsRawFd,
    P::Stderr: AsRawFd,
{
    fn read(&mut self, found: [pollfd; 2], piece: &mut [u8]) {
        if self
            .outputs
            .read_ready(&mut self.pipes, found, piece)
            .is_err()
        {
            self.give_up();
        }
    }

    // Reads no more of it. It can end nevertheless, as its pipes are closed.
    fn give_up(&mut self) {
        self.pipes = Pipes::of(None, None);
        self.is_read = false;
    }
}
