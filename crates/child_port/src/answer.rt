//! What became of a child.

use crate::Fault;
use hook_base::{Bytes, Changes};

/// What a completed child answered.
#[derive(Clone, Debug, Drop, PartialEq, Eq)]
pub struct Answer {
    /// Its exit code, from 0 to 255.
    pub status: u8,
    /// Its standard output, followed by its standard error.
    pub output: Bytes,
    /// What became of the files of the tree that it ran on.
    pub changes: Changes,
}

/// What became of a child.
#[derive(Clone, Debug, Drop, PartialEq, Eq)]
pub enum Outcome {
    /// It completed with this answer.
    Done(Answer),
    /// It failed, and has no answer.
    Failed(Fault),
}
