//! A commit as the log shows it.

use hook_base::Bytes;

/// A commit in the log: its number, from 1 on, and its message.
#[derive(Debug, Drop)]
pub struct LogEntry {
    /// The number of the commit.
    pub number: u32,
    /// Its message.
    pub message: Bytes,
}
