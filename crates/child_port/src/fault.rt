//! How a child can fail.

/// How a child failed. A failure is never cached.
#[derive(Clone, Copy, Debug, PartialEq, Eq)]
pub enum Fault {
    /// It couldn't be started.
    NotStarted,
    /// It couldn't be waited for.
    WaitFailed,
    /// It ended without an exit code, for example by a signal.
    Signal,
    /// Both outputs together have more than [`MOST_OUTPUT_BYTES`](crate::MOST_OUTPUT_BYTES) (1,048,576)
    /// bytes.
    OutputTooLong,
    /// Its files couldn't be written before it ran, or couldn't be read back after it.
    ScratchFailed,
}
