//! What hooks about a message give.

use hook_base::{Bytes, Content};

/// What the hooks of a stage about a message give.
#[derive(Debug, Drop)]
pub struct MessageRun {
    /// Whether no hook failed.
    pub passed: bool,
    /// The report on the hooks.
    pub report: Bytes,
    /// The message that the hooks leave. It is empty if one deleted its file.
    pub message: Content,
}
