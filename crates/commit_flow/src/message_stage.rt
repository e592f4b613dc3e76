//! The stages about a message.

/// A stage whose hooks get a message.
#[derive(Clone, Copy, Debug, PartialEq, Eq)]
pub enum MessageStage {
    /// The hooks that may prepare the message (githooks(5), "prepare-commit-msg").
    PrepareCommitMsg,
    /// The hooks that may normalize the message, or refuse it (githooks(5), "commit-msg").
    CommitMsg,
}
