//! A hook whose next part waits for its outcome.

use crate::running_hook::RunningHook;
use hook_base::{Items, Text, Tree};

/// A hook whose next part waits for its outcome.
#[derive(Drop)]
pub(crate) struct PendingPart<'a> {
    /// The hook. That part counts as begun.
    pub(crate) work: RunningHook<'a>,
    /// The command of that part, with its names.
    pub(crate) command: Items<Text>,
    /// What the child of that part sees.
    pub(crate) seen: Tree,
}
