//! What a run on the staged files gives.

use hook_base::{Bytes, Changes, Items, Text};

/// What a run on the staged files gives.
#[derive(Debug, Drop)]
pub struct StagedRun {
    /// Whether no hook failed.
    pub passed: bool,
    /// The report on the hooks.
    pub report: Bytes,
    /// What became of the staged files. After the run these are the fixes.
    pub changes: Changes,
    /// The ids of the unsteady hooks, in the order of the configuration. For such a hook a command was
    /// started although a result was cached at that moment, and it answered otherwise.
    pub unsteady: Items<Text>,
    /// How many commands of hooks used a cached result, so that no child was started for them. If there are
    /// more than can be counted, it is 2^64 - 1.
    pub reused: u64,
}
