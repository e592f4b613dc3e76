//! What a run gives.

use hook_base::{Bytes, Items, Text, Tree};
use report_text::HookResult;

/// What a run gives.
#[derive(Debug, Drop)]
pub struct RunOut {
    /// Whether no hook failed.
    pub passed: bool,
    /// The report on the hooks.
    pub report: Bytes,
    /// The result of each hook, in the order of the configuration, up to the last one that is run.
    pub results: Items<HookResult>,
    /// The files as the run left them.
    pub tree: Tree,
    /// The ids of the unsteady hooks, in the order of the configuration. For such a hook a command was
    /// started although a result was cached at that moment, and it answered otherwise.
    pub unsteady: Items<Text>,
}
