//! What is asked of a run.

use crate::Reuse;
use hook_base::{Items, RepoPath, Text};
use hook_config::Stage;

/// What is asked of a run.
#[derive(Debug, Drop)]
pub struct RunAsk {
    /// The stage whose hooks are run.
    pub stage: Stage,
    /// The paths that hooks may get, in any order. A path may occur more than once, and the tree may have no
    /// such file.
    pub candidates: Items<RepoPath>,
    /// The id or alias of the hooks that are run, or `None` for all of the stage. The empty text is no alias.
    pub only: Option<Text>,
    /// The ids and aliases of hooks that are skipped. The empty text is no alias.
    pub skip: Items<Text>,
    /// Which cached results it may use.
    pub reuse: Reuse,
}
