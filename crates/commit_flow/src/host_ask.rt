//! What is asked of a run on the staged files.

use hook_base::{Items, Text};
use run_options::RunOptions;

/// What is asked of a run on the staged files.
#[derive(Debug, Drop)]
pub struct HostAsk {
    /// The files that hooks may get.
    pub which: Which,
    /// The id or alias of the hooks that are run, or `None` for all of the stage.
    pub only: Option<Text>,
    /// The stage whose hooks are run.
    pub stage: AskStage,
    /// The ids and aliases of hooks that are skipped.
    pub skip: Items<Text>,
    /// Whether every child is to be started, even if its answer is cached.
    pub fresh: bool,
    /// How the staged configuration is changed. In a cautious run no failure comes from the cache: only an
    /// answer that passed may be used.
    pub options: RunOptions,
}

/// The staged files that the hooks of a run may get.
#[derive(Debug, Drop)]
pub enum Which {
    /// Those that differ from the last commit.
    Changed,
    /// All of them.
    All,
    /// Those with these names, which are texts that needn't be paths.
    Named(Items<Text>),
}

/// A stage that a run may be asked for.
#[derive(Clone, Copy, Debug, PartialEq, Eq)]
pub enum AskStage {
    /// The hooks that run before a commit.
    PreCommit,
    /// The hooks that run after a commit.
    PostCommit,
    /// The hooks that run only on request.
    Manual,
}
