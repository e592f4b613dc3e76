//! What is asked of hooks about a message.

use crate::MessageStage;
use hook_base::{Items, Text};
use run_options::RunOptions;

/// What is asked of the hooks of a stage about a message.
#[derive(Debug, Drop)]
pub struct MessageAsk {
    /// The stage.
    pub stage: MessageStage,
    /// The ids and aliases of hooks that are skipped.
    pub skip: Items<Text>,
    /// Whether every child is to be started, even if its answer is cached.
    pub fresh: bool,
    /// How the staged configuration is changed. In a cautious run no failure comes from the cache: only an
    /// answer that passed may be used.
    pub options: RunOptions,
}
