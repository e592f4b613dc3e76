//! What stays the same throughout a run.

use crate::RunAsk;
use hook_config::{Config, Hook};
use path_select::Candidates;

/// What stays the same throughout a run: what is asked, the hooks, the width of the report, and the
/// candidates that pass the patterns of the whole configuration.
#[derive(Drop)]
pub(crate) struct RunContext<'a> {
    pub(crate) config: &'a Config,
    pub(crate) ask: &'a RunAsk,
    pub(crate) hooks: Vec<&'a Hook>,
    pub(crate) among: Candidates<'a>,
    /// The width of the report in columns.
    pub(crate) columns: usize,
}
