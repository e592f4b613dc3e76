//! The result of a run over children and their cached results.

use crate::RunOut;

/// The result of a run over children and their cached results.
#[derive(Debug, Drop)]
pub struct HooksRun {
    /// What the run gives.
    pub out: RunOut,
    /// How many of its commands used a cached result, so that no child was started for them. If there are
    /// more than can be counted, it is 2^64 - 1.
    pub reused: u64,
}
