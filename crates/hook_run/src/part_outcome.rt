//! The outcome of a part.

use child_port::Outcome;

/// The outcome of a part of a run.
#[derive(Drop)]
pub(crate) struct PartOutcome {
    /// What its child reported, or the cached result.
    pub(crate) outcome: Outcome,
    /// Whether that is another answer than the cached one.
    pub(crate) unsteady: bool,
    /// Whether it is the cached result, so that no child was started.
    pub(crate) reused: bool,
}
