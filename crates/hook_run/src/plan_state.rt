//! At what point a plan is.

use crate::pending_part::PendingPart;
use hook_base::Bytes;

/// At what point a plan is.
#[derive(Drop)]
pub(crate) enum PlanState<'a> {
    /// At a hook with children, before one of its parts.
    Waits(PendingPart<'a>),
    /// At its end, with the report.
    Over(Bytes),
}
