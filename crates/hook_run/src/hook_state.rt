//! How a hook goes on.

use crate::pending_part::PendingPart;
use report_text::Ending;

/// How a hook goes on.
#[derive(Drop)]
pub(crate) enum HookState<'a> {
    /// The hook has ended so. The flag says whether a part gave another answer than the cached one.
    Ended(Ending, bool),
    /// Its next part waits for an outcome.
    Waits(PendingPart<'a>),
}
