//! Why several changes of the staged files are refused, and at which of them.

ghost use Rattle.std.specs.Prelude.{◌≡◌};
ghost use Rattle.commit_flow.specs.Refusals.{stop_of};

use crate::HostRefusal;
use repo_store::StagingRefusal;

/// A refusal of several changes of the staged files, and the change that it is about. All that is kept is as
/// before the changes.
#[derive(Clone, Copy, Debug, PartialEq, Eq)]
pub struct StagingStop {
    /// The index of the refused change, counted from 0, or `None` if memory or the database refuses all of
    /// them together.
    pub at: Option<usize>,
    /// Why it is refused: for the same reason as a command that makes only this change.
    pub refusal: HostRefusal,
}

impl From<StagingRefusal> for StagingStop {
    ghost from_gives = { λ refused stop. stop ≡ stop_of refused };

    /// The index stays, and the refusal is that of the command that makes only this change.
    fn from(refused: StagingRefusal) -> Self {
        StagingStop {
            at: refused.at,
            refusal: HostRefusal::from(refused.fault),
        }
    }
}
