//! Which cached results a run may use. (docs/REFERENCE.md, "Cached results".)

ghost use Rattle.std.specs.Prelude.{◌≡◌};
ghost use Rattle.hook_run.specs.Reuses.{is_pass, serves};

use child_port::Answer;

/// Which cached results a run may use. A result that it may use is the outcome of its part. Otherwise a child
/// is started, and its answer takes the result's place.
#[derive(Clone, Copy, Debug, PartialEq, Eq)]
pub enum Reuse {
    /// Each.
    All,
    /// Those that passed, with status 0 and without changes. So no failure comes from the cache.
    Passed,
    /// None.
    Nothing,
}

impl Reuse {
    /// Whether the run may use this answer if it is cached for a part.
    pub(crate) fn serves(self, answer: &Answer) -> bool
        ensures { result ≡ serves self answer.now }
    {
        match self {
            Reuse::All => true,
            Reuse::Passed => is_pass(answer),
            Reuse::Nothing => false,
        }
    }
}

// Whether an answer passed: its status is 0, and it changed no file.
fn is_pass(answer: &Answer) -> bool
    ensures { result ≡ is_pass answer.now }
{
    answer.status == 0 && answer.changes.is_empty()
}
