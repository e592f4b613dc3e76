//! How a run ended, as a word.

/// The word for whether every hook passed.
pub fn verdict_of(passed: bool) -> &'static str {
    if passed { "passed" } else { "failed" }
}
