//! How many results may be cached.
//!
//! The contracts cite `specs/Limits.antt`.

ghost use Rattle.std.specs.Prelude.{◌≡◌, IfSome, None};
ghost use Rattle.store_faults.specs.Limits.{IsLimit};

use crate::MOST_ANSWERS;
use std::marker::Model;

/// How many results are cached at most: a number from 1 to 100,000. Contracts see the number.
#[derive(Debug, Drop)]
pub struct AnswerLimit {
    number: u32,
}

impl Model for AnswerLimit {
    ghost use Rattle.std.specs.Prelude.{ℕ};
    ghost use Rattle.store_faults.specs.Limits.{IsLimit};

    ghost Value = { ℕ };

    ghost view = { λ limit. limit.number };

    ghost invariant = { λ limit. IsLimit limit.number };
}

impl AnswerLimit {
    /// Takes a number as a limit, or answers `None` if it isn't one from 1 to 100,000.
    pub fn read(number: u32) -> Option<AnswerLimit>
        ensures taken { IfSome result (λ limit. (limit ≡ number) × IsLimit number) }
        ensures refused { result ≡ None → ¬ IsLimit number }
    {
        if number == 0 || number > MOST_ANSWERS {
            return None;
        }
        Some(AnswerLimit { number })
    }

    /// The number, from 1 to 100,000.
    pub fn number(&self) -> u32
        ensures same { result ≡ self.now }
        ensures within { IsLimit self.now }
    {
        self.number
    }
}
