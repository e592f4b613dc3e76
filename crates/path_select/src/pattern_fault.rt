//! The reasons why a text isn't taken as a pattern.

ghost use Rattle.std.specs.Prelude.{◌≡◌};
ghost use Rattle.path_select.specs.PatternFaults.{pattern_fault_number};

use regex::Error as RegexError;
use thiserror::Error;

/// Why a text isn't taken as a pattern.
#[derive(Clone, Copy, Debug, PartialEq, Eq, Error)]
pub enum PatternFault {
    /// `regex` refuses the text for another reason than memory: it is no pattern, nests too deep, or is too
    /// big once it is compiled.
    #[error("the text is no pattern")]
    NotAPattern,
    /// Memory was refused.
    #[error("out of memory")]
    OutOfMemory,
}

impl PatternFault {
    /// The refusal's number: 1 or 2.
    pub fn number(&self) -> u8
        ensures { result ≡ pattern_fault_number self.now }
    {
        match self {
            PatternFault::NotAPattern => 1,
            PatternFault::OutOfMemory => 2,
        }
    }
}

impl From<RegexError> for PatternFault {
    ghost use Rattle.path_select.specs.PatternFaults.{pattern_fault_of};

    ghost from_gives = { λ error fault. fault ≡ pattern_fault_of error };

    fn from(error: RegexError) -> Self {
        match error {
            RegexError::OutOfMemory => PatternFault::OutOfMemory,
            RegexError::Syntax(_) | RegexError::CompiledTooBig | RegexError::Internal => {
                PatternFault::NotAPattern
            }
        }
    }
}
