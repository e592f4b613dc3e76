//! Patterns that hooks share.

ghost use Rattle.std.specs.Prelude.{◌≡◌, IfErr, IfOk};
ghost use Rattle.hook_config.specs.Gives.{GivesValue, IsLeftOpen};
ghost use Rattle.hook_config.specs.Limits.{IsShort};
ghost use Rattle.hook_config.specs.Patterns.{pattern_of_text};

use crate::config_fault::ConfigKind;
use path_select::Pattern;
use std::alloc::{AllocError, Global};
use std::marker::Model;
use std::rc::Rc;

/// A pattern that is built once, however many hooks have it. Contracts see its text, of at most
/// `MOST_TEXT_BYTES` bytes.
#[derive(Debug, Drop)]
pub struct SharedPattern {
    pattern: Rc<Pattern>,
}

impl Model for SharedPattern {
    ghost use Rattle.std.specs.Prelude.{List, ℕ};
    ghost use Rattle.hook_config.specs.Limits.{IsShort};

    ghost Value = { List ℕ };

    ghost view = { λ shared. shared.pattern.value };

    ghost invariant = { λ shared. IsShort shared.pattern.value };
}

impl SharedPattern {
    /// Builds the pattern of the text. `BadPattern` if `regex` doesn't take the text, `OutOfMemory` if memory
    /// is refused.
    #[tactic(auto, unfolding(crate::specs::Patterns::pattern_of_text))]
    pub fn build(alloc: Global, text: &str) -> Result<Self, ConfigKind>
        requires { IsShort text.now }
        ensures pattern { GivesValue (λ shared. shared) result (pattern_of_text text.now) }
        ensures same { IfOk result (λ shared. shared ≡ text.now) }
        ensures refused { IfErr result IsLeftOpen }
    {
        let pattern = Pattern::build(alloc, text)?;
        Ok(SharedPattern {
            pattern: Rc::new(alloc, pattern)?,
        })
    }

    /// The pattern, of a text of at most `MOST_TEXT_BYTES` bytes.
    pub fn as_pattern(&self) -> &Pattern
        ensures same { result.now ≡ self.now }
        ensures within { IsShort self.now }
    {
        self.pattern.as_ref()
    }
}

// The same pattern, which isn't built again. `AllocError` if it has too many owners to be counted.
impl Clone for SharedPattern {
    ghost use Rattle.std.specs.Prelude.{◌≡◌};

    ghost is_clone = { λ source made. made ≡ source };

    fn clone(&self) -> Result<Self, AllocError> {
        Ok(SharedPattern {
            pattern: self.pattern.clone()?,
        })
    }
}
