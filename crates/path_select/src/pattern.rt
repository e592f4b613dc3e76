//! Patterns over paths. (docs/REFERENCE.md, "Patterns and selection".)

ghost use Rattle.std.specs.Prelude.{◌≡◌, IfOk, IfErr};
ghost use Rattle.path_select.specs.Patterns.{IsPattern};
ghost use Rattle.path_select.specs.PatternFaults.{IsPatternRefusal};

use crate::PatternFault;
use regex::Regex;
use std::alloc::Global;
use std::marker::Model;

/// A pattern in the syntax of `regex`, compiled, to be searched for in paths. Contracts see its text.
#[derive(Debug, Drop)]
pub struct Pattern {
    pub(crate) regex: Regex,
}

impl Model for Pattern {
    ghost use Rattle.std.specs.Prelude.{List, ℕ};

    ghost Value = { List ℕ };

    ghost use Rattle.path_select.specs.Regexes.{regex_text, IsOfItsText};

    ghost view = { λ pattern. regex_text pattern.regex };

    ghost invariant = { λ pattern. IsOfItsText pattern.regex };
}

impl Pattern {
    /// Compiles a pattern, or says why the text isn't taken as one.
    pub fn build(alloc: Global, text: &str) -> Result<Pattern, PatternFault>
        ensures same { IfOk result (λ pattern. pattern ≡ text.now) }
        ensures pattern { IfOk result (λ _. IsPattern text.now) }
        ensures refused { IfErr result (IsPatternRefusal text.now) }
    {
        let regex = Regex::new(alloc, text)?;
        Ok(Pattern { regex })
    }

    /// The pattern's text.
    pub fn as_str(&self) -> &str
        ensures same { result.now ≡ self.now }
        ensures pattern { IsPattern self.now }
    {
        self.regex.as_str()
    }
}
