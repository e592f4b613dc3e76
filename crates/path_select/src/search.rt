//! A search for one pattern, in one path after another.

ghost use Rattle.std.specs.Prelude.{◌≡◌, IfOk};
ghost use Rattle.path_select.specs.Patterns.{is_found};

use crate::Pattern;
use hook_base::OutOfMemory;
use regex::Matcher;
use std::alloc::Global;
use std::marker::Model;

/// Searches for one pattern, and keeps what it learns about it from search to search. Contracts see the
/// pattern's text.
#[derive(Drop)]
pub(crate) struct Search<'p> {
    pattern: &'p Pattern,
    matcher: Matcher<'p>,
}

impl<'p> Model for Search<'p> {
    ghost use Rattle.std.specs.Prelude.{List, ℕ};

    ghost Value = { List ℕ };

    ghost use Rattle.path_select.specs.Regexes.{LooksFor};

    ghost view = { λ search. search.pattern.now };

    ghost invariant = { λ search. LooksFor search.pattern.now search.matcher };
}

impl<'p> Search<'p> {
    /// A search for the pattern, or `OutOfMemory` if memory is refused.
    pub(crate) fn new(alloc: Global, pattern: &'p Pattern) -> Result<Search<'p>, OutOfMemory>
        ensures { IfOk result (λ search. search ≡ pattern.now) }
    {
        let matcher = pattern.regex.matcher(alloc)?;
        Ok(Search { pattern, matcher })
    }

    /// Whether the pattern is found in the text.
    pub(crate) fn finds(&mut self, text: &str) -> bool
        ensures found { result ≡ is_found self.old text.now }
        ensures same { self.new ≡ self.old }
    {
        self.matcher.is_match(text)
    }
}
