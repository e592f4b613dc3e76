//! A search for one pattern, with the matcher that the files of one call share.

ghost use Rattle.std.specs.Prelude.{◌≡◌, IfSome, option_map};
ghost use Rattle.regex.specs.Bytes.{match_haystack, match_span, matcher_pattern};
ghost use Rattle.builtin_hooks.specs.Search.{first_match, is_search_found};
ghost use Rattle.builtin_hooks.specs.Searchers.{SearchesFor, search_with};

use crate::flags::Flags;
use regex::bytes::{Match, Matcher};
use std::marker::Model;

/// Searches for one pattern. Contracts see what it searches for.
#[derive(Drop)]
pub struct Searcher<'g> {
    matcher: Matcher<'g>,
    text: &'g str,
    flags: Flags,
}

impl<'g> Model for Searcher<'g> {
    ghost use Rattle.regex.specs.Bytes.{matcher_pattern};
    ghost use Rattle.builtin_hooks.specs.Search.{Search};
    ghost use Rattle.builtin_hooks.specs.Searchers.{SearchesFor, search_with};

    ghost Value = { Search };

    ghost view = { λ searcher. search_with searcher.text.now searcher.flags };

    ghost invariant = { λ searcher. SearchesFor (search_with searcher.text.now searcher.flags) (matcher_pattern searcher.matcher) };
}

impl<'g> Searcher<'g> {
    /// A searcher with this matcher, which was made for the text and the flags.
    pub fn new(matcher: Matcher<'g>, text: &'g str, flags: Flags) -> Searcher<'g>
        requires { SearchesFor (search_with text.now flags) (matcher_pattern matcher) }
        ensures { result ≡ search_with text.now flags }
    {
        Searcher {
            matcher,
            text,
            flags,
        }
    }

    /// Whether a file is searched as a whole.
    pub fn is_multiline(&self) -> bool
        ensures { result ≡ self.now.multiline }
    {
        self.flags.multiline
    }

    /// Whether the files without a match are asked for.
    pub fn is_negated(&self) -> bool
        ensures { result ≡ self.now.negate }
    {
        self.flags.negate
    }

    /// The first match in the bytes.
    pub fn first_match<'h>(&mut self, bytes: &'h [u8]) -> Option<Match<'h>>
        ensures found { option_map match_span result ≡ first_match self.old bytes.now }
        ensures within { IfSome result (λ found. match_haystack found ≡ bytes.now) }
        ensures same { self.new ≡ self.old }
    {
        self.matcher.find(bytes)
    }

    /// Whether the pattern is found in the bytes.
    pub fn finds(&mut self, bytes: &[u8]) -> bool
        ensures found { result ≡ is_search_found self.old bytes.now }
        ensures same { self.new ≡ self.old }
    {
        self.matcher.is_match(bytes)
    }
}
