//! The known word that is near to a word.

use crate::known_words::is_among;
use hook_config::{KeyKind, is_key};
use std::alloc::{AllocError, Global};
use strsim::osa_distance;

// No known word is as long, so longer words are near to none. Nor are words with characters other than those
// of ASCII, so that the bytes of a word are its characters.
const MOST_WORD_BYTES: usize = 40;

// A word is near only with fewer edits.
const TOO_MANY_EDITS: usize = 3;

/// The first of the known words that the fewest edits make of the word. There may be one or two, and fewer
/// than half the characters of the longer word. An edit inserts, removes or changes a character, or swaps two
/// neighbours. None if no word is so near, or if the word is a known one; `AllocError` if memory is refused.
pub(crate) fn nearest(
    alloc: Global,
    word: &str,
    known: &[&'static str],
) -> Result<Option<&'static str>, AllocError> {
    let mut best = NearWord::none();
    if is_near_to_none(word) || is_among(known, word) {
        return Ok(best.word);
    }
    for candidate in known {
        best = best.or(alloc, word, *candidate)?;
    }
    Ok(best.word)
}

/// The first of the keys that the fewest edits make of the word, by the same rule as in [`nearest`].
pub(crate) fn nearest_key(
    alloc: Global,
    word: &str,
    keys: &[(&'static str, KeyKind)],
) -> Result<Option<&'static str>, AllocError> {
    let mut best = NearWord::none();
    if is_near_to_none(word) || is_key(keys, word) {
        return Ok(best.word);
    }
    for (key, _) in keys {
        best = best.or(alloc, word, *key)?;
    }
    Ok(best.word)
}

fn is_near_to_none(word: &str) -> bool {
    word.len() > MOST_WORD_BYTES || !word.is_ascii()
}

// The first word so far that the fewest edits make, if one is near, and how many these are.
#[derive(Clone, Copy)]
struct NearWord {
    word: Option<&'static str>,
    edits: usize,
}

impl NearWord {
    fn none() -> Self {
        NearWord {
            word: None,
            edits: TOO_MANY_EDITS,
        }
    }

    // The candidate, if it is nearer than what was found before it.
    fn or(self, alloc: Global, word: &str, candidate: &'static str) -> Result<Self, AllocError> {
        let edits = edits_between(alloc, word, candidate)?;
        if edits < self.edits && is_near(edits, word.len().max(candidate.len())) {
            return Ok(NearWord {
                word: Some(candidate),
                edits,
            });
        }
        Ok(self)
    }
}

// How many edits make one word of the other. They aren't counted if the lengths alone ask for too many.
fn edits_between(alloc: Global, word: &str, known: &str) -> Result<usize, AllocError> {
    if word.len().abs_diff(known.len()) >= TOO_MANY_EDITS {
        return Ok(TOO_MANY_EDITS);
    }
    osa_distance(alloc, word, known)
}

// Whether so few edits are less than half of the longer word's bytes.
fn is_near(edits: usize, longer: usize) -> bool {
    edits < longer.div_ceil(2)
}
