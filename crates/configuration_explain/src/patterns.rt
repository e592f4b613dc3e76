//! Which patterns `regex` refuses, which commands have no words, and which paths patterns are found in.

use crate::tables::text_in;
use arg_partition::{WordsFault, words};
use builtin_hooks::{Grep, GrepFault};
use hook_base::{OutOfMemory, Text};
use path_select::{Pattern, PatternFault};
use regex::{Matcher, Regex};
use std::alloc::{AllocError, Global};
use yaml_profile::Node;

/// Whether `regex` doesn't take the text as a pattern. `AllocError` if memory is refused.
pub(crate) fn is_refused_pattern(alloc: Global, text: &str) -> Result<bool, AllocError> {
    match Pattern::build(alloc, text) {
        Ok(_) => Ok(false),
        Err(PatternFault::NotAPattern) => Ok(true),
        Err(PatternFault::OutOfMemory) => Err(AllocError),
    }
}

/// Whether `regex` doesn't take the text as the entry of a `pygrep` hook with these arguments. `AllocError`
/// if memory is refused.
pub(crate) fn is_refused_entry(
    alloc: Global,
    entry: &str,
    args: &[Node],
) -> Result<bool, AllocError> {
    let words = words_of(alloc, args)?;
    match Grep::build(alloc, entry, words.as_slice()) {
        Err(GrepFault::NotAPattern) => Ok(true),
        Err(GrepFault::OutOfMemory) => Err(AllocError),
        _ => Ok(false),
    }
}

/// Whether the text is no command: it can't be cut into words, has none, or its first word is empty.
/// `AllocError` if memory is refused.
pub(crate) fn is_refused_command(alloc: Global, text: &str) -> Result<bool, AllocError> {
    match words(alloc, text) {
        Ok(words) => Ok(!matches!(words.as_slice(), [first, ..] if !first.is_empty())),
        Err(WordsFault::OutOfMemory) => Err(AllocError),
        Err(_) => Ok(true),
    }
}

fn words_of<'n>(alloc: Global, args: &'n [Node]) -> Result<Vec<&'n str>, AllocError> {
    let mut words = Vec::new(alloc);
    for arg in args {
        words.push(text_in(arg).unwrap_or(""))?;
    }
    Ok(words)
}

/// The paths in which the first pattern is found, and the second isn't. `OutOfMemory` if memory is refused.
pub(crate) fn passing<'p>(
    alloc: Global,
    files: &Pattern,
    exclude: &Pattern,
    paths: &'p [Text],
) -> Result<Vec<&'p str>, OutOfMemory> {
    let files = built(alloc, files)?;
    let exclude = built(alloc, exclude)?;
    let mut files = files.matcher(alloc)?;
    let mut exclude = exclude.matcher(alloc)?;
    let mut passing = Vec::new(alloc);
    for path in paths {
        if passes(&mut files, &mut exclude, path.as_str()) {
            passing.push(path.as_str())?;
        }
    }
    Ok(passing)
}

/// Whether the first pattern is found in one of the paths in which the second isn't. `OutOfMemory` if memory
/// is refused.
pub(crate) fn passes_any(
    alloc: Global,
    files: &Pattern,
    exclude: &Pattern,
    paths: &[&str],
) -> Result<bool, OutOfMemory> {
    let files = built(alloc, files)?;
    let exclude = built(alloc, exclude)?;
    let mut files = files.matcher(alloc)?;
    let mut exclude = exclude.matcher(alloc)?;
    for path in paths {
        if passes(&mut files, &mut exclude, path) {
            return Ok(true);
        }
    }
    Ok(false)
}

/// Whether the pattern is found in the path. `OutOfMemory` if memory is refused.
pub(crate) fn finds(alloc: Global, pattern: &Pattern, path: &str) -> Result<bool, OutOfMemory> {
    let regex = built(alloc, pattern)?;
    let mut matcher = regex.matcher(alloc)?;
    Ok(matcher.is_match(path))
}

fn passes(files: &mut Matcher<'_>, exclude: &mut Matcher<'_>, path: &str) -> bool {
    files.is_match(path) && !exclude.is_match(path)
}

// Compiles the pattern's text again, which was compiled before. So it fails only if memory is refused.
fn built(alloc: Global, pattern: &Pattern) -> Result<Regex, OutOfMemory> {
    Regex::new(alloc, pattern.as_str()).map_err(|_| OutOfMemory)
}
