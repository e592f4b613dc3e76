//! The settings of known tools, and whether a hook's own pattern of further files finds them.

use crate::tables::{hook_at, rows_in, value_at};
use hook_base::{OutOfMemory, Text};
use hook_config::{CommandWords, ConfigWithNode, Hook, Language};
use regex::Regex;
use run_options::command_reads;
use std::alloc::{AllocError, Global};

// Files in which several tools keep their settings.
const SHARED_SETTINGS: [&str; 4] = ["package.json", "pyproject.toml", "setup.cfg", "tox.ini"];

/// The first of these paths that has settings of the hook's command, a known tool, and in which the hook's
/// own `x_reads` isn't found. `AllocError` if memory is refused.
pub(crate) fn left_out<'p>(
    alloc: Global,
    read: &ConfigWithNode,
    number: usize,
    hook: &Hook,
    paths: &'p [Text],
) -> Result<Option<&'p str>, AllocError> {
    let Language::System(words) = &hook.language else {
        return Ok(None);
    };
    if !has_own_reads(read, number) {
        return Ok(None);
    }
    left_out_by(alloc, words, hook, paths).map_err(|_refused| AllocError)
}

fn has_own_reads(read: &ConfigWithNode, number: usize) -> bool {
    match hook_at(&read.node, number) {
        Some(found) => value_at(rows_in(found.node), "x_reads").is_some(),
        None => false,
    }
}

fn left_out_by<'p>(
    alloc: Global,
    words: &CommandWords,
    hook: &Hook,
    paths: &'p [Text],
) -> Result<Option<&'p str>, OutOfMemory> {
    let wanted = command_reads(words.as_slice(), hook.pass_filenames, hook.always_run);
    let wanted = built(alloc, wanted)?;
    let own = built(alloc, hook.x_reads.as_pattern().as_str())?;
    let (mut wanted, mut own) = (wanted.matcher(alloc)?, own.matcher(alloc)?);
    for path in paths {
        let path = path.as_str();
        if are_settings(path, words.first().as_str())
            && wanted.is_match(path)
            && !own.is_match(path)
        {
            return Ok(Some(path));
        }
    }
    Ok(None)
}

// Compiles the pattern, which was compiled before. So it fails only if memory is refused.
fn built(alloc: Global, pattern: &str) -> Result<Regex, OutOfMemory> {
    Regex::new(alloc, pattern).map_err(|_| OutOfMemory)
}

// Whether a file at the top has settings of a tool, by the file's name: it contains that of the tool, or
// several tools keep theirs there.
fn are_settings(path: &str, tool: &str) -> bool {
    !path.contains('/') && (path.contains(tool) || SHARED_SETTINGS.contains(&path))
}
