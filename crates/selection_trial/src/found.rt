//! Calls on what a single pattern selects.

use crate::files::tree_of;
use crate::paths::lines_of;
use crate::rules::pattern_of;
use hook_base::{Items, RepoPath, Tree};
use path_select::{Pattern, Rules, select, select_found};
use std::alloc::Global;
use trial_rows::{AnswerBytes, Stop};

/// `select_found PATTERN TREE`: the paths of the tree's files in which the pattern is found, a line each.
/// `TwoAnswers` if `select` gives others. A line of the tree is as `select` takes it.
pub(crate) fn found(alloc: Global, arguments: &[Vec<u8>]) -> Result<AnswerBytes, Stop> {
    let [pattern, tree] = arguments else {
        return Err(Stop::BadLine);
    };
    let pattern = pattern_of(alloc, pattern.as_slice())?;
    found_in(alloc, &pattern, &tree_of(alloc, tree.as_slice())?)
}

fn found_in(alloc: Global, pattern: &Pattern, tree: &Tree) -> Result<AnswerBytes, Stop> {
    let found = select_found(alloc, pattern, tree)?;
    if selected_alone(alloc, pattern, tree)? == found {
        Ok(lines_of(alloc, found.as_slice()))
    } else {
        Err(Stop::TwoAnswers)
    }
}

// What the pattern selects of all paths, if all other patterns are the defaults of a configuration.
fn selected_alone(alloc: Global, pattern: &Pattern, tree: &Tree) -> Result<Items<RepoPath>, Stop> {
    let every_path = pattern_of(alloc, b"")?;
    let no_path = pattern_of(alloc, b"^$")?;
    let rules = Rules {
        top_files: &every_path,
        top_exclude: &no_path,
        files: pattern,
        exclude: &no_path,
        types: &[],
        types_or: &[],
        exclude_types: &[],
    };
    let paths = paths_in(alloc, tree)?;
    Ok(select(alloc, &rules, paths.as_slice(), tree)?)
}

fn paths_in(alloc: Global, tree: &Tree) -> Result<Vec<RepoPath>, Stop> {
    let mut paths = Vec::new(alloc);
    for index in 0..tree.len() {
        paths.push(tree.entry(index).path.clone()?)?;
    }
    Ok(paths)
}
