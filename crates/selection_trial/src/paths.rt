//! Calls on patterns and selections.

use crate::files::{paths_of, tree_of};
use crate::rules::{patterns_of, rules_of, tag_lists_of};
use file_tags::KeptTags;
use hook_base::{Items, RepoPath, Tree};
use path_select::{
    Candidates, Pattern, PatternFault, Rules, select, select_among, select_kept, select_kept_among,
};
use std::alloc::Global;
use trial_rows::{AnswerBytes, Stop, only, text_of};

/// `pattern TEXT`: the pattern's text, or the number of the refusal and its text.
pub(crate) fn built(alloc: Global, arguments: &[Vec<u8>]) -> Result<AnswerBytes, Stop> {
    match Pattern::build(alloc, text_of(only(arguments)?)?) {
        Ok(pattern) => Ok(AnswerBytes::new(alloc).text(pattern.as_str())),
        Err(PatternFault::OutOfMemory) => Err(Stop::OutOfMemory),
        Err(fault) => Ok(refusal(alloc, fault)),
    }
}

fn refusal(alloc: Global, fault: PatternFault) -> AnswerBytes {
    let answer = AnswerBytes::new(alloc).shown(fault.number());
    answer.text(" ").shown(fault)
}

/// `select TOP_FILES TOP_EXCLUDE FILES EXCLUDE TYPES TYPES_OR EXCLUDE_TYPES CANDIDATES TREE`: the paths that
/// are selected, a line each. Blanks separate tags, and line feeds candidates. A line of the tree is
/// `MODE PATH BYTES`, with the mode `-` or `x`.
pub(crate) fn selected(alloc: Global, arguments: &[Vec<u8>]) -> Result<AnswerBytes, Stop> {
    let [rules @ .., paths, tree] = arguments else {
        return Err(Stop::BadLine);
    };
    let paths = paths_of(alloc, paths.as_slice())?;
    let tree = tree_of(alloc, tree.as_slice())?;
    let chosen = selected_by(alloc, rules, paths.as_slice(), &tree)?;
    Ok(lines_of(alloc, chosen.as_slice()))
}

/// The paths, a line each.
pub(crate) fn lines_of(alloc: Global, paths: &[RepoPath]) -> AnswerBytes {
    let mut answer = AnswerBytes::new(alloc);
    for path in paths {
        answer = answer.texts(&[path.as_str(), "\n"]);
    }
    answer
}

fn selected_by(
    alloc: Global,
    arguments: &[Vec<u8>],
    paths: &[RepoPath],
    tree: &Tree,
) -> Result<Items<RepoPath>, Stop> {
    let Some((patterns, lists)) = arguments.split_at_checked(4) else {
        return Err(Stop::BadLine);
    };
    let patterns = patterns_of(alloc, patterns)?;
    let lists = tag_lists_of(alloc, lists)?;
    let rules = rules_of(patterns.as_slice(), lists.as_slice())?;
    all_ways(alloc, &rules, paths, tree)
}

// What is selected from all candidates and from those that pass first, by tags made for this and by tags kept
// with the tree's files. All of these must be the same.
fn all_ways(
    alloc: Global,
    rules: &Rules,
    paths: &[RepoPath],
    tree: &Tree,
) -> Result<Items<RepoPath>, Stop> {
    let chosen = select(alloc, rules, paths, tree)?;
    let among = Candidates::passing(alloc, rules.top_files, rules.top_exclude, paths)?;
    let tags = KeptTags::of(alloc, tree)?;
    if select_among(alloc, rules, &among, tree)? == chosen
        && select_kept(alloc, rules, paths, tree, &tags)? == chosen
        && select_kept_among(alloc, rules, &among, tree, &tags)? == chosen
    {
        Ok(chosen)
    } else {
        Err(Stop::TwoAnswers)
    }
}
