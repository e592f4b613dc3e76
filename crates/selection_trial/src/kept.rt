//! Calls on tags that are kept while a tree changes.

ghost use Rattle.std.specs.Prelude.{◌≡◌, IfOk};
ghost use Rattle.file_tags.specs.TreeTags.{tags_of_tree};

use crate::files::{changes_of, paths_of, tree_of};
use crate::paths::lines_of;
use crate::rules::{patterns_of, rules_of, tag_lists_of};
use file_tags::{KeptTags, Tags, tags_of};
use hook_base::{Change, File, Items, OutOfMemory, RepoPath, Tree};
use path_select::{Rules, select, select_kept};
use std::alloc::Global;
use trial_rows::{AnswerBytes, Stop, texts_of};

// A tree to which changes were applied, and the tags that followed them.
#[derive(Drop)]
struct Followed {
    tree: Tree,
    tags: KeptTags,
}

/// `follow TREE CHANGES TAG..`: a line for each file that the changes leave in the tree. It has the file's
/// path, and those of the given tags that the file has, each after a blank. `TwoAnswers` if the tags that
/// followed the changes aren't those of the file. A line of the changes is `+ PATH BYTES`, or `- PATH` if the
/// file is gone. A line of the tree is as `select` takes it.
pub(crate) fn tags_after(alloc: Global, arguments: &[Vec<u8>]) -> Result<AnswerBytes, Stop> {
    let [tree, changes, asked @ ..] = arguments else {
        return Err(Stop::BadLine);
    };
    let followed = followed_of(alloc, tree.as_slice(), changes.as_slice())?;
    tags_shown(alloc, &followed, texts_of(alloc, asked)?.as_slice())
}

fn followed_of(alloc: Global, tree: &[u8], changes: &[u8]) -> Result<Followed, Stop>
    ensures { IfOk result (λ followed. followed.tags ≡ tags_of_tree followed.tree) }
{
    let tree = tree_of(alloc, tree)?;
    let changes = changes_of(alloc, changes)?;
    Ok(follow(alloc, &tree, changes.as_slice())?)
}

fn follow(alloc: Global, old: &Tree, changes: &[Change]) -> Result<Followed, OutOfMemory>
    ensures { IfOk result (λ followed. followed.tags ≡ tags_of_tree followed.tree) }
{
    let mut tags = KeptTags::of(alloc, old)?;
    let mut tree = old.copy()?;
    tree.apply(changes)?;
    // A refusal leaves the tags as they were, so the call may be repeated.
    if tags.follow(old, &tree, changes).is_err() {
        tags.follow(old, &tree, changes)?;
    }
    Ok(Followed { tree, tags })
}

fn tags_shown(alloc: Global, followed: &Followed, asked: &[&str]) -> Result<AnswerBytes, Stop> {
    let tree = &followed.tree;
    let tags = &followed.tags;
    if tags.len() != tree.len() {
        return Err(Stop::TwoAnswers);
    }
    let mut answer = AnswerBytes::new(alloc);
    for index in 0..tree.len() {
        answer = file_shown(alloc, answer, tree.entry(index), tags.get(index), asked)?;
    }
    Ok(answer)
}

fn file_shown(
    alloc: Global,
    answer: AnswerBytes,
    file: &File,
    kept: &Tags,
    asked: &[&str],
) -> Result<AnswerBytes, Stop> {
    let made = tags_of(alloc, &file.path, &file.entry)?;
    let mut answer = answer.text(file.path.as_str());
    for tag in asked {
        if kept.has(*tag) != made.has(*tag) {
            return Err(Stop::TwoAnswers);
        }
        if kept.has(*tag) {
            answer = answer.texts(&[" ", *tag]);
        }
    }
    Ok(answer.text("\n"))
}

/// `select_kept TOP_FILES TOP_EXCLUDE FILES EXCLUDE TYPES TYPES_OR EXCLUDE_TYPES CANDIDATES TREE CHANGES`:
/// what is selected from the tree that the changes leave, by the tags that followed them. `TwoAnswers` if
/// `select` gives other paths.
pub(crate) fn selected_after(alloc: Global, arguments: &[Vec<u8>]) -> Result<AnswerBytes, Stop> {
    let [rules @ .., paths, tree, changes] = arguments else {
        return Err(Stop::BadLine);
    };
    let paths = paths_of(alloc, paths.as_slice())?;
    let tree = tree_of(alloc, tree.as_slice())?;
    let changes = changes_of(alloc, changes.as_slice())?;
    let chosen = selected_by(alloc, rules, paths.as_slice(), &tree, changes.as_slice())?;
    Ok(lines_of(alloc, chosen.as_slice()))
}

fn selected_by(
    alloc: Global,
    arguments: &[Vec<u8>],
    paths: &[RepoPath],
    tree: &Tree,
    changes: &[Change],
) -> Result<Items<RepoPath>, Stop> {
    let Some((patterns, lists)) = arguments.split_at_checked(4) else {
        return Err(Stop::BadLine);
    };
    let patterns = patterns_of(alloc, patterns)?;
    let lists = tag_lists_of(alloc, lists)?;
    let rules = rules_of(patterns.as_slice(), lists.as_slice())?;
    both_ways(alloc, &rules, paths, tree, changes)
}

// What is selected by the tags that followed the changes, and by tags that are made from the tree. Both must
// be the same.
fn both_ways(
    alloc: Global,
    rules: &Rules,
    paths: &[RepoPath],
    tree: &Tree,
    changes: &[Change],
) -> Result<Items<RepoPath>, Stop> {
    let followed = follow(alloc, tree, changes)?;
    let chosen = select_kept(alloc, rules, paths, &followed.tree, &followed.tags)?;
    if select(alloc, rules, paths, &followed.tree)? == chosen {
        Ok(chosen)
    } else {
        Err(Stop::TwoAnswers)
    }
}
