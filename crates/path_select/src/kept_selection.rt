//! The files that a hook gets, by tags that are kept.

ghost use Rattle.std.specs.Prelude.{◌≡◌, filter, IfOk};
ghost use Rattle.std.specs.Option.{option_copied};
ghost use Rattle.file_tags.specs.TreeTags.{tags_of_tree};
ghost use Rattle.path_select.specs.Candidates.{paths_of};
ghost use Rattle.path_select.specs.Chosen.{fits_at};
ghost use Rattle.path_select.specs.KeptTags.{fits_tags, tags_at};
ghost use Rattle.path_select.specs.Selection.{selected, selected_among, texts_of_rules};

use crate::path_filter::PathFilter;
use crate::path_look_up::index_near;
use crate::type_rules::have_types;
use crate::{Candidates, Rules};
use file_tags::{KeptTags, Tags};
use hook_base::{Items, OutOfMemory, RepoPath, Tree};
use std::alloc::Global;

/// What [`select`](crate::select) gives, by the kept tags of the tree's files: none are made. `OutOfMemory`
/// if memory is refused.
///
/// A caller that selects for several hooks makes the [`Candidates`] once, and calls [`select_kept_among`] for
/// each hook.
pub fn select_kept(
    alloc: Global,
    rules: &Rules,
    candidates: &[RepoPath],
    tree: &Tree,
    tags: &KeptTags,
) -> Result<Items<RepoPath>, OutOfMemory>
    requires { tags.now ≡ tags_of_tree tree.now }
    ensures { IfOk result (λ chosen. chosen ≡ selected (texts_of_rules rules.now) candidates.now tree.now) }
{
    let among = Candidates::passing(alloc, rules.top_files, rules.top_exclude, candidates)?;
    select_kept_among(alloc, rules, &among, tree, tags)
}

/// What [`select_among`](crate::select_among) gives, by the kept tags of the tree's files: none are made.
/// `OutOfMemory` if memory is refused.
pub fn select_kept_among(
    alloc: Global,
    rules: &Rules,
    among: &Candidates,
    tree: &Tree,
    tags: &KeptTags,
) -> Result<Items<RepoPath>, OutOfMemory>
    requires { tags.now ≡ tags_of_tree tree.now }
    ensures { IfOk result (λ chosen. chosen ≡ selected_among (texts_of_rules rules.now) among.now tree.now) }
{
    if tree.len() == 0 {
        return Ok(Items::new(alloc));
    }
    let chosen = chosen_by_tags(alloc, rules, among.paths.as_slice(), tree, tags)?;
    Ok(Items::from(chosen))
}

fn chosen_by_tags(
    alloc: Global,
    rules: &Rules,
    paths: &[&RepoPath],
    tree: &Tree,
    tags: &KeptTags,
) -> Result<Vec<RepoPath>, OutOfMemory>
    requires { tags.now ≡ tags_of_tree tree.now }
    ensures { IfOk result (λ chosen. chosen.items
        ≡ filter (fits_at (texts_of_rules rules.now) tree.now) (paths_of paths.now)) }
{
    let mut test = PathFilter::new(alloc, rules.files, rules.exclude)?;
    let mut next = 0;
    let mut chosen = Vec::new(alloc);
    'paths: for path in paths {
        let path: &RepoPath = path;
        let found = tags_near(tree, tags, &mut next, path);
        if fits_tags(&mut test, rules, path, found) {
            chosen.push(path.clone()?)?;
        }
    }
    Ok(chosen)
}

// The tags of the file at the path, or `None` if the tree has no such file.
fn tags_near<'t>(
    tree: &Tree,
    tags: &'t KeptTags,
    next: &mut usize,
    path: &RepoPath,
) -> Option<&'t Tags>
    requires { tags.now ≡ tags_of_tree tree.now }
    ensures { option_copied result ≡ tags_at tree.now path.now }
{
    match index_near(tree, next, path) {
        Some(index) => Some(tags.get(index)),
        None => None,
    }
}

// Whether there are tags, so a file at the path, and it fits the hook.
fn fits_tags(test: &mut PathFilter, rules: &Rules, path: &RepoPath, tags: Option<&Tags>) -> bool
    requires files { test.old.files ≡ rules.now.files.now }
    requires exclude { test.old.exclude ≡ rules.now.exclude.now }
    ensures fits { result ≡ fits_tags (texts_of_rules rules.now) path.now (option_copied tags.entry) }
    ensures same { test.new ≡ test.old }
{
    match tags {
        None => false,
        Some(tags) => have_types(rules, tags) && test.passes(path.as_str()),
    }
}
