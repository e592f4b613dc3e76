//! The files that a hook gets. (docs/REFERENCE.md, "Patterns and selection".)

ghost use Rattle.std.specs.Prelude.{◌≡◌, filter, IfOk};
ghost use Rattle.std.specs.Option.{option_copied};
ghost use Rattle.path_select.specs.Candidates.{paths_of};
ghost use Rattle.path_select.specs.Chosen.{fits_at, fits_entry};
ghost use Rattle.path_select.specs.Selection.{selected, selected_among, texts_of_rules};

use crate::path_filter::PathFilter;
use crate::path_look_up::entry_near;
use crate::type_rules::fits_types;
use crate::{Candidates, Rules};
use hook_base::{FileEntry, Items, OutOfMemory, RepoPath, Tree};
use std::alloc::Global;

/// The paths of the files that a hook gets, in their order, each once. They are those of the tree's files
/// that are candidates, pass the patterns of the whole configuration and of the hook, and have the tags that
/// it asks for. Candidates may come in any order, more than once, and without a file in the tree.
/// `OutOfMemory` if memory is refused.
///
/// A caller that selects for several hooks makes the [`Candidates`] once, and calls [`select_among`] for each
/// hook.
pub fn select(
    alloc: Global,
    rules: &Rules,
    candidates: &[RepoPath],
    tree: &Tree,
) -> Result<Items<RepoPath>, OutOfMemory>
    ensures { IfOk result (λ chosen. chosen ≡ selected (texts_of_rules rules.now) candidates.now tree.now) }
{
    let among = Candidates::passing(alloc, rules.top_files, rules.top_exclude, candidates)?;
    select_among(alloc, rules, &among, tree)
}

/// The same among candidates that have passed the patterns of the whole configuration. These patterns of the
/// rules aren't looked for again. `OutOfMemory` if memory is refused.
pub fn select_among(
    alloc: Global,
    rules: &Rules,
    among: &Candidates,
    tree: &Tree,
) -> Result<Items<RepoPath>, OutOfMemory>
    ensures { IfOk result (λ chosen. chosen ≡ selected_among (texts_of_rules rules.now) among.now tree.now) }
{
    if tree.len() == 0 {
        return Ok(Items::new(alloc));
    }
    let chosen = chosen_of(alloc, rules, among.paths.as_slice(), tree)?;
    Ok(Items::from(chosen))
}

fn chosen_of(
    alloc: Global,
    rules: &Rules,
    paths: &[&RepoPath],
    tree: &Tree,
) -> Result<Vec<RepoPath>, OutOfMemory>
    ensures { IfOk result (λ chosen. chosen.items
        ≡ filter (fits_at (texts_of_rules rules.now) tree.now) (paths_of paths.now)) }
{
    let mut test = PathFilter::new(alloc, rules.files, rules.exclude)?;
    let mut next = 0;
    let mut chosen = Vec::new(alloc);
    'paths: for path in paths {
        let path: &RepoPath = path;
        let entry = entry_near(tree, &mut next, path);
        if fits(alloc, &mut test, rules, path, entry)? {
            chosen.push(path.clone()?)?;
        }
    }
    Ok(chosen)
}

// Whether there is a file at the path that fits the hook. The patterns are looked for before the tags are
// made.
fn fits(
    alloc: Global,
    test: &mut PathFilter,
    rules: &Rules,
    path: &RepoPath,
    entry: Option<&FileEntry>,
) -> Result<bool, OutOfMemory>
    requires files { test.old.files ≡ rules.now.files.now }
    requires exclude { test.old.exclude ≡ rules.now.exclude.now }
    ensures fits { IfOk result (λ fits. fits
        ≡ fits_entry (texts_of_rules rules.now) path.now (option_copied entry.entry)) }
    ensures same { test.new ≡ test.old }
{
    match entry {
        None => Ok(false),
        Some(entry) if test.passes(path.as_str()) => fits_types(alloc, rules, path, entry),
        Some(_) => Ok(false),
    }
}
