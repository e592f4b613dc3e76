//! The paths that hooks may get.

ghost use Rattle.std.specs.Prelude.{◌≡◌, filter, length, IfOk};
ghost use Rattle.path_select.specs.Candidates.{AreRisingPaths, ArePassing, passes, paths_of};

use crate::Pattern;
use crate::path_filter::PathFilter;
use crate::sorted_paths::in_order;
use hook_base::{OutOfMemory, RepoPath};
use std::alloc::Global;
use std::marker::Model;

/// The paths that the hooks of a run may get: the candidates that pass the patterns of the whole
/// configuration, in their order, each once. They are the same for all hooks, so a caller makes them once.
/// Contracts see the list of them.
#[derive(Drop)]
pub struct Candidates<'a> {
    pub(crate) paths: Vec<&'a RepoPath>,
}

impl<'a> Model for Candidates<'a> {
    ghost use Rattle.std.specs.Prelude.{List, ℕ};

    ghost Value = { List (List ℕ) };

    ghost use Rattle.path_select.specs.Candidates.{AreRisingPaths, paths_of};

    ghost view = { λ all. paths_of all.paths.items };

    ghost invariant = { λ all. AreRisingPaths (paths_of all.paths.items) };
}

impl<'a> Candidates<'a> {
    /// The candidates in whose path `files` is found and `exclude` isn't. They may come in any order and
    /// repeated; those that come in order aren't sorted. `OutOfMemory` if memory is refused.
    pub fn passing(
        alloc: Global,
        files: &Pattern,
        exclude: &Pattern,
        candidates: &'a [RepoPath],
    ) -> Result<Candidates<'a>, OutOfMemory>
        ensures { IfOk result (ArePassing files.now exclude.now candidates.now) }
    {
        let ordered = in_order(alloc, candidates)?;
        let paths = filtered(alloc, files, exclude, ordered)?;
        Ok(Candidates { paths })
    }

    /// The number of paths.
    pub fn len(&self) -> usize
        ensures count { result ≡ length self.now }
        ensures rising { AreRisingPaths self.now }
    {
        self.paths.len()
    }
}

fn filtered<'a>(
    alloc: Global,
    files: &Pattern,
    exclude: &Pattern,
    paths: Vec<&'a RepoPath>,
) -> Result<Vec<&'a RepoPath>, OutOfMemory>
    ensures { IfOk result (λ kept. paths_of kept.items
        ≡ filter (passes files.now exclude.now) (paths_of paths.entry.items)) }
{
    let mut test = PathFilter::new(alloc, files, exclude)?;
    let mut kept = Vec::new(alloc);
    'paths: for path in &paths {
        if test.passes(path.as_str()) {
            kept.push(*path)?;
        }
    }
    Ok(kept)
}
