//! Sorts paths and drops repeated ones.

ghost use Rattle.std.specs.Prelude.{◌≡◌, ◌↔◌, ℕ, List, IfOk, IsTrue};
ghost use Rattle.path_select.specs.Candidates.{AreRisingPaths, is_candidate, paths_of};

use hook_base::{OutOfMemory, RepoPath};
use std::alloc::Global;
use std::cmp::Ordering;

/// The paths in their order, each once, or `OutOfMemory` if memory is refused. Paths that already rise aren't
/// sorted.
pub(crate) fn in_order<'a>(
    alloc: Global,
    paths: &'a [RepoPath],
) -> Result<Vec<&'a RepoPath>, OutOfMemory>
    ensures rising { IfOk result (λ ordered. AreRisingPaths (paths_of ordered.items)) }
    ensures same { IfOk result (λ ordered. (path : List ℕ)
        → is_candidate (paths_of ordered.items) path ≡ is_candidate paths.now path) }
{
    let mut ordered = borrowed(alloc, paths)?;
    if !are_rising(paths) {
        sort_paths(&mut ordered);
    }
    Ok(ordered)
}

fn borrowed<'a>(alloc: Global, paths: &'a [RepoPath]) -> Result<Vec<&'a RepoPath>, OutOfMemory>
    ensures { IfOk result (λ references. paths_of references.items ≡ paths.now) }
{
    let mut references = Vec::with_capacity(alloc, paths.len())?;
    for path in paths {
        references.push(path)?;
    }
    Ok(references)
}

// Whether each path comes before the next.
fn are_rising(paths: &[RepoPath]) -> bool
    ensures { IsTrue result ↔ AreRisingPaths paths.now }
{
    'pairs: for index in 1..paths.len() {
        match paths[index - 1].cmp(&paths[index]) {
            Ordering::Less => {}
            _ => return false,
        }
    }
    true
}

fn sort_paths(paths: &mut Vec<&RepoPath>)
    ensures rising { AreRisingPaths (paths_of paths.new.items) }
    ensures same { (path : List ℕ) → is_candidate (paths_of paths.new.items) path
        ≡ is_candidate (paths_of paths.old.items) path }
{
    paths.sort_unstable();
    paths.dedup();
}
