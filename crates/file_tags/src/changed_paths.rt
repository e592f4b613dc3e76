//! The paths that changes name.
//!
//! The contracts cite `specs/ChangedFiles.antt`.

ghost use Rattle.std.specs.Prelude.{◌≡◌, ℕ, List, IfOk};
ghost use Rattle.hook_base.specs.Rising.{IsRisingBy};
ghost use Rattle.file_tags.specs.ChangedFiles.{is_among, paths_named};
ghost use Rattle.file_tags.specs.TagTables.{texts_of};

use hook_base::{Change, OutOfMemory, RepoPath};
use std::alloc::Global;

/// The paths that changes name, sorted, each once. `OutOfMemory` if memory is refused.
pub(crate) fn changed_paths<'c>(
    alloc: Global,
    changes: &'c [Change],
) -> Result<Vec<&'c RepoPath>, OutOfMemory>
    ensures rising { IfOk result (λ paths. IsRisingBy (λ path. path) (texts_of paths.items)) }
    ensures same { IfOk result (λ paths. (path : List ℕ)
        → is_among (texts_of paths.items) path ≡ is_among (paths_named changes.now) path) }
{
    let mut paths = paths_named(alloc, changes)?;
    sort_paths(&mut paths);
    Ok(paths)
}

fn paths_named<'c>(alloc: Global, changes: &'c [Change]) -> Result<Vec<&'c RepoPath>, OutOfMemory>
    ensures { IfOk result (λ paths. texts_of paths.items ≡ paths_named changes.now) }
{
    let mut paths = Vec::with_capacity(alloc, changes.len())?;
    'changes: for change in changes {
        paths.push(&change.path)?;
    }
    Ok(paths)
}

fn sort_paths(paths: &mut Vec<&RepoPath>)
    ensures rising { IsRisingBy (λ path. path) (texts_of paths.new.items) }
    ensures same { (path : List ℕ) → is_among (texts_of paths.new.items) path
        ≡ is_among (texts_of paths.old.items) path }
{
    paths.sort_unstable();
    paths.dedup();
}
