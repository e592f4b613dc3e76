//! The files that the hooks of a run may get.

ghost use Rattle.std.specs.Prelude.{◌≡◌, IfOk, IfErr, OnOk, map};
ghost use Rattle.hook_base.specs.Trees.{path_of};
ghost use Rattle.commit_flow.specs.Preparations.{IsNameFault, IsNamesFault};
ghost use Rattle.commit_flow.specs.Runs.{AreStagedPaths, IsStagedPath, candidates_of, changed_paths, names_in};

use crate::{HostRefusal, Which};
use hook_base::{Items, OutOfMemory, RepoPath, Text, Tree};
use repo_store::Store;
use sqlite::Alter;
use std::alloc::Global;

/// The staged files that the hooks of a run may get; for names, each of these in their order. `BadPath` or
/// `NotStaged` for the first name that is no path or isn't staged, and `OutOfMemory` if memory is refused.
pub(crate) fn candidates<S: Alter>(
    alloc: Global,
    store: &Store<S>,
    staged: &Tree,
    which: &Which,
) -> Result<Items<RepoPath>, HostRefusal>
    requires { staged.now ≡ store.now.kept.repo.staged }
    ensures are { IfOk result (λ paths. paths ≡ candidates_of which.now store.now.kept.repo) }
    ensures named { OnOk result (AreStagedPaths store.now.kept.repo (names_in which.now)) }
    ensures refused { IfErr result (IsNamesFault store.now.kept.repo (names_in which.now)) }
{
    match which {
        Which::Changed => Ok(changed_paths(alloc, store, staged)?),
        Which::All => Ok(all_paths(alloc, staged)?),
        Which::Named(names) => named_paths(alloc, store, names.as_slice()),
    }
}

/// The paths of the staged files that differ from the last commit (`pre_commit.git.get_staged_files`). It
/// fails only for lack of memory.
pub(crate) fn changed_paths<S: Alter>(
    alloc: Global,
    store: &Store<S>,
    staged: &Tree,
) -> Result<Items<RepoPath>, OutOfMemory>
    requires { staged.now ≡ store.now.kept.repo.staged }
    ensures { IfOk result (λ paths. paths ≡ changed_paths store.now.kept.repo) }
{
    let mut paths = Vec::new(alloc);
    'rows: for index in 0..staged.len() {
        let path = &staged.entry(index).path;
        if store.differs_from_head_at(path) {
            paths.push(path.clone()?)?;
        }
    }
    Ok(Items::from(paths))
}

fn all_paths(alloc: Global, staged: &Tree) -> Result<Items<RepoPath>, OutOfMemory>
    ensures { IfOk result (λ paths. paths ≡ map path_of staged.now) }
{
    let mut paths = Vec::new(alloc);
    'rows: for index in 0..staged.len() {
        paths.push(staged.entry(index).path.clone()?)?;
    }
    Ok(Items::from(paths))
}

// The names as paths. Each must be that of a staged file.
fn named_paths<S: Alter>(
    alloc: Global,
    store: &Store<S>,
    names: &[Text],
) -> Result<Items<RepoPath>, HostRefusal>
    ensures same { IfOk result (λ paths. paths ≡ names.now) }
    ensures staged { OnOk result (AreStagedPaths store.now.kept.repo names.now) }
    ensures refused { IfErr result (IsNamesFault store.now.kept.repo names.now) }
{
    let mut paths = Vec::new(alloc);
    'names: for name in names {
        let path = staged_path(alloc, store, name.as_str())?;
        paths.push(path)?;
    }
    Ok(Items::from(paths))
}

// The name as the path of a staged file.
fn staged_path<S: Alter>(
    alloc: Global,
    store: &Store<S>,
    name: &str,
) -> Result<RepoPath, HostRefusal>
    ensures same { IfOk result (λ path. path ≡ name.now) }
    ensures staged { OnOk result (IsStagedPath store.now.kept.repo name.now) }
    ensures refused { IfErr result (IsNameFault store.now.kept.repo name.now) }
{
    let path = RepoPath::read(alloc, name)?;
    if !store.is_staged(&path) {
        return Err(HostRefusal::NotStaged);
    }
    Ok(path)
}
