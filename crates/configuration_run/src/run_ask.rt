//! What `try` asks of a run.
//!
//! The contract cites `ask_for_all` of `specs/TryOver.antt`.

ghost use Rattle.std.specs.Prelude.{◌≡◌, IfOk, map};
ghost use Rattle.configuration_run.specs.TryOver.{ask_for_all};

use hook_base::{Items, OutOfMemory, RepoPath, Tree};
use hook_config::Stage;
use hook_run::{Reuse, RunAsk};
use std::alloc::Global;

/// The hooks of the stage `pre-commit`, with all files of the tree as candidates. No hook is left out or
/// skipped.
pub fn ask_for_all(alloc: Global, tree: &Tree) -> Result<RunAsk, OutOfMemory>
    ensures { IfOk result (λ ask. ask ≡ ask_for_all tree.now) }
{
    Ok(RunAsk {
        stage: Stage::PreCommit,
        candidates: Items::from(paths_of(alloc, tree)?),
        only: None,
        skip: Items::new(alloc),
        reuse: Reuse::All,
    })
}

fn paths_of(alloc: Global, tree: &Tree) -> Result<Vec<RepoPath>, OutOfMemory>
    ensures { IfOk result (λ paths. paths.items ≡ map (λ row. row.path) tree.now) }
{
    let mut paths = Vec::new(alloc);
    'places: for place in 0..tree.len() {
        paths.push(tree.entry(place).path.clone()?)?;
    }
    Ok(paths)
}
