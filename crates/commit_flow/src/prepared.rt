//! What is prepared before the hooks of a run start.

ghost use Rattle.std.specs.Prelude.{◌≡◌, IfOk, IfErr};
ghost use Rattle.commit_flow.specs.Preparations.{IsPrepared, IsUnprepared, run_ask_with};
ghost use Rattle.commit_flow.specs.Runs.{reuse_with, stage_of_ask};

use crate::candidates::candidates;
use crate::staged_configuration::staged_config;
use crate::{AskStage, HostAsk, HostRefusal};
use hook_base::{Items, OutOfMemory, RepoPath, Text, Tree, copy_texts};
use hook_config::{Config, Stage};
use hook_run::{Reuse, RunAsk};
use repo_store::Store;
use run_options::{RunOptions, with_options};
use sqlite::Alter;
use std::alloc::Global;

/// What is prepared before the hooks of a run start.
#[derive(Drop)]
pub(crate) struct Prepared {
    /// The staged configuration, changed by the options of the run.
    pub config: Config,
    /// What is asked of the hooks.
    pub ask: RunAsk,
    /// The staged files.
    pub tree: Tree,
}

/// Prepares a run. First comes `NoConfig` if no configuration is staged, and `BadConfig` if it can't be read.
/// Then comes the first name that is no path (`BadPath`) or isn't staged (`NotStaged`). `OutOfMemory` comes
/// if memory is refused.
pub(crate) fn prepare<S: Alter>(
    alloc: Global,
    store: &Store<S>,
    ask: &HostAsk,
) -> Result<Prepared, HostRefusal>
    ensures ready { IfOk result (IsPrepared store.now.kept.repo ask.now) }
    ensures refused { IfErr result (IsUnprepared store.now.kept.repo ask.now) }
{
    let staged = staged_config(alloc, store)?;
    let config = with_options(alloc, staged, ask.options)?;
    let tree = store.staged()?;
    let candidates = candidates(alloc, store, &tree, &ask.which)?;
    let ask = run_ask_with(alloc, ask, candidates)?;
    Ok(Prepared { config, ask, tree })
}

// What is asked of the hooks if they may get these files.
fn run_ask_with(
    alloc: Global,
    ask: &HostAsk,
    candidates: Items<RepoPath>,
) -> Result<RunAsk, OutOfMemory>
    ensures { IfOk result (λ asked. asked ≡ run_ask_with ask.now candidates) }
{
    let only = copy_name(&ask.only)?;
    let skip = copy_texts(alloc, ask.skip.as_slice())?;
    Ok(RunAsk {
        stage: stage_of(ask.stage),
        candidates,
        only,
        skip,
        reuse: reuse_with(ask.fresh, ask.options),
    })
}

/// Which cached results hooks may use: afresh none, and with caution those that passed.
pub(crate) fn reuse_with(fresh: bool, options: RunOptions) -> Reuse
    ensures { result ≡ reuse_with fresh options }
{
    if fresh {
        Reuse::Nothing
    } else if options.cautious {
        Reuse::Passed
    } else {
        Reuse::All
    }
}

fn copy_name(name: &Option<Text>) -> Result<Option<Text>, OutOfMemory>
    ensures { IfOk result (λ copy. copy ≡ name.now) }
{
    match name {
        None => Ok(None),
        Some(name) => Ok(Some(name.clone()?)),
    }
}

fn stage_of(stage: AskStage) -> Stage
    ensures { result ≡ stage_of_ask stage }
{
    match stage {
        AskStage::PreCommit => Stage::PreCommit,
        AskStage::PostCommit => Stage::PostCommit,
        AskStage::Manual => Stage::Manual,
    }
}
