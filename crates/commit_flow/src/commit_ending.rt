//! How a commit ends.

ghost use Rattle.std.specs.Prelude.{[], IfOk, IfErr};
ghost use Rattle.child_port.specs.Telling.{SameTells};
ghost use Rattle.hook_base.specs.Trees.{changes_between};
ghost use Rattle.repo_store.specs.AllOrNothing.{IsAllOrNothing};
ghost use Rattle.repo_store.specs.Kept.{setting};
ghost use Rattle.repo_store.specs.StoreBooks.{IsAtRest, MayRemember, RefusesAnswers, remembered_by};
ghost use Rattle.hook_run.specs.Moments.{moment};
ghost use Rattle.commit_flow.specs.CommitCalls.{IsOneChange, IsPostOver, IsRunStopped, IsUnfixed};
ghost use Rattle.commit_flow.specs.CommitStages.{ask_in};
ghost use Rattle.commit_flow.specs.Preparations.{HaveRun, LeavesTold};

use crate::commit_stages::run_hooks_of;
use crate::{HostRefusal, PostCommit};
use child_port::Children;
use hook_base::{Bytes, Items, Text, Tree};
use hook_config::{Config, Stage};
use hook_run::{Reuse, RunOut, RunRefusal};
use repo_store::Store;
use sqlite::Alter;
use std::alloc::Global;

/// How a commit ends that isn't refused.
#[derive(Debug, Drop)]
pub enum CommitEnding {
    /// The commit was made.
    Committed {
        /// Its number.
        number: u32,
        /// The reports of the stages before the commit, in order.
        reports: Items<Bytes>,
        /// What became of the hooks after the commit.
        post: PostCommit,
    },
    /// A hook failed before the commit, which wasn't made.
    HooksFailed {
        /// The stage of the hook.
        stage: Stage,
        /// The reports of the stages up to this one, in order.
        reports: Items<Bytes>,
    },
}

/// Sets the fixes to what became of the staged files in the tree. `Collision` comes if the contents of a fix
/// have the digest of others. `Store` comes if the database refuses or a fix has more than 16 MiB, and
/// `OutOfMemory` if memory is refused. A refusal leaves the store as it was.
pub(crate) fn set_fixes_to<S: Alter>(store: &mut Store<S>, tree: &Tree) -> Result<(), HostRefusal>
    ensures refused { IfErr result (IsUnfixed store.old.kept.contents
        (changes_between store.old.kept.repo.staged tree.now)) }
    ensures change { IsAllOrNothing store.old.kept store.new.kept result
        (setting (changes_between store.old.kept.repo.staged tree.now) store.old.kept) }
    ensures one { IsOneChange S.Store store.old store.new result
        (setting (changes_between store.old.kept.repo.staged tree.now) store.old.kept) }
{
    let staged = store.staged()?;
    let changes = staged.changes_to(tree)?;
    store.set_fixes(changes.as_slice())?;
    Ok(())
}

/// Runs the hooks after a commit on the staged files; they get no names. What they do to files is dropped,
/// and they can't affect the commit (githooks(5), "post-commit").
pub(crate) fn run_post_commit<C: Children, S: Alter>(
    alloc: Global,
    children: &mut C,
    store: &mut Store<S>,
    config: &Config,
    skip: &[Text],
) -> PostCommit
    ensures post { IsPostOver (C.tells children.old)
        (moment (C.call_count children.old) (C.fault_count children.old) (remembered_by store.old.kept))
        (moment (C.call_count children.new) (C.fault_count children.new) (remembered_by store.new.kept)) config.now
        store.old.kept.repo.staged skip.now result }
    ensures left { LeavesTold (C.tells children.old) (remembered_by store.old.kept) (MayRemember S.Store store.old)
        (MayRemember S.Store store.new) }
    ensures rest { IsAtRest S.Store store.old store.new }
    ensures same { SameTells (C.tells children.old) (C.tells children.new) }
{
    match run_on_staged(alloc, children, store, config, skip) {
        Ok(
            RunOut {
                passed: _,
                report,
                results: _,
                tree: _,
                unsteady: _,
            },
        ) => PostCommit::Told(report),
        Err(refusal) => PostCommit::Stopped(refusal),
    }
}

fn run_on_staged<C: Children, S: Alter>(
    alloc: Global,
    children: &mut C,
    store: &mut Store<S>,
    config: &Config,
    skip: &[Text],
) -> Result<RunOut, RunRefusal>
    ensures run { IfOk result (HaveRun (C.tells children.old)
        (moment (C.call_count children.old) (C.fault_count children.old) (remembered_by store.old.kept))
        (moment (C.call_count children.new) (C.fault_count children.new) (remembered_by store.new.kept)) config.now
        (ask_in [] skip.now Stage.PostCommit) store.old.kept.repo.staged) }
    ensures stopped { IfErr result (IsRunStopped RefusesAnswers (C.tells children.old)
        (moment (C.call_count children.old) (C.fault_count children.old) (remembered_by store.old.kept))
        (moment (C.call_count children.new) (C.fault_count children.new) (remembered_by store.new.kept)) config.now
        (ask_in [] skip.now Stage.PostCommit) store.old.kept.repo.staged) }
    ensures left { LeavesTold (C.tells children.old) (remembered_by store.old.kept) (MayRemember S.Store store.old)
        (MayRemember S.Store store.new) }
    ensures rest { IsAtRest S.Store store.old store.new }
    ensures same { SameTells (C.tells children.old) (C.tells children.new) }
{
    let staged = store.staged()?;
    run_hooks_of(
        alloc,
        children,
        store,
        config,
        &[],
        skip,
        Stage::PostCommit,
        Reuse::All,
        &staged,
    )
}
