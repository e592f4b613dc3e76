//! A commit of the staged files, through its hooks.

ghost use Rattle.std.specs.Prelude.{IfOk, IfErr};
ghost use Rattle.child_port.specs.Telling.{SameTells};
ghost use Rattle.repo_store.specs.StoreBooks.{IsAtRest, MayRemember, remembered_by};
ghost use Rattle.hook_run.specs.Moments.{moment};
ghost use Rattle.commit_flow.specs.declared.command.Command.TheVariants.{Commit};
ghost use Rattle.commit_flow.specs.Commands.{reply_of, reply_of_ending};
ghost use Rattle.commit_flow.specs.CommitCalls.{IsThrough, IsUnthrough};
ghost use Rattle.commit_flow.specs.KeptByHooks.{KeepsForCommit};
ghost use Rattle.commit_flow.specs.CommitSteps.{IsCommitStep};
ghost use Rattle.commit_flow.specs.Preparations.{LeavesTold};
ghost use Rattle.commit_flow.specs.Stops.{IsPlayedSafely};

use crate::commit_begun::{CommitBegun, begin_commit};
use crate::commit_ending::{run_post_commit, set_fixes_to};
use crate::commit_staged::commit_staged;
use crate::commit_stages::{StagesEnd, run_stages, stages_before_commit};
use crate::{CommitEnding, Host, HostRefusal};
use child_port::Children;
use hook_base::Text;
use hook_config::Config;
use repo_store::Store;
use sqlite::Alter;
use std::alloc::Global;

/// How the stages before a commit ended, with the configuration that says which hooks they have.
#[derive(Drop)]
pub(crate) struct Through {
    /// The staged configuration.
    pub(crate) config: Config,
    /// How the stages ended.
    pub(crate) end: StagesEnd,
}

impl<S: Alter> Host<S> {
    /// Commits the staged files, with the children's outcomes. The hooks of `pre-commit`,
    /// `prepare-commit-msg` and `commit-msg` are run, each stage on what the one before it left, and then
    /// those of `post-commit` (githooks(5)). With `no_verify` only those of `prepare-commit-msg` are run
    /// before the commit (git-commit(1), "--no-verify"). The message is cleaned once the hooks before the
    /// commit are through. A commit removes the fixes, and what the hooks did to files is dropped.
    ///
    /// If a hook before the commit fails, no commit is made, and the fixes are what the hooks did to the
    /// staged files. If the run of the hooks after the commit is refused, the answer says so, and the commit
    /// remains.
    ///
    /// Refusals come in this order:
    ///
    /// - before any child is started: a message of more than 16 MiB (`TooLarge`), staged files that are those
    ///   of the last commit (`NothingStaged`), no staged configuration (`NoConfig`), and one that can't be
    ///   read (`BadConfig`);
    /// - while hooks run: `Spent` if a child is needed and the children have reported as many outcomes as can
    ///   be counted; `Collision` or `Store` if the store can't cache an answer or look one up, which notes
    ///   its use;
    /// - after hooks that passed: a cleaned message that is empty (`EmptyMessage`), one of more than 16 MiB
    ///   (`Store`), and one commit more than 100,000 (`TooMany`);
    /// - after a hook that failed: fixes whose contents have the digest of others (`Collision`), and fixes of
    ///   more than 16 MiB (`Store`).
    ///
    /// `Store` comes also if the database refuses a commit or fixes against which none of these speaks.
    /// `OutOfMemory` comes if memory is refused. A refusal leaves the repository as it was, the children with
    /// the outcomes that they have reported, and what was cached by then. Every stage uses cached results,
    /// also the one after the commit: if the answer of a child is cached, none is started.
    pub fn commit<C: Children>(
        &mut self,
        alloc: Global,
        children: &mut C,
        message: &[u8],
        no_verify: bool,
        skip: &[Text],
    ) -> Result<CommitEnding, HostRefusal>
        ensures step { IsCommitStep (C.tells children.old)
            (moment (C.call_count children.old) (C.fault_count children.old) (remembered_by self.old.store.kept))
            (moment (C.call_count children.new) (C.fault_count children.new) (remembered_by self.new.store.kept))
            self.old.store.kept.repo message.now no_verify skip.now (reply_of reply_of_ending result)
            self.new.store.kept }
        ensures kept { KeepsForCommit self.old.store.kept self.new.store.kept result }
        ensures command { IsPlayedSafely S.Store (C.tells children.old)
            (moment (C.call_count children.old) (C.fault_count children.old) (remembered_by self.old.store.kept))
            (moment (C.call_count children.new) (C.fault_count children.new) (remembered_by self.new.store.kept))
            self.old.store self.new.store (Commit message.now no_verify skip.now) (reply_of reply_of_ending result) }
        ensures same { SameTells (C.tells children.old) (C.tells children.new) }
    {
        commit_in(alloc, children, &mut self.store, message, no_verify, skip)
    }
}

// The commit, on the host's store.
fn commit_in<C: Children, S: Alter>(
    alloc: Global,
    children: &mut C,
    store: &mut Store<S>,
    message: &[u8],
    no_verify: bool,
    skip: &[Text],
) -> Result<CommitEnding, HostRefusal>
    ensures step { IsCommitStep (C.tells children.old)
        (moment (C.call_count children.old) (C.fault_count children.old) (remembered_by store.old.kept))
        (moment (C.call_count children.new) (C.fault_count children.new) (remembered_by store.new.kept))
        store.old.kept.repo message.now no_verify skip.now (reply_of reply_of_ending result) store.new.kept }
    ensures kept { KeepsForCommit store.old.kept store.new.kept result }
    ensures command { IsPlayedSafely S.Store (C.tells children.old)
        (moment (C.call_count children.old) (C.fault_count children.old) (remembered_by store.old.kept))
        (moment (C.call_count children.new) (C.fault_count children.new) (remembered_by store.new.kept)) store.old
        store.new (Commit message.now no_verify skip.now) (reply_of reply_of_ending result) }
    ensures same { SameTells (C.tells children.old) (C.tells children.new) }
{
    let through = go_through(alloc, children, store, message, no_verify, skip)?;
    let Through { config, end } = through;
    match end {
        StagesEnd::Failed {
            stage,
            reports,
            course,
        } => {
            set_fixes_to(store, &course.tree)?;
            return Ok(CommitEnding::HooksFailed { stage, reports });
        }
        StagesEnd::Passed { reports, course } => {
            let number = commit_staged(alloc, store, course.message.as_slice())?;
            let post = run_post_commit(alloc, children, store, &config, skip);
            Ok(CommitEnding::Committed {
                number,
                reports,
                post,
            })
        }
    }
}

// Runs the hooks before the commit.
fn go_through<C: Children, S: Alter>(
    alloc: Global,
    children: &mut C,
    store: &mut Store<S>,
    message: &[u8],
    no_verify: bool,
    skip: &[Text],
) -> Result<Through, HostRefusal>
    ensures through { IfOk result (IsThrough (C.tells children.old)
        (moment (C.call_count children.old) (C.fault_count children.old) (remembered_by store.old.kept))
        (moment (C.call_count children.new) (C.fault_count children.new) (remembered_by store.new.kept))
        store.old.kept.repo message.now no_verify skip.now) }
    ensures refused { IfErr result (IsUnthrough (C.tells children.old)
        (moment (C.call_count children.old) (C.fault_count children.old) (remembered_by store.old.kept))
        (moment (C.call_count children.new) (C.fault_count children.new) (remembered_by store.new.kept))
        store.old.kept.repo message.now no_verify skip.now) }
    ensures left { LeavesTold (C.tells children.old) (remembered_by store.old.kept) (MayRemember S.Store store.old)
        (MayRemember S.Store store.new) }
    ensures rest { IsAtRest S.Store store.old store.new }
    ensures same { SameTells (C.tells children.old) (C.tells children.new) }
{
    let begun = begin_commit(alloc, store, message)?;
    let CommitBegun {
        config,
        changed,
        course,
    } = begun;
    let stages = stages_before_commit(no_verify);
    let end = run_stages(
        alloc,
        children,
        store,
        &config,
        changed.as_slice(),
        skip,
        stages,
        course,
    )?;
    Ok(Through { config, end })
}
