//! The stages of a commit, one after another.

ghost use Rattle.std.specs.Prelude.{◌≡◌, [], ◌∷◌, ◌++◌, IfOk, IfErr, OnOk};
ghost use Rattle.child_port.specs.Telling.{SameTells};
ghost use Rattle.hook_base.specs.Paths.{message_path};
ghost use Rattle.hook_run.specs.RunOuts.{IsBegun, NeedsChild};
ghost use Rattle.hook_run.specs.declared.reuse.Reuse.TheVariants.{All};
ghost use Rattle.hook_run.specs.Moments.{moment};
ghost use Rattle.commit_flow.specs.CommitCalls.{AreRunOver, IsHalted, IsRunStopped, IsStageOver};
ghost use Rattle.commit_flow.specs.CommitStages.{HaveBegun, HaveFurther, ask_with, candidates_in, stages_before_commit, tree_in};
ghost use Rattle.commit_flow.specs.Preparations.{HaveRun, LeavesTold};

use crate::HostRefusal;
use crate::commit_state::CommitState;
use crate::hooks::run_with_book;
use child_port::Children;
use hook_base::{Bytes, Items, OutOfMemory, RepoPath, Text, Tree, copy_texts};
use hook_config::{Config, Stage};
use hook_run::{Reuse, RunAsk, RunOut, RunRefusal};
use result_book::Book;
use std::alloc::Global;

/// How a stage of a commit ended.
#[derive(Drop)]
pub(crate) struct StageEnd {
    /// Whether no hook failed.
    pub(crate) passed: bool,
    /// The report on the hooks.
    pub(crate) report: Bytes,
    /// What is passed on.
    pub(crate) course: CommitState,
}

/// How the stages before a commit ended, with the reports of those that were run.
#[derive(Drop)]
pub(crate) enum StagesEnd {
    /// No hook failed, and the last stage passes this on.
    Passed {
        /// The reports, in order.
        reports: Items<Bytes>,
        /// What is passed on.
        course: CommitState,
    },
    /// A hook of this stage failed.
    Failed {
        /// The stage.
        stage: Stage,
        /// The reports, in order.
        reports: Items<Bytes>,
        /// What the stage passes on.
        course: CommitState,
    },
}

/// The stages before a commit, in order. `prepare-commit-msg` isn't suppressed by `--no-verify`, and the
/// other two are (githooks(5), "prepare-commit-msg"; git-commit(1), "--no-verify").
pub(crate) fn stages_before_commit(no_verify: bool) -> &'static [Stage]
    ensures { result.now ≡ stages_before_commit no_verify }
{
    if no_verify {
        &[Stage::PrepareCommitMsg]
    } else {
        &[Stage::PreCommit, Stage::PrepareCommitMsg, Stage::CommitMsg]
    }
}

/// Runs the hooks of the stages in order, each on what the one before it passes on, up to the first in which
/// a hook fails.
pub(crate) fn run_stages<C: Children, B: Book>(
    alloc: Global,
    children: &mut C,
    book: &mut B,
    config: &Config,
    changed: &[RepoPath],
    skip: &[Text],
    stages: &[Stage],
    course: CommitState,
) -> Result<StagesEnd, HostRefusal>
    ensures run { IfOk result (AreRunOver (C.tells children.old)
        (moment (C.call_count children.old) (C.fault_count children.old) (B.contents book.old))
        (moment (C.call_count children.new) (C.fault_count children.new) (B.contents book.new)) config.now changed.now
        skip.now stages.now course) }
    ensures halted { IfErr result (IsHalted B.refuses (C.tells children.old) All
        (moment (C.call_count children.old) (C.fault_count children.old) (B.contents book.old))
        (moment (C.call_count children.new) (C.fault_count children.new) (B.contents book.new))
        (HaveBegun config.now changed.now skip.now stages.now course)
        (HaveFurther (B.contents book.new) config.now changed.now skip.now stages.now course)) }
    ensures left { LeavesTold (C.tells children.old) (B.contents book.old) (B.leaves book.old) (B.leaves book.new) }
    ensures rest { B.rests book.old book.new }
    ensures same { SameTells (C.tells children.old) (C.tells children.new) }
{
    let mut reports = Vec::new(alloc);
    let mut course = course;
    'stages: for stage in stages {
        let end = run_stage(
            alloc,
            children,
            book,
            config,
            changed,
            skip,
            *stage,
            Reuse::All,
            course,
        )?;
        let StageEnd {
            passed,
            report,
            course: left,
        } = end;
        add_report(&mut reports, report)?;
        if !passed {
            return Ok(StagesEnd::Failed {
                stage: *stage,
                reports: Items::from(reports),
                course: left,
            });
        }
        course = left;
    }
    Ok(StagesEnd::Passed {
        reports: Items::from(reports),
        course,
    })
}

fn add_report(reports: &mut Vec<Bytes>, report: Bytes) -> Result<(), OutOfMemory>
    ensures { OnOk result (reports.new.items ≡ reports.old.items ++ report ∷ []) }
{
    reports.push(report)?;
    Ok(())
}

/// Runs the hooks of a stage on what it gets. They may use these cached results.
pub(crate) fn run_stage<C: Children, B: Book>(
    alloc: Global,
    children: &mut C,
    book: &mut B,
    config: &Config,
    changed: &[RepoPath],
    skip: &[Text],
    stage: Stage,
    reuse: Reuse,
    course: CommitState,
) -> Result<StageEnd, HostRefusal>
    ensures run { IfOk result (IsStageOver (C.tells children.old) reuse
        (moment (C.call_count children.old) (C.fault_count children.old) (B.contents book.old))
        (moment (C.call_count children.new) (C.fault_count children.new) (B.contents book.new)) config.now changed.now
        skip.now stage course) }
    ensures halted { IfErr result (IsHalted B.refuses (C.tells children.old) reuse
        (moment (C.call_count children.old) (C.fault_count children.old) (B.contents book.old))
        (moment (C.call_count children.new) (C.fault_count children.new) (B.contents book.new))
        (IsBegun config.now (ask_with reuse changed.now skip.now stage) (tree_in stage course))
        (NeedsChild (B.contents book.new) config.now (ask_with reuse changed.now skip.now stage)
        (tree_in stage course))) }
    ensures left { LeavesTold (C.tells children.old) (B.contents book.old) (B.leaves book.old) (B.leaves book.new) }
    ensures rest { B.rests book.old book.new }
    ensures same { SameTells (C.tells children.old) (C.tells children.new) }
{
    let begun = course.into_stage(alloc, stage)?;
    let out = run_hooks_of(
        alloc,
        children,
        book,
        config,
        changed,
        skip,
        stage,
        reuse,
        &begun.tree,
    )?;
    let RunOut {
        passed,
        report,
        results: _,
        tree,
        unsteady: _,
    } = out;
    let course = begun.after_stage(alloc, stage, tree)?;
    Ok(StageEnd {
        passed,
        report,
        course,
    })
}

/// Runs the hooks of a stage on the files of the tree. They may use these cached results.
pub(crate) fn run_hooks_of<C: Children, B: Book>(
    alloc: Global,
    children: &mut C,
    book: &mut B,
    config: &Config,
    changed: &[RepoPath],
    skip: &[Text],
    stage: Stage,
    reuse: Reuse,
    tree: &Tree,
) -> Result<RunOut, RunRefusal>
    ensures run { IfOk result (HaveRun (C.tells children.old)
        (moment (C.call_count children.old) (C.fault_count children.old) (B.contents book.old))
        (moment (C.call_count children.new) (C.fault_count children.new) (B.contents book.new)) config.now
        (ask_with reuse changed.now skip.now stage) tree.now) }
    ensures stopped { IfErr result (IsRunStopped B.refuses (C.tells children.old)
        (moment (C.call_count children.old) (C.fault_count children.old) (B.contents book.old))
        (moment (C.call_count children.new) (C.fault_count children.new) (B.contents book.new)) config.now
        (ask_with reuse changed.now skip.now stage) tree.now) }
    ensures left { LeavesTold (C.tells children.old) (B.contents book.old) (B.leaves book.old) (B.leaves book.new) }
    ensures rest { B.rests book.old book.new }
    ensures same { SameTells (C.tells children.old) (C.tells children.new) }
{
    let ask = ask_with(alloc, reuse, changed, skip, stage)?;
    run_with_book(alloc, children, book, config, &ask, tree)
}

fn ask_with(
    alloc: Global,
    reuse: Reuse,
    changed: &[RepoPath],
    skip: &[Text],
    stage: Stage,
) -> Result<RunAsk, OutOfMemory>
    ensures { IfOk result (λ ask. ask ≡ ask_with reuse changed.now skip.now stage) }
{
    let candidates = candidates_in(alloc, changed, stage)?;
    let skip = copy_texts(alloc, skip)?;
    Ok(RunAsk {
        stage,
        candidates,
        only: None,
        skip,
        reuse,
    })
}

// The files that the hooks of a stage may get (`pre_commit.commands.run._all_filenames`).
fn candidates_in(
    alloc: Global,
    changed: &[RepoPath],
    stage: Stage,
) -> Result<Items<RepoPath>, OutOfMemory>
    ensures { IfOk result (λ paths. paths ≡ candidates_in changed.now stage) }
{
    match stage {
        Stage::PreCommit => Ok(Items::from(changed.to_vec(alloc)?)),
        Stage::PrepareCommitMsg => only_message(alloc),
        Stage::CommitMsg => only_message(alloc),
        _ => Ok(Items::new(alloc)),
    }
}

fn only_message(alloc: Global) -> Result<Items<RepoPath>, OutOfMemory>
    ensures { IfOk result (λ paths. paths ≡ message_path ∷ []) }
{
    let mut paths = Vec::new(alloc);
    paths.push(RepoPath::message(alloc)?)?;
    Ok(Items::from(paths))
}
