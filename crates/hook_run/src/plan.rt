//! The plan of a run.

ghost use Rattle.std.specs.Prelude.{◌≡◌, ◌≢◌, ◌↔◌, ◌+◌, ◌<◌, ◌≤◌, IfOk, IfErr, Some, length, true, false};
ghost use Rattle.hook_run.specs.Asks.{names_no_hook};
ghost use Rattle.hook_run.specs.CandidateFiles.{files_at};
ghost use Rattle.hook_run.specs.PlanBounds.{most_left, most_of_hooks, parts_at};
ghost use Rattle.hook_run.specs.Plans.{IsPlanAfter, IsPlanOf, need_of, out_of_plan, seen_of_plan, tree_of_plan, words_of_plan};
ghost use Rattle.hook_run.specs.Refusals.{is_of_book};
ghost use Rattle.hook_run.specs.PlanStates.{AreFurther, FitsName, FitsResults, AreBegunAhead, IsCourse, IsPlanAt, IsPlanBehindHook, IsToldFrom, at_part, at_work, hooks_from};

use crate::advance::{advance, place_behind};
use crate::candidate_files::CandidateFiles;
use crate::hook_choice::{hooks_of_run, names_no_hook};
use crate::hook_state::HookState;
use crate::hooks_ahead::{ahead_after, hooks_begun};
use crate::pending_part::PendingPart;
use crate::plan_state::PlanState;
use crate::progress::{Progress, files_after, progress_after, progress_with};
use crate::report::{columns_of, has_passed};
use crate::run_context::RunContext;
use crate::running_hook::{RunningHook, go_on, work_with};
use crate::{Need, RunAsk, RunOut, RunRefusal};
use child_port::Outcome;
use hook_base::{Items, OutOfMemory, Text, Tree};
use hook_config::{Config, Hook};
use path_select::Candidates;
use report_text::Ending;
use std::alloc::Global;
use std::marker::Model;

/// The plan of a run: which child it needs next, and in the end what the run gives. It holds all that it
/// hands out, so only [`begin`](RunPlan::begin) and [`tell`](RunPlan::tell) take memory. Contracts see what
/// is done, what is left of the hook that waits, and the hooks after it.
#[derive(Drop)]
pub struct RunPlan<'a> {
    pub(crate) course: RunContext<'a>,
    pub(crate) done: Progress,
    /// The candidates' files in the tree of `done`.
    pub(crate) files: CandidateFiles,
    pub(crate) place: usize,
    pub(crate) standing: PlanState<'a>,
    /// How the hooks from `place` on begin on that tree, as far as that was found ahead.
    pub(crate) ahead: Vec<HookState<'a>>,
}

impl<'a> Model for RunPlan<'a> {
    ghost use Rattle.hook_run.specs.Plans.{Plan};
    ghost use Rattle.hook_run.specs.PlanStates.{IsPlanned, hooks_from, waiting_at};

    ghost Value = { Plan };

    ghost view = { λ plan. record {
      config = plan.course.config.now;
      ask = plan.course.ask.now;
      done = plan.done;
      waiting =
          waiting_at plan.standing;
      hooks = hooks_from plan.course plan.place;
    } };

    ghost invariant = { λ plan. IsPlanned plan.course plan.done plan.files plan.place plan.standing
        plan.ahead.items };
}

impl<'a> RunPlan<'a> {
    /// The plan of a run of the configuration's hooks on the files of the tree. It goes through the hooks of
    /// the stage in the order of the configuration; if `only` has a name, only through those of that name. A
    /// hook with a name in `skip` is skipped, and so is one without selected files, unless it has
    /// `always_run`. After a failed hook no other is run if the configuration or that hook has `fail_fast`.
    /// These are the rules of `run` and `_run_hooks` in `pre_commit.commands.run`.
    ///
    /// `NoSuchHook` exactly if `only` has a name that no hook of the stage has (a hook in `skip` counts too).
    /// Otherwise `OutOfMemory` if memory is refused. `Book` and `Spent` never come here.
    pub fn begin(
        alloc: Global,
        config: &'a Config,
        ask: &'a RunAsk,
        tree: &Tree,
    ) -> Result<RunPlan<'a>, RunRefusal>
        ensures plan { IfOk result (IsPlanOf config.now ask.now tree.now) }
        ensures no_hook { (result ≡ Err RunRefusal.NoSuchHook) ↔ (names_no_hook config.now ask.now ≡ true) }
        ensures not_spent { IfErr result (λ refusal. refusal ≢ RunRefusal.Spent) }
        ensures not_book { IfErr result (λ refusal. is_of_book refusal ≡ false) }
    {
        if names_no_hook(config, ask) {
            return Err(RunRefusal::NoSuchHook);
        }
        let plan = plan_of(alloc, config, ask, tree)?;
        Ok(plan)
    }

    /// What the plan needs. It takes no memory.
    pub fn next(&self) -> Need
        ensures { result ≡ need_of self.now }
    {
        match &self.standing {
            PlanState::Waits(_) => Need::Child,
            PlanState::Over(_) => Need::Over,
        }
    }

    /// The command of the child that the plan needs, with its names. It takes no memory.
    pub fn words(&self) -> &[Text]
        requires { need_of self.now ≡ Need.Child }
        ensures { result.now ≡ words_of_plan self.now }
    {
        match &self.standing {
            PlanState::Waits(waiting) => waiting.command.as_slice(),
            PlanState::Over(_) => unreachable!(),
        }
    }

    /// The files that the needed child sees. It takes no memory.
    pub fn seen(&self) -> &Tree
        requires { need_of self.now ≡ Need.Child }
        ensures { result.now ≡ seen_of_plan self.now }
    {
        match &self.standing {
            PlanState::Waits(waiting) => &waiting.seen,
            PlanState::Over(_) => unreachable!(),
        }
    }

    /// The tree on which the needed child runs. It takes no memory.
    pub fn tree(&self) -> &Tree
        requires { need_of self.now ≡ Need.Child }
        ensures { result.now ≡ tree_of_plan self.now }
    {
        &self.done.tree
    }

    /// The plan after the child that it needs, with this outcome of the child. `OutOfMemory` if memory is
    /// refused; the plan is gone then. Each outcome leaves fewer parts, so the plan is over at some time.
    pub fn tell(self, outcome: Outcome) -> Result<RunPlan<'a>, OutOfMemory>
        requires { need_of self ≡ Need.Child }
        ensures after { IfOk result (IsPlanAfter self.entry outcome false) }
        ensures fewer { IfOk result (λ after. most_left after < most_left self.entry) }
    {
        self.tell_marked(outcome, false)
    }

    /// The plan after the part that it needs, with this outcome of the part. `unsteady` says whether that is
    /// another answer than the cached one. `OutOfMemory` if memory is refused; the plan is gone then.
    pub(crate) fn tell_marked(
        self,
        outcome: Outcome,
        unsteady: bool,
    ) -> Result<RunPlan<'a>, OutOfMemory>
        requires { need_of self ≡ Need.Child }
        ensures after { IfOk result (IsPlanAfter self.entry outcome unsteady) }
        ensures fewer { IfOk result (λ after. most_left after < most_left self.entry) }
    {
        let RunPlan {
            course,
            done,
            files,
            place,
            standing,
            ahead,
        } = self;
        let waiting = match standing {
            PlanState::Waits(waiting) => waiting,
            PlanState::Over(_) => unreachable!(),
        };
        told(
            course, done, files, place, ahead, waiting, outcome, unsteady,
        )
    }

    /// The same plan. The hooks after the one that waits have begun, as far as nothing that comes between can
    /// change how.
    pub(crate) fn with_hooks_begun(self) -> RunPlan<'a>
        ensures { result ≡ self.entry }
    {
        let RunPlan {
            course,
            done,
            files,
            place,
            standing,
            ahead,
        } = self;
        let ahead = hooks_begun(&course, &done.tree, &files, place, ahead);
        RunPlan {
            course,
            done,
            files,
            place,
            standing,
            ahead,
        }
    }

    /// What the run gives. It takes no memory.
    pub fn finish(self) -> RunOut
        requires { need_of self ≡ Need.Over }
        ensures { result ≡ out_of_plan self.entry }
    {
        let RunPlan { done, standing, .. } = self;
        let report = match standing {
            PlanState::Waits(_) => unreachable!(),
            PlanState::Over(report) => report,
        };
        let Progress {
            results,
            unsteady,
            tree,
        } = done;
        RunOut {
            passed: has_passed(results.as_slice()),
            report,
            results,
            tree,
            unsteady,
        }
    }
}

// The plan of a run of the hooks that are asked for.
fn plan_of<'a>(
    alloc: Global,
    config: &'a Config,
    ask: &'a RunAsk,
    tree: &Tree,
) -> Result<RunPlan<'a>, OutOfMemory>
    ensures { IfOk result (IsPlanOf config.now ask.now tree.now) }
{
    let hooks = hooks_of_run(alloc, config, ask)?;
    let candidates = ask.candidates.as_slice();
    let top_files = config.files.as_pattern();
    let top_exclude = config.exclude.as_pattern();
    let among = Candidates::passing(alloc, top_files, top_exclude, candidates)?;
    let files = CandidateFiles::of(alloc, candidates, tree)?;
    let tree = tree.copy()?;
    let columns = columns_of(alloc, hooks.as_slice())?;
    let course = RunContext {
        config,
        ask,
        hooks,
        among,
        columns,
    };
    let done = Progress {
        results: Items::new(alloc),
        unsteady: Items::new(alloc),
        tree,
    };
    advance(alloc, course, done, files, 0, Vec::new(alloc))
}

// The plan after an outcome of the part that waits.
fn told<'a>(
    course: RunContext<'a>,
    done: Progress,
    files: CandidateFiles,
    place: usize,
    ahead: Vec<HookState<'a>>,
    waiting: PendingPart<'a>,
    outcome: Outcome,
    unsteady: bool,
) -> Result<RunPlan<'a>, OutOfMemory>
    requires course { IsCourse course }
    requires fits { FitsResults course done.results }
    requires held { files ≡ files_at course.ask.now.candidates done.tree }
    requires ahead { AreBegunAhead course.config.now course.ask.now done.tree (hooks_from course place) ahead.items }
    requires fits_at { FitsName course waiting.work.hook.now.name }
    requires further { AreFurther waiting.work.hook.now waiting.work.further done.tree }
    ensures from { IfOk result (IsToldFrom course.entry done place waiting.entry outcome unsteady) }
    ensures fewer { IfOk result (λ plan. most_left plan < parts_at (Some (at_part waiting.entry)) + most_of_hooks
        (hooks_from course.entry place) done.tree) }
{
    let alloc = *course.hooks.allocator();
    let PendingPart { work, .. } = waiting;
    let work = work_with(work, &outcome, unsteady)?;
    let ahead = ahead_after(ahead, &outcome);
    let files = files_after(files, &outcome)?;
    let done = progress_after(done, outcome)?;
    plan_at(alloc, course, done, files, place, ahead, work)
}

// The plan in which this hook goes on.
fn plan_at<'a>(
    alloc: Global,
    course: RunContext<'a>,
    done: Progress,
    files: CandidateFiles,
    place: usize,
    ahead: Vec<HookState<'a>>,
    work: RunningHook<'a>,
) -> Result<RunPlan<'a>, OutOfMemory>
    requires course { IsCourse course }
    requires fits { FitsResults course done.results }
    requires held { files ≡ files_at course.ask.now.candidates done.tree }
    requires ahead { AreBegunAhead course.config.now course.ask.now done.tree (hooks_from course place) ahead.items }
    requires fits_at { FitsName course work.hook.now.name }
    requires further { AreFurther work.hook.now work.further done.tree }
    ensures from { IfOk result (IsPlanAt course.entry done place (at_work work.entry)) }
    ensures within { IfOk result (λ plan. most_left plan ≤ length (at_work work.entry).commands + most_of_hooks
        (hooks_from course.entry place) done.tree) }
{
    let hook = work.hook;
    match go_on(alloc, work, &done.tree)? {
        HookState::Waits(waiting) => Ok(RunPlan {
            course,
            done,
            files,
            place,
            standing: PlanState::Waits(waiting),
            ahead,
        }),
        HookState::Ended(ending, unsteady) => {
            plan_behind_hook(
                alloc, course, done, files, place, ahead, hook, ending, unsteady,
            )
        }
    }
}

// The plan after a hook that ends so.
fn plan_behind_hook<'a>(
    alloc: Global,
    course: RunContext<'a>,
    done: Progress,
    files: CandidateFiles,
    place: usize,
    ahead: Vec<HookState<'a>>,
    hook: &Hook,
    ending: Ending,
    unsteady: bool,
) -> Result<RunPlan<'a>, OutOfMemory>
    requires course { IsCourse course }
    requires fits { FitsResults course done.results }
    requires held { files ≡ files_at course.ask.now.candidates done.tree }
    requires ahead { AreBegunAhead course.config.now course.ask.now done.tree (hooks_from course place) ahead.items }
    requires fits_at { FitsName course hook.now.name }
    ensures from { IfOk result (IsPlanBehindHook course.entry done place hook.now ending unsteady) }
    ensures within { IfOk result (λ plan. most_left plan ≤ most_of_hooks (hooks_from course.entry place) done.tree) }
{
    let place = place_behind(&course, hook, &ending, place);
    let done = progress_with(alloc, done, hook, ending, unsteady)?;
    advance(alloc, course, done, files, place, ahead)
}
