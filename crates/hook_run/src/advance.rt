//! Goes through the hooks of a run, up to one that waits for a child. (docs/REFERENCE.md, "What a hook
//! answers".)

ghost use Rattle.std.specs.Prelude.{◌≡◌, ◌<◌, ◌≤◌, ◌+◌, ◌-◌, ◌∷◌, IfOk, length};
ghost use Rattle.hook_run.specs.CandidateFiles.{files_at};
ghost use Rattle.hook_run.specs.PlanBounds.{most_left, most_of_hooks};
ghost use Rattle.hook_run.specs.Plans.{hooks_after};
ghost use Rattle.hook_run.specs.StageRun.{is_last};
ghost use Rattle.hook_run.specs.PlanStates.{FitsName, FitsResults, AreBegunAhead, IsCourse, IsPlanFrom, hooks_from};

use crate::RunPlan;
use crate::candidate_files::CandidateFiles;
use crate::hook_state::HookState;
use crate::hooks_ahead::begin_next;
use crate::plan_state::PlanState;
use crate::progress::{Progress, progress_with};
use crate::run_context::RunContext;
use hook_base::{Bytes, OutOfMemory};
use hook_config::{Config, Hook};
use report_text::{Ending, hook_texts};
use std::alloc::Global;

/// The plan of the hooks from this place on, after those that are done. Some may have begun ahead.
pub(crate) fn advance<'a>(
    alloc: Global,
    course: RunContext<'a>,
    done: Progress,
    files: CandidateFiles,
    place: usize,
    ahead: Vec<HookState<'a>>,
) -> Result<RunPlan<'a>, OutOfMemory>
    requires course { IsCourse course }
    requires fits { FitsResults course done.results }
    requires held { files ≡ files_at course.ask.now.candidates done.tree }
    requires ahead { AreBegunAhead course.config.now course.ask.now done.tree (hooks_from course place) ahead.items }
    ensures from { IfOk result (IsPlanFrom course.entry done place) }
    ensures within { IfOk result (λ plan. most_left plan ≤ most_of_hooks (hooks_from course.entry place) done.tree) }
{
    let mut done = done;
    let mut place = place;
    let mut ahead = ahead;
    'hooks: while place < course.hooks.len() {
        let hook = hook_at(&course, place);
        place += 1;
        match begin_next(alloc, &course, hook, &done.tree, &files, &mut ahead)? {
            HookState::Waits(waiting) => {
                return Ok(RunPlan {
                    course,
                    done,
                    files,
                    place,
                    standing: PlanState::Waits(waiting),
                    ahead,
                });
            }
            HookState::Ended(ending, unsteady) => {
                place = place_behind(&course, hook, &ending, place);
                done = progress_with(alloc, done, hook, ending, unsteady)?;
            }
        }
    }
    over(alloc, course, done, files, place, ahead)
}

/// The hook at this place, which there must be.
pub(crate) fn hook_at<'a>(course: &RunContext<'a>, place: usize) -> &'a Hook
    requires { place < length course.now.hooks.items }
    ensures left { hooks_from course.now place ≡ result.now ∷ hooks_from course.now (place + 1) }
    ensures fits { FitsName course.now result.now.name }
{
    course.hooks[place]
}

/// The place at which the run goes on after a hook that ends so: this one, or the end if the hook is the
/// last.
pub(crate) fn place_behind(course: &RunContext, hook: &Hook, ending: &Ending, place: usize) -> usize
    ensures later { length course.now.hooks.items - result ≤ length course.now.hooks.items - place }
    ensures left { hooks_from course.now result
        ≡ hooks_after course.now.config.now hook.now ending.now (hooks_from course.now place) }
{
    if is_last(course.config, hook, ending) {
        course.hooks.len()
    } else {
        place
    }
}

// No hook is run after this one: it failed, and the configuration or the hook has `fail_fast`
// (`pre_commit.commands.run._run_hooks`).
fn is_last(config: &Config, hook: &Hook, ending: &Ending) -> bool
    ensures { result ≡ is_last config.now hook.now ending.now }
{
    (config.fail_fast || hook.fail_fast) && ending.is_failed()
}

// The plan of a run that is over.
fn over<'a>(
    alloc: Global,
    course: RunContext<'a>,
    done: Progress,
    files: CandidateFiles,
    place: usize,
    ahead: Vec<HookState<'a>>,
) -> Result<RunPlan<'a>, OutOfMemory>
    requires course { IsCourse course }
    requires fits { FitsResults course done.results }
    requires held { files ≡ files_at course.ask.now.candidates done.tree }
    requires none { length course.hooks.items ≤ place }
    ensures from { IfOk result (IsPlanFrom course.entry done place) }
    ensures within { IfOk result (λ plan. most_left plan ≤ most_of_hooks (hooks_from course.entry place) done.tree) }
{
    let report = hook_texts(alloc, course.columns, done.results.as_slice())?;
    Ok(RunPlan {
        course,
        done,
        files,
        place,
        standing: PlanState::Over(Bytes::from(report)),
        ahead,
    })
}
