//! Hooks that begin ahead of their turns, on the tree as it is, so that their children can be started ahead.

ghost use Rattle.std.specs.Prelude.{◌≡◌, ◌∷◌, List, IfOk};
ghost use Rattle.hook_base.specs.declared.file.File.{File};
ghost use Rattle.hook_config.specs.declared.configuration.Config.{Config};
ghost use Rattle.hook_config.specs.declared.configuration.Hook.{Hook};
ghost use Rattle.child_port.specs.Outcomes.{after_outcome};
ghost use Rattle.hook_run.specs.declared.run_ask.RunAsk.{RunAsk};
ghost use Rattle.hook_run.specs.CandidateFiles.{files_at};
ghost use Rattle.hook_run.specs.HookRun.{IsEnding};
ghost use Rattle.hook_run.specs.PlanStates.{HasBegun, AreBegunAhead, IsCourse, hooks_from};

use crate::advance::hook_at;
use crate::begin::begin_hook;
use crate::candidate_files::CandidateFiles;
use crate::hook_state::HookState;
use crate::run_context::RunContext;
use child_port::Outcome;
use hook_base::{OutOfMemory, Tree};
use hook_config::{Config, Hook};
use std::alloc::Global;

// How many hooks begin ahead at most. Each holds its names.
const MOST_HOOKS: usize = 32;

/// How the hook begins: as was found ahead, otherwise as `begin_hook` says.
#[tactic(auto, using(crate::proofs::AheadLemmas::begun_first, crate::proofs::AheadLemmas::begun_rest))]
pub(crate) fn begin_next<'a>(
    alloc: Global,
    course: &RunContext<'a>,
    hook: &'a Hook,
    tree: &Tree,
    files: &CandidateFiles,
    ahead: &mut Vec<HookState<'a>>,
) -> Result<HookState<'a>, OutOfMemory>
    requires course { IsCourse course.now }
    requires held { files.now ≡ files_at course.now.ask.now.candidates tree.now }
    ensures begun { (hooks : List Hook)
        → AreBegunAhead course.now.config.now course.now.ask.now tree.now (hook.now ∷ hooks) ahead.old.items
        → IfOk result (HasBegun (IsEnding course.now.config.now course.now.ask.now tree.now hook.now) hook.now
        tree.now) }
    ensures left { (hooks : List Hook)
        → AreBegunAhead course.now.config.now course.now.ask.now tree.now (hook.now ∷ hooks) ahead.old.items
        → AreBegunAhead course.now.config.now course.now.ask.now tree.now hooks ahead.new.items }
{
    if ahead.is_empty() {
        begin_hook(alloc, course, hook, tree, files)
    } else {
        Ok(ahead.remove(0))
    }
}

/// The hooks that have begun ahead, after a part with this outcome: none if it changes a file.
#[tactic(auto, using(crate::proofs::AheadLemmas::begun_kept))]
pub(crate) fn ahead_after<'a>(ahead: Vec<HookState<'a>>, outcome: &Outcome) -> Vec<HookState<'a>>
    ensures { (config : Config) (ask : RunAsk) (tree : List File) (hooks : List Hook)
        → AreBegunAhead config ask tree hooks ahead.entry.items
        → AreBegunAhead config ask (after_outcome tree outcome.now) hooks result.items }
{
    match outcome {
        Outcome::Done(answer) => {
            if answer.changes.is_empty() {
                ahead
            } else {
                Vec::new(*ahead.allocator())
            }
        }
        Outcome::Failed(_) => ahead,
    }
}

/// The hooks from this place on, as they begin on the tree: those that have begun ahead, or if there are none,
/// as many as begin now.
pub(crate) fn hooks_begun<'a>(
    course: &RunContext<'a>,
    tree: &Tree,
    files: &CandidateFiles,
    place: usize,
    ahead: Vec<HookState<'a>>,
) -> Vec<HookState<'a>>
    requires course { IsCourse course.now }
    requires held { files.now ≡ files_at course.now.ask.now.candidates tree.now }
    requires ahead { AreBegunAhead course.now.config.now course.now.ask.now tree.now (hooks_from course.now place)
        ahead.items }
    ensures { AreBegunAhead course.now.config.now course.now.ask.now tree.now (hooks_from course.now place)
        result.items }
{
    if !ahead.is_empty() {
        return ahead;
    }
    match begin_some(*ahead.allocator(), course, tree, files, place) {
        Ok(begun) => begun,
        Err(OutOfMemory) => ahead,
    }
}

// Begins hooks from this place on, up to one after which none may follow.
#[tactic(auto, using(crate::proofs::AheadLemmas::begun_more))]
fn begin_some<'a>(
    alloc: Global,
    course: &RunContext<'a>,
    tree: &Tree,
    files: &CandidateFiles,
    place: usize,
) -> Result<Vec<HookState<'a>>, OutOfMemory>
    requires course { IsCourse course.now }
    requires held { files.now ≡ files_at course.now.ask.now.candidates tree.now }
    ensures { IfOk result (λ begun. AreBegunAhead course.now.config.now course.now.ask.now tree.now
        (hooks_from course.now place) begun.items) }
{
    let mut begun = Vec::new(alloc);
    let mut at = place;
    let mut goes_on = true;
    'hooks: while goes_on && at < course.hooks.len() {
        let hook = hook_at(course, at);
        let state = begin_hook(alloc, course, hook, tree, files)?;
        begun.push(state)?;
        goes_on = begun.len() < MOST_HOOKS && !may_be_last(course.config, hook);
        at += 1;
    }
    Ok(begun)
}

/// Whether no hook is run after this one if it fails.
pub(crate) fn may_be_last(config: &Config, hook: &Hook) -> bool {
    config.fail_fast || hook.fail_fast
}
