//! What the finished hooks of a run left.

ghost use Rattle.std.specs.Prelude.{◌≡◌, IfOk};
ghost use Rattle.child_port.specs.Outcomes.{after_outcome};
ghost use Rattle.hook_run.specs.Plans.{progress_with, result_of};
ghost use Rattle.hook_run.specs.PlanStates.{id_if, on_tree};

use crate::candidate_files::CandidateFiles;
use child_port::Outcome;
use hook_base::{Items, OutOfMemory, Text, Tree};
use hook_config::Hook;
use report_text::{Ending, HookResult};
use std::alloc::Global;

/// What the finished hooks left: their results, the ids of the unsteady ones, and the tree. While a hook has
/// children, the tree is what its finished parts left.
#[derive(Drop)]
pub(crate) struct Progress {
    pub(crate) results: Items<HookResult>,
    pub(crate) unsteady: Items<Text>,
    pub(crate) tree: Tree,
}

/// What is left after a hook that ends so. `unsteady` says whether one of its parts gave another answer than
/// the cached one.
pub(crate) fn progress_with(
    alloc: Global,
    done: Progress,
    hook: &Hook,
    ending: Ending,
    unsteady: bool,
) -> Result<Progress, OutOfMemory>
    ensures { IfOk result (λ after. after ≡ progress_with done hook.now ending (id_if unsteady hook.now) done.tree) }
{
    let Progress {
        results,
        unsteady: ids,
        tree,
    } = done;
    let mut results = results.into_vec();
    results.push(result_of(alloc, hook, ending)?)?;
    let mut ids = ids.into_vec();
    if unsteady {
        ids.push(Text::copy_of(alloc, hook.id.as_str())?)?;
    }
    Ok(Progress {
        results: Items::from(results),
        unsteady: Items::from(ids),
        tree,
    })
}

fn result_of(alloc: Global, hook: &Hook, ending: Ending) -> Result<HookResult, OutOfMemory>
    ensures { IfOk result (λ made. made ≡ result_of hook.now ending) }
{
    Ok(HookResult {
        name: Text::copy_of(alloc, hook.name.as_str())?,
        id: Text::copy_of(alloc, hook.id.as_str())?,
        verbose: hook.verbose,
        ending,
    })
}

/// What is left after a part with this outcome: its changes are applied, and the tree keeps their bytes.
pub(crate) fn progress_after(done: Progress, outcome: Outcome) -> Result<Progress, OutOfMemory>
    ensures { IfOk result (λ after. after ≡ on_tree done (after_outcome done.tree outcome)) }
{
    let Progress {
        results,
        unsteady,
        mut tree,
    } = done;
    if let Outcome::Done(answer) = outcome {
        tree.absorb(answer.changes.into_vec())?;
    }
    Ok(Progress {
        results,
        unsteady,
        tree,
    })
}

/// The candidates' files after a part with this outcome, with their tags.
pub(crate) fn files_after(
    files: CandidateFiles,
    outcome: &Outcome,
) -> Result<CandidateFiles, OutOfMemory>
    ensures { IfOk result (λ after. after ≡ after_outcome files outcome.now) }
{
    let mut files = files;
    if let Outcome::Done(answer) = outcome {
        files.follow(answer.changes.as_slice())?;
    }
    Ok(files)
}
