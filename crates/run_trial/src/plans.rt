//! Runs whose ask is given in full, and that need no child.

use crate::asks::{ask_of, tree_of};
use crate::configurations::refusal;
use hook_base::Tree;
use hook_config::{Config, read_config};
use hook_run::{Need, RunAsk, RunOut, RunPlan, RunRefusal};
use report_text::Ending;
use std::alloc::Global;
use trial_rows::{AnswerBytes, Stop, verdict_of};

/// `run CONFIGURATION STAGE CANDIDATES ONLY SKIP FILE..`: the run's refusal with its number, name and text.
/// Otherwise a line that says that the plan is over, whether every hook passed, what became of the tree, and
/// how many hooks are unsteady. Then come a line for each result, and the report. `Child` if the plan needs a
/// child.
pub(crate) fn played(alloc: Global, arguments: &[Vec<u8>]) -> Result<AnswerBytes, Stop> {
    let [configuration, rest @ ..] = arguments else {
        return Err(Stop::BadLine);
    };
    let Some((asked, files)) = rest.split_at_checked(4) else {
        return Err(Stop::BadLine);
    };
    let (ask, tree) = (ask_of(alloc, asked)?, tree_of(alloc, files)?);
    match read_config(alloc, configuration.as_slice()) {
        Ok(config) => planned(alloc, &config, &ask, &tree),
        Err(fault) => Ok(refusal(alloc, fault)),
    }
}

fn planned(alloc: Global, config: &Config, ask: &RunAsk, tree: &Tree) -> Result<AnswerBytes, Stop> {
    match RunPlan::begin(alloc, config, ask, tree) {
        Ok(plan) => Ok(ended(alloc, plan, tree)),
        Err(refused) => refused_run(alloc, refused),
    }
}

/// The number, name and text of a run's refusal.
pub(crate) fn refused_run(alloc: Global, refused: RunRefusal) -> Result<AnswerBytes, Stop> {
    if refused == RunRefusal::OutOfMemory {
        return Err(Stop::OutOfMemory);
    }
    let answer = AnswerBytes::new(alloc).shown(refused.number());
    Ok(answer.texts(&[" ", refused.name(), ": "]).shown(refused))
}

fn ended(alloc: Global, plan: RunPlan, tree: &Tree) -> AnswerBytes {
    match plan.next() {
        Need::Over => told(alloc, &plan.finish(), tree),
        Need::Child => AnswerBytes::new(alloc).text("Child"),
    }
}

fn told(alloc: Global, out: &RunOut, tree: &Tree) -> AnswerBytes {
    let same = out.tree == *tree;
    let after = if same { "the same" } else { "another" };
    let answer = AnswerBytes::new(alloc).texts(&[
        "Over, ",
        verdict_of(out.passed),
        ", ",
        after,
        " tree, ",
    ]);
    let answer = answer.shown(out.unsteady.len()).text(" unsteady\n");
    with_results(answer, out)
}

/// Adds a line for each result, and the report.
pub(crate) fn with_results(answer: AnswerBytes, out: &RunOut) -> AnswerBytes {
    let mut answer = answer;
    for hook in out.results.as_slice() {
        answer = with_ending(answer.text(hook.id.as_str()), &hook.ending);
    }
    answer.bytes(out.report.as_slice())
}

// How a hook ended.
fn with_ending(answer: AnswerBytes, ending: &Ending) -> AnswerBytes {
    match ending {
        Ending::SkippedAsked => answer.text(": skipped as asked\n"),
        Ending::SkippedNoFiles => answer.text(": skipped, no files\n"),
        Ending::Ran { status, .. } => answer.text(": ran, status ").shown(*status).text("\n"),
    }
}
