//! Runs over children that answer from a table, one of which may fail.

use crate::asks::{ask_of, tree_of};
use crate::configurations::refusal;
use crate::plans::{refused_run, with_results};
use child_port::{Children, FuseChildren, TableChildren, TableRow};
use hook_base::{Change, Items, Tree};
use hook_config::{Config, read_config};
use hook_run::{Need, RunAsk, RunOut, RunPlan, RunRefusal, run_hooks};
use result_book::ListBook;
use std::alloc::Global;
use store_faults::FIRST_LIMIT;
use trial_rows::{AnswerBytes, Stop, fault_of, number_of, row_of, text_of, verdict_of};

// A run that a row asks for: its configuration, its children and its files.
#[derive(Drop)]
struct Asked<'a> {
    configuration: &'a [u8],
    children: FuseChildren<TableChildren>,
    ask: RunAsk,
    tree: Tree,
}

/// `run_hooks CONFIGURATION STAGE CANDIDATES ONLY SKIP CALLS KTH FAULT COUNT ROW.. FILE..`: a run over
/// children that answer from the first COUNT rows. They have reported CALLS outcomes already, or with `all`
/// as many as can be counted, and their call number KTH fails.
///
/// It answers the run's refusal with its number, name and text. Otherwise it answers a line that says whether
/// every hook passed, how many outcomes the run added, how many of them are faults, and how many hooks are
/// unsteady. Then come a line for each changed file, a line for each result, and the report.
pub(crate) fn played(alloc: Global, arguments: &[Vec<u8>]) -> Result<AnswerBytes, Stop> {
    let Asked {
        configuration,
        children,
        ask,
        tree,
    } = asked_by(alloc, arguments)?;
    let mut children = children;
    match read_config(alloc, configuration) {
        Ok(config) => run_over(alloc, &mut children, &config, &ask, &tree),
        Err(fault) => Ok(refusal(alloc, fault)),
    }
}

/// `run_plan ..`: the same, but here the program starts the children that the plan of the run needs, and
/// gives their outcomes to it.
pub(crate) fn planned(alloc: Global, arguments: &[Vec<u8>]) -> Result<AnswerBytes, Stop> {
    let Asked {
        configuration,
        children,
        ask,
        tree,
    } = asked_by(alloc, arguments)?;
    let mut children = children;
    match read_config(alloc, configuration) {
        Ok(config) => plan_over(alloc, &mut children, &config, &ask, &tree),
        Err(fault) => Ok(refusal(alloc, fault)),
    }
}

fn asked_by(alloc: Global, arguments: &[Vec<u8>]) -> Result<Asked<'_>, Stop> {
    let [configuration, rest @ ..] = arguments else {
        return Err(Stop::BadLine);
    };
    let Some((asked, rest)) = rest.split_at_checked(4) else {
        return Err(Stop::BadLine);
    };
    let [calls, kth, fault, count, rest @ ..] = rest else {
        return Err(Stop::BadLine);
    };
    let Some((rows, files)) = rest.split_at_checked(number_of(count.as_slice())? as usize) else {
        return Err(Stop::BadLine);
    };
    let table = table_of(alloc, calls.as_slice(), rows)?;
    let kth = u64::from(number_of(kth.as_slice())?);
    Ok(Asked {
        configuration: configuration.as_slice(),
        children: FuseChildren::new(table, kth, fault_of(fault.as_slice())?),
        ask: ask_of(alloc, asked)?,
        tree: tree_of(alloc, files)?,
    })
}

pub(crate) fn table_of(
    alloc: Global,
    calls: &[u8],
    texts: &[Vec<u8>],
) -> Result<TableChildren, Stop> {
    let calls = match text_of(calls)? {
        "all" => u64::MAX,
        _ => u64::from(number_of(calls)?),
    };
    let mut rows: Vec<TableRow> = Vec::new(alloc);
    for text in texts {
        rows.push(row_of(alloc, text_of(text.as_slice())?)?)?;
    }
    Ok(TableChildren::with_calls(Items::from(rows), calls))
}

fn run_over(
    alloc: Global,
    children: &mut FuseChildren<TableChildren>,
    config: &Config,
    ask: &RunAsk,
    tree: &Tree,
) -> Result<AnswerBytes, Stop> {
    let (calls, faults) = (children.calls(), children.faults());
    let mut book = ListBook::new(alloc, FIRST_LIMIT);
    match run_hooks(alloc, children, &mut book, config, ask, tree) {
        Ok(ran) => {
            let calls = children.calls().saturating_sub(calls);
            let faults = children.faults().saturating_sub(faults);
            told(alloc, &ran.out, calls, faults, tree)
        }
        Err(refused) => refused_run(alloc, refused),
    }
}

fn plan_over(
    alloc: Global,
    children: &mut FuseChildren<TableChildren>,
    config: &Config,
    ask: &RunAsk,
    tree: &Tree,
) -> Result<AnswerBytes, Stop> {
    let (calls, faults) = (children.calls(), children.faults());
    let mut plan = match RunPlan::begin(alloc, config, ask, tree) {
        Ok(plan) => plan,
        Err(refused) => return refused_run(alloc, refused),
    };
    'children: while plan.next() == Need::Child {
        if children.calls() == u64::MAX {
            return refused_run(alloc, RunRefusal::Spent);
        }
        let outcome = children.run(plan.words(), plan.tree(), plan.seen())?;
        plan = plan.tell(outcome)?;
    }
    let calls = children.calls().saturating_sub(calls);
    let faults = children.faults().saturating_sub(faults);
    told(alloc, &plan.finish(), calls, faults, tree)
}

fn told(
    alloc: Global,
    out: &RunOut,
    calls: u64,
    faults: u64,
    tree: &Tree,
) -> Result<AnswerBytes, Stop> {
    let changes = tree.changes_to(&out.tree)?;
    let answer = AnswerBytes::new(alloc).texts(&[verdict_of(out.passed), ", "]);
    let answer = answer.shown(calls).text(" calls, ");
    let answer = answer.shown(faults).text(" faults, ");
    let answer = answer.shown(out.unsteady.len()).text(" unsteady\n");
    Ok(with_results(with_changes(answer, changes.as_slice()), out))
}

pub(crate) fn with_changes(answer: AnswerBytes, changes: &[Change]) -> AnswerBytes {
    let mut answer = answer;
    for change in changes {
        let what = if change.now.is_some() {
            "changed "
        } else {
            "gone "
        };
        answer = answer.texts(&[what, change.path.as_str(), "\n"]);
    }
    answer
}
