//! The calls by name.

use crate::{
    book_plays, child_runs, config_kinds, config_texts, configurations, plans, report_texts,
    run_times, stages,
};
use std::alloc::Global;
use trial_rows::{AnswerBytes, Answers, Row, Stop};

/// The calls of the program.
pub(crate) struct Calls;

impl Answers for Calls {
    fn answer_to(&self, alloc: Global, row: &Row) -> Result<AnswerBytes, Stop> {
        of_configurations(alloc, row.call.as_str(), row.arguments.as_slice())
    }
}

// The calls are spread over several functions, each of which calls the next: one `match` with many arms takes
// the checker long.
fn of_configurations(
    alloc: Global,
    call: &str,
    arguments: &[Vec<u8>],
) -> Result<AnswerBytes, Stop> {
    match call {
        "read_config" => configurations::read_alone(alloc, arguments),
        "read_config_with_node" => configurations::read_with_node(alloc, arguments),
        "hooks" => configurations::hooks_alone(alloc, arguments),
        "hooks_with_node" => configurations::hooks_with_node(alloc, arguments),
        _ => of_hook_config(alloc, call, arguments),
    }
}

fn of_hook_config(alloc: Global, call: &str, arguments: &[Vec<u8>]) -> Result<AnswerBytes, Stop> {
    match call {
        "top_patterns" => configurations::top_patterns(alloc, arguments),
        "node" => configurations::node(alloc, arguments),
        "config_text" => config_texts::held(alloc, arguments),
        "empty_config_text" => config_texts::empty(alloc, arguments),
        "config_kind" => config_kinds::told(alloc, arguments),
        _ => of_stages(alloc, call, arguments),
    }
}

fn of_stages(alloc: Global, call: &str, arguments: &[Vec<u8>]) -> Result<AnswerBytes, Stop> {
    match call {
        "hook_stages" => stages::of_hooks(alloc, arguments),
        "stage_of_word" => stages::of_word(alloc, arguments),
        "stages" => stages::of_set(alloc, arguments),
        _ => of_runs(alloc, call, arguments),
    }
}

fn of_runs(alloc: Global, call: &str, arguments: &[Vec<u8>]) -> Result<AnswerBytes, Stop> {
    match call {
        "hook_text" => report_texts::of_hook(alloc, arguments),
        "columns" => report_texts::for_names(alloc, arguments),
        "run" => plans::played(alloc, arguments),
        "run_hooks" => child_runs::played(alloc, arguments),
        "run_plan" => child_runs::planned(alloc, arguments),
        _ => of_books(alloc, call, arguments),
    }
}

fn of_books(alloc: Global, call: &str, arguments: &[Vec<u8>]) -> Result<AnswerBytes, Stop> {
    match call {
        "play_book" => book_plays::played(alloc, arguments),
        "first_runs" => run_times::first_runs(alloc, arguments),
        "further_runs" => run_times::further_runs(alloc, arguments),
        "runs_among" => run_times::runs_among(alloc, arguments),
        "runs_of_each" => run_times::runs_of_each(alloc, arguments),
        _ => Err(Stop::NoCall),
    }
}
