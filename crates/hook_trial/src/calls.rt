//! The calls by name.

use crate::{checks, command_lines, fault_texts, host_commands, messages, plays, runs, try_faults};
use std::alloc::Global;
use trial_rows::{AnswerBytes, Answers, Row, Stop};

/// The calls of the program.
pub(crate) struct Calls;

impl Answers for Calls {
    fn answer_to(&self, alloc: Global, row: &Row) -> Result<AnswerBytes, Stop> {
        of_runs(alloc, row.call.as_str(), row.arguments.as_slice())
    }
}

// The calls are spread over several functions, each of which calls the next: one `match` with many arms takes
// the checker long.
fn of_runs(alloc: Global, call: &str, arguments: &[Vec<u8>]) -> Result<AnswerBytes, Stop> {
    match call {
        "try_over" => runs::over_files(alloc, arguments),
        "try_failing_reader" => runs::with_failing_reader(alloc, arguments),
        "try_failing_writer" => runs::with_failing_writer(alloc, arguments),
        "try_texts" => runs::of_texts(alloc, arguments),
        "try_left" => runs::with_bytes_left(alloc, arguments),
        _ => of_hook_cli(alloc, call, arguments),
    }
}

fn of_hook_cli(alloc: Global, call: &str, arguments: &[Vec<u8>]) -> Result<AnswerBytes, Stop> {
    match call {
        "try_flushed" => runs::with_flushes(alloc, arguments),
        "try_fault" => try_faults::told(alloc, arguments),
        "check_text" => checks::of_text(alloc, arguments),
        "most_configuration_bytes" => checks::most_bytes(alloc, arguments),
        "line_of" => command_lines::asked(alloc, arguments),
        _ => of_commit_flow(alloc, call, arguments),
    }
}

fn of_commit_flow(alloc: Global, call: &str, arguments: &[Vec<u8>]) -> Result<AnswerBytes, Stop> {
    match call {
        "command_over" => host_commands::played(alloc, arguments),
        "begun_message" => messages::begun(alloc, arguments),
        "cleaned_message" => messages::cleaned(alloc, arguments),
        "play" => plays::played(alloc, arguments),
        "fault_texts" => fault_texts::told(alloc),
        _ => Err(Stop::NoCall),
    }
}
