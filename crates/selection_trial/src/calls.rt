//! The calls by name.

use crate::{commands, found, greps, kept, options, paths, tags};
use std::alloc::Global;
use trial_rows::{AnswerBytes, Answers, Row, Stop};

/// The calls of the program.
pub(crate) struct Calls;

impl Answers for Calls {
    fn answer_to(&self, alloc: Global, row: &Row) -> Result<AnswerBytes, Stop> {
        of_selections(alloc, row.call.as_str(), row.arguments.as_slice())
    }
}

// The calls are spread over four functions, each of which calls the next: one `match` with many arms takes
// the checker long.
fn of_selections(alloc: Global, call: &str, arguments: &[Vec<u8>]) -> Result<AnswerBytes, Stop> {
    match call {
        "tags_of" => tags::among(alloc, arguments),
        "shebang" => tags::words_of(alloc, arguments),
        "most_shebang_bytes" => Ok(tags::most_bytes(alloc)),
        "pattern" => paths::built(alloc, arguments),
        "select" => paths::selected(alloc, arguments),
        "select_found" => found::found(alloc, arguments),
        _ => of_kept_tags(alloc, call, arguments),
    }
}

fn of_kept_tags(alloc: Global, call: &str, arguments: &[Vec<u8>]) -> Result<AnswerBytes, Stop> {
    match call {
        "follow" => kept::tags_after(alloc, arguments),
        "select_kept" => kept::selected_after(alloc, arguments),
        _ => of_commands(alloc, call, arguments),
    }
}

fn of_commands(alloc: Global, call: &str, arguments: &[Vec<u8>]) -> Result<AnswerBytes, Stop> {
    match call {
        "fail_answer" => greps::of_fail(alloc, arguments),
        "grep_build" => greps::built(alloc, arguments),
        "grep_answer" => greps::answered(alloc, arguments),
        "words" => commands::cut(alloc, arguments),
        "parts" => commands::partitioned(alloc, arguments),
        _ => of_options(alloc, call, arguments),
    }
}

fn of_options(alloc: Global, call: &str, arguments: &[Vec<u8>]) -> Result<AnswerBytes, Stop> {
    match call {
        "can_split" => options::splits(alloc, arguments),
        "command_reads" => options::read_by(alloc, arguments),
        "tools" => options::tools(alloc),
        "with_options" => options::hooks(alloc, arguments),
        _ => Err(Stop::NoCall),
    }
}
