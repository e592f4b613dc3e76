//! Which call a name means.

use crate::{
    children, contents, copies, flows, kinds, lines, path_faults, paths, read_records, records,
    texts, tree_plays, trees,
};
use std::alloc::Global;
use trial_rows::{AnswerBytes, Answers, Row, Stop};

/// The calls of the program.
pub(crate) struct Calls;

impl Answers for Calls {
    fn answer_to(&self, alloc: Global, row: &Row) -> Result<AnswerBytes, Stop> {
        of_row(alloc, row.call.as_str(), row.arguments.as_slice())
    }
}

// The calls are in several functions, each of which calls the next: one function with many arms takes long
// to check.
fn of_row(alloc: Global, name: &str, words: &[Vec<u8>]) -> Result<AnswerBytes, Stop> {
    match name {
        "trees" => trees::answer(alloc, words),
        "children" => children::answer(alloc, words),
        "copy_texts" => copies::copy_all(alloc, words),
        _ => of_records(alloc, name, words),
    }
}

fn of_records(alloc: Global, name: &str, words: &[Vec<u8>]) -> Result<AnswerBytes, Stop> {
    match name {
        "words_record" => records::of_words(alloc, words),
        "seen_record" => records::of_seen(alloc, words),
        "changes_record" => records::of_changes(alloc, words),
        _ => by_count(alloc, name, words),
    }
}

fn by_count(alloc: Global, name: &str, words: &[Vec<u8>]) -> Result<AnswerBytes, Stop> {
    match words {
        [] => of_none(alloc, name),
        [word] => of_lines(alloc, name, word.as_slice()),
        [one, other] => of_two(alloc, name, one.as_slice(), other.as_slice()),
        _ => Err(Stop::BadLine),
    }
}

fn of_none(alloc: Global, name: &str) -> Result<AnswerBytes, Stop> {
    match name {
        "message_path" => paths::message(alloc),
        "out_of_memory" => paths::refusal(alloc),
        _ => Err(Stop::BadLine),
    }
}

fn of_two(alloc: Global, name: &str, one: &[u8], other: &[u8]) -> Result<AnswerBytes, Stop> {
    match name {
        "order_paths" => paths::order(alloc, one, other),
        "copy_bytes" => copies::copy_bytes(alloc, one, other),
        "copy_content" => copies::copy_content(alloc, one, other),
        "read_flow" => flows::read(alloc, one, other),
        "read_long_words" => read_records::long_words(alloc, one, other),
        "tree_plays" => tree_plays::answer(alloc, one, other),
        _ => Err(Stop::BadLine),
    }
}

fn of_lines(alloc: Global, name: &str, bytes: &[u8]) -> Result<AnswerBytes, Stop> {
    match name {
        "characters" => lines::decode(alloc, bytes),
        "read_lines" => lines::shown_lines(alloc, bytes),
        "count_lines" => lines::count_lines(alloc, bytes),
        "read_content" => contents::shown_content(alloc, bytes),
        "read_quoted" => contents::shown_quoted(alloc, bytes),
        _ => of_texts(alloc, name, bytes),
    }
}

fn of_texts(alloc: Global, name: &str, bytes: &[u8]) -> Result<AnswerBytes, Stop> {
    match name {
        "read_yaml" => Ok(texts::read_text(alloc, bytes)),
        "debug_yaml" => Ok(texts::debug_text(alloc, bytes)),
        "read_twice" => texts::read_twice(alloc, bytes),
        "count_beginnings" => Ok(texts::count_beginnings(alloc, bytes)),
        "count_open_beginnings" => Ok(texts::count_open_beginnings(alloc, bytes)),
        _ => of_paths(alloc, name, bytes),
    }
}

fn of_paths(alloc: Global, name: &str, text: &[u8]) -> Result<AnswerBytes, Stop> {
    match name {
        "read_path" => paths::read(alloc, text),
        "path_fault" => path_faults::told(alloc, text),
        "copy_text" => copies::copy_text(alloc, text),
        _ => of_kinds(alloc, name, text),
    }
}

fn of_kinds(alloc: Global, name: &str, text: &[u8]) -> Result<AnswerBytes, Stop> {
    match name {
        "count_flow_beginnings" => flows::count_beginnings(alloc, text),
        "yaml_kind" => kinds::told(alloc, text),
        "yaml_fault_of" => kinds::fault_of(alloc, text),
        "flow_fault" => kinds::flow_told(alloc, text),
        _ => of_record(alloc, name, text),
    }
}

fn of_record(alloc: Global, name: &str, bytes: &[u8]) -> Result<AnswerBytes, Stop> {
    match name {
        "read_words" => read_records::words(alloc, bytes),
        "read_seen" => read_records::seen(alloc, bytes),
        "read_changes" => read_records::changes(alloc, bytes),
        "long_words_record" => records::of_long_word(alloc, bytes),
        _ => Err(Stop::BadLine),
    }
}
