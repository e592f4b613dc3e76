//! The calls on the content of one line of a YAML text.

use crate::kinds::refused;
use crate::lines::{with_all, with_line};
use std::alloc::Global;
use trial_rows::{AnswerBytes, Stop};
use yaml_lines::{
    Entry, Line, Node, after_dash, characters, is_item, read_entry, read_quoted, scalar,
};

/// The line number of every content.
const NUMBER: usize = 7;

/// An item has fewer characters, so its columns stay within those of a text.
const MOST_OF_AN_ITEM: usize = 100;

/// What a content is: `- NUMBER/INDENT:REST`, `KEY = VALUE`, whether it is quoted and the text, or the fault.
pub(crate) fn shown_content(alloc: Global, bytes: &[u8]) -> Result<AnswerBytes, Stop> {
    match characters(alloc, bytes) {
        Ok(content) => shown_of(alloc, content.as_slice()),
        Err(fault) => Ok(refused(alloc, fault)),
    }
}

fn shown_of(alloc: Global, content: &[char]) -> Result<AnswerBytes, Stop> {
    if is_item(content) {
        return item(alloc, content);
    }
    match read_entry(alloc, content)? {
        Some(read) => Ok(entry(alloc, read)),
        None => Ok(text(alloc, content)),
    }
}

fn item(alloc: Global, content: &[char]) -> Result<AnswerBytes, Stop> {
    if content.len() >= MOST_OF_AN_ITEM || !is_item(content) {
        return Err(Stop::BadLine);
    }
    let line = Line::new(NUMBER, 2, content, None);
    let answer = AnswerBytes::new(alloc).text("- ");
    match after_dash(&line) {
        Ok(None) => Ok(answer),
        Ok(Some(rest)) => Ok(with_line(alloc, answer, &rest)),
        Err(fault) => Ok(refused(alloc, fault)),
    }
}

fn entry(alloc: Global, entry: Entry<'_>) -> AnswerBytes {
    let value = entry.value();
    let answer = AnswerBytes::new(alloc).text(entry.into_key().as_str());
    with_all(alloc, answer.text(" = "), value)
}

fn text(alloc: Global, content: &[char]) -> AnswerBytes {
    let answer = AnswerBytes::new(alloc);
    match scalar(alloc, NUMBER, content) {
        Ok(Node::Text { text, quoted }) => answer.shown(quoted).texts(&[" ", text.as_str()]),
        Ok(_) => answer.text("no text"),
        Err(fault) => refused(alloc, fault),
    }
}

/// The quoted text in angle brackets that the characters begin with, and what follows it, or the fault.
pub(crate) fn shown_quoted(alloc: Global, bytes: &[u8]) -> Result<AnswerBytes, Stop> {
    match characters(alloc, bytes) {
        Ok(text) => Ok(quoted(alloc, text.as_slice())),
        Err(fault) => Ok(refused(alloc, fault)),
    }
}

fn quoted(alloc: Global, text: &[char]) -> AnswerBytes {
    match read_quoted(alloc, NUMBER, text) {
        Ok(quoted) => {
            let rest = quoted.rest();
            let text = quoted.into_text();
            let answer = AnswerBytes::new(alloc).texts(&["<", text.as_str(), ">"]);
            with_all(alloc, answer, rest)
        }
        Err(fault) => refused(alloc, fault),
    }
}
