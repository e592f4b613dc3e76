//! The calls on the lines of a YAML text.

use crate::kinds::refused;
use std::alloc::Global;
use trial_rows::{AnswerBytes, Stop};
use yaml_lines::{Line, Lines, RawLine, characters, raw_lines, read_lines, text_of};

/// The characters as a text, or the fault.
pub(crate) fn decode(alloc: Global, bytes: &[u8]) -> Result<AnswerBytes, Stop> {
    match characters(alloc, bytes) {
        Ok(text) => Ok(with_all(alloc, AnswerBytes::new(alloc), text.as_slice())),
        Err(fault) => Ok(refused(alloc, fault)),
    }
}

/// Adds characters.
pub(crate) fn with_all(alloc: Global, answer: AnswerBytes, characters: &[char]) -> AnswerBytes {
    match text_of(alloc, characters) {
        Ok(text) => answer.text(text.as_str()),
        Err(_) => answer.refused(),
    }
}

/// Each line as `NUMBER/INDENT:CONTENT;`, with its block text in angle brackets, and then the fault as
/// `!KIND in LINE`.
pub(crate) fn shown_lines(alloc: Global, bytes: &[u8]) -> Result<AnswerBytes, Stop> {
    match characters(alloc, bytes) {
        Ok(text) => {
            let raws = raw_lines(alloc, text.as_slice())?;
            shown_of(alloc, raws.as_slice())
        }
        Err(fault) => Ok(refused(alloc, fault)),
    }
}

fn shown_of(alloc: Global, raws: &[RawLine<'_>]) -> Result<AnswerBytes, Stop> {
    let read = read_lines(alloc, raws)?;
    let answer = with_lines(alloc, read.lines.as_slice());
    match read.fault {
        None => Ok(answer),
        Some(fault) => {
            let answer = answer.text("!").shown(fault.kind.number());
            Ok(answer.text(" in ").shown(fault.line))
        }
    }
}

fn with_lines(alloc: Global, lines: &[Line<'_, '_>]) -> AnswerBytes {
    let mut answer = AnswerBytes::new(alloc);
    for line in lines {
        answer = with_block(alloc, with_line(alloc, answer, line), line).text(";");
    }
    answer
}

/// Adds a line as `NUMBER/INDENT:CONTENT`.
pub(crate) fn with_line(alloc: Global, answer: AnswerBytes, line: &Line<'_, '_>) -> AnswerBytes {
    let answer = answer.shown(line.number()).text("/");
    let answer = answer.shown(line.indent()).text(":");
    with_all(alloc, answer, line.content())
}

fn with_block(alloc: Global, answer: AnswerBytes, line: &Line<'_, '_>) -> AnswerBytes {
    match line.block() {
        None => answer,
        Some(block) => match block.text(alloc) {
            Ok(text) => answer.texts(&["<", text.as_str(), ">"]),
            Err(_) => answer.refused(),
        },
    }
}

/// How many lines the text leaves, and how many of them begin a block text, or the fault.
pub(crate) fn count_lines(alloc: Global, bytes: &[u8]) -> Result<AnswerBytes, Stop> {
    match characters(alloc, bytes) {
        Ok(text) => {
            let raws = raw_lines(alloc, text.as_slice())?;
            count_of(alloc, raws.as_slice())
        }
        Err(fault) => Ok(refused(alloc, fault)),
    }
}

fn count_of(alloc: Global, raws: &[RawLine<'_>]) -> Result<AnswerBytes, Stop> {
    let Lines { lines, fault } = read_lines(alloc, raws)?;
    match fault {
        Some(fault) => Ok(refused(alloc, fault)),
        None => Ok(counts(alloc, lines.as_slice())),
    }
}

fn counts(alloc: Global, lines: &[Line<'_, '_>]) -> AnswerBytes {
    let blocks = lines.iter().filter(|line| line.block().is_some()).count();
    let answer = AnswerBytes::new(alloc).shown(lines.len());
    answer.text(" ").shown(blocks)
}
