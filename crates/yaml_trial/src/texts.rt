//! The calls on whole YAML texts.

use crate::flows::shown_flow;
use crate::kinds::refused;
use crate::yaml_nodes::with_node;
use std::alloc::Global;
use trial_rows::{AnswerBytes, Stop};
use yaml_lines::characters;
use yaml_profile::{YamlFault, YamlKind, read};

/// The node of a text, or the fault.
pub(crate) fn read_text(alloc: Global, bytes: &[u8]) -> AnswerBytes {
    match read(alloc, bytes) {
        Ok(node) => with_node(AnswerBytes::new(alloc), &node),
        Err(fault) => refused(alloc, fault),
    }
}

/// The node of a text as its `Debug` shows it, or the fault.
pub(crate) fn debug_text(alloc: Global, bytes: &[u8]) -> AnswerBytes {
    match read(alloc, bytes) {
        Ok(node) => AnswerBytes::new(alloc).debug(&node),
        Err(fault) => refused(alloc, fault),
    }
}

/// How many beginnings of the bytes are read, or refused at one of their lines.
pub(crate) fn count_beginnings(alloc: Global, bytes: &[u8]) -> AnswerBytes {
    let mut count = 0usize;
    for at in 0..bytes.len() {
        if is_read_or_refused(alloc, &bytes[..at]) {
            count = count.saturating_add(1);
        }
    }
    AnswerBytes::new(alloc).shown(count)
}

fn is_read_or_refused(alloc: Global, bytes: &[u8]) -> bool {
    match read(alloc, bytes) {
        Ok(_) => true,
        Err(YamlFault { kind, line }) => {
            kind != YamlKind::OutOfMemory && 1 <= line && line <= lines_in(bytes)
        }
    }
}

/// How many beginnings of the bytes are read, or refused as `Layout` in their last line.
pub(crate) fn count_open_beginnings(alloc: Global, bytes: &[u8]) -> AnswerBytes {
    let mut count = 0usize;
    for at in 0..bytes.len() {
        if is_read_or_open(alloc, &bytes[..at]) {
            count = count.saturating_add(1);
        }
    }
    AnswerBytes::new(alloc).shown(count)
}

fn is_read_or_open(alloc: Global, bytes: &[u8]) -> bool {
    match read(alloc, bytes) {
        Ok(_) => true,
        Err(YamlFault { kind, line }) => kind == YamlKind::Layout && line == lines_in(bytes),
    }
}

fn lines_in(bytes: &[u8]) -> usize {
    bytes.split(|byte| *byte == b'\n').count()
}

/// The node of a text, and that of the reader of flows, which looks for no block texts: `same` if they are
/// equal. A node that can't be read is `none`.
pub(crate) fn read_twice(alloc: Global, bytes: &[u8]) -> Result<AnswerBytes, Stop> {
    let whole = shown_whole(alloc, bytes);
    match characters(alloc, bytes) {
        Ok(all) => Ok(told_twice(alloc, &whole, &shown_flow(alloc, all.as_slice()))),
        Err(_) => Err(Stop::BadLine),
    }
}

fn shown_whole(alloc: Global, bytes: &[u8]) -> AnswerBytes {
    match read(alloc, bytes) {
        Ok(node) => with_node(AnswerBytes::new(alloc), &node),
        Err(_) => AnswerBytes::new(alloc).text("none"),
    }
}

fn told_twice(alloc: Global, whole: &AnswerBytes, lone: &AnswerBytes) -> AnswerBytes {
    let answer = AnswerBytes::new(alloc);
    if whole.told() == lone.told() {
        return answer.text("same");
    }
    let answer = answer.bytes(whole.told()).text(" as a text, ");
    answer.bytes(lone.told()).text(" as a flow")
}
