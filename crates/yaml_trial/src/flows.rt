//! The calls on the flows of a YAML text.

use crate::yaml_nodes::with_node;
use std::alloc::{AllocError, Global};
use trial_rows::{AnswerBytes, Stop, number_of, text_of};
use yaml_flows::{FaultPlace, FlowFault, read_flow};
use yaml_lines::{MOST_NODES, YamlKind};

/// The node of a flow, if at most so many nodes may be nested, or the fault.
pub(crate) fn read(alloc: Global, text: &[u8], room: &[u8]) -> Result<AnswerBytes, Stop> {
    let text = text_of(text)?;
    let room = number_of(room)? as usize;
    if room > MOST_NODES {
        return Err(Stop::BadLine);
    }
    let all = characters(alloc, text)?;
    match read_flow(alloc, all.as_slice(), room) {
        Ok(node) => Ok(with_node(AnswerBytes::new(alloc), &node)),
        Err(fault) => refused(alloc, text, fault),
    }
}

fn characters(alloc: Global, text: &str) -> Result<Vec<char>, AllocError> {
    text.chars().collect(alloc)
}

/// A fault's kind, and its line from 1 on unless it is the end of the text.
fn refused(alloc: Global, text: &str, fault: FlowFault) -> Result<AnswerBytes, Stop> {
    let answer = AnswerBytes::new(alloc).debug(fault.kind);
    match fault.place {
        FaultPlace::Within { feeds_left } => match feeds_in(text).checked_sub(feeds_left) {
            Some(before) => Ok(answer.text(" in line ").shown(before.saturating_add(1))),
            None => Err(Stop::BadLine),
        },
        FaultPlace::End => Ok(answer.text(" at the end")),
    }
}

fn feeds_in(text: &str) -> usize {
    text.chars().filter(|c| *c == '\n').count()
}

/// How many beginnings of the text are read, or refused in their last line or at their end.
pub(crate) fn count_beginnings(alloc: Global, text: &[u8]) -> Result<AnswerBytes, Stop> {
    let all = characters(alloc, text_of(text)?)?;
    Ok(AnswerBytes::new(alloc).shown(beginnings_in(alloc, all.as_slice())))
}

fn beginnings_in(alloc: Global, all: &[char]) -> usize {
    let mut count = 0usize;
    for at in 0..all.len() {
        if ends_in_last_line(alloc, &all[..at]) {
            count = count.saturating_add(1);
        }
    }
    count
}

fn ends_in_last_line(alloc: Global, text: &[char]) -> bool {
    match read_flow(alloc, text, MOST_NODES) {
        Ok(_) => true,
        Err(FlowFault { kind, place }) => {
            let last = FaultPlace::Within { feeds_left: 0 };
            kind != YamlKind::OutOfMemory && (place == FaultPlace::End || place == last)
        }
    }
}

/// The node of a flow, or `none` if it can't be read.
pub(crate) fn shown_flow(alloc: Global, all: &[char]) -> AnswerBytes {
    match read_flow(alloc, all, MOST_NODES) {
        Ok(node) => with_node(AnswerBytes::new(alloc), &node),
        Err(_) => AnswerBytes::new(alloc).text("none"),
    }
}
