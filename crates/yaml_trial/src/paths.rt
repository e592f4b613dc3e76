//! The calls on paths.

use crate::path_faults::refused;
use hook_base::{OutOfMemory, RepoPath};
use std::alloc::Global;
use std::cmp::Ordering;
use trial_rows::{AnswerBytes, Stop, text_of};

/// The message if memory is refused.
pub(crate) fn refusal(alloc: Global) -> Result<AnswerBytes, Stop> {
    Ok(AnswerBytes::new(alloc).shown(OutOfMemory))
}

/// The path's text, or the refusal.
pub(crate) fn read(alloc: Global, text: &[u8]) -> Result<AnswerBytes, Stop> {
    match RepoPath::read(alloc, text_of(text)?) {
        Ok(path) => Ok(AnswerBytes::new(alloc).text(path.as_str())),
        Err(fault) => Ok(refused(alloc, fault)),
    }
}

/// The path of a message, and whether its copy is the same.
pub(crate) fn message(alloc: Global) -> Result<AnswerBytes, Stop> {
    let path = RepoPath::message(alloc)?;
    let is_same = path.clone()? == path;
    Ok(
        AnswerBytes::new(alloc)
            .text(path.as_str())
            .text(" ")
            .shown(is_same),
    )
}

/// How two paths are ordered, and whether they are equal.
pub(crate) fn order(alloc: Global, one: &[u8], other: &[u8]) -> Result<AnswerBytes, Stop> {
    let one = read_path(alloc, one)?;
    let other = read_path(alloc, other)?;
    let answer = AnswerBytes::new(alloc).text(word_of(one.cmp(&other)));
    Ok(answer.text(" ").shown(one == other))
}

fn read_path(alloc: Global, text: &[u8]) -> Result<RepoPath, Stop> {
    Ok(RepoPath::read(alloc, text_of(text)?)?)
}

fn word_of(order: Ordering) -> &'static str {
    match order {
        Ordering::Less => "less",
        Ordering::Equal => "equal",
        Ordering::Greater => "greater",
    }
}
