//! The calls that read the records of answers. Each item follows its length and a colon, in the form in
//! which it is an argument of the calls that make records.

use answer_records::{ChangedFile, SeenFile, read_changes, read_seen, read_words};
use hook_base::Mode;
use std::alloc::Global;
use trial_rows::{AnswerBytes, Stop, number_of};

/// The words whose record the bytes are.
pub(crate) fn words(alloc: Global, bytes: &[u8]) -> Result<AnswerBytes, Stop> {
    let Some(words) = read_words(alloc, bytes)? else {
        return Ok(none(alloc));
    };
    let mut answer = counted(alloc, words.len());
    for word in words.as_slice() {
        answer = with_item(answer, &[word.as_str().as_bytes()]);
    }
    Ok(answer)
}

/// The seen files whose record the bytes are.
pub(crate) fn seen(alloc: Global, bytes: &[u8]) -> Result<AnswerBytes, Stop> {
    let Some(files) = read_seen(alloc, bytes)? else {
        return Ok(none(alloc));
    };
    let mut answer = counted(alloc, files.len());
    for file in files.as_slice() {
        answer = with_seen(answer, file);
    }
    Ok(answer)
}

/// The changed files whose record the bytes are.
pub(crate) fn changes(alloc: Global, bytes: &[u8]) -> Result<AnswerBytes, Stop> {
    let Some(files) = read_changes(alloc, bytes)? else {
        return Ok(none(alloc));
    };
    let mut answer = counted(alloc, files.len());
    for file in files.as_slice() {
        answer = with_changed(answer, file);
    }
    Ok(answer)
}

/// How many words are read of the bytes with so many bytes of `a` after them.
pub(crate) fn long_words(alloc: Global, count: &[u8], front: &[u8]) -> Result<AnswerBytes, Stop> {
    let tail = "a".repeat(alloc, number_of(count)? as usize)?;
    let mut bytes = Vec::from_slice(alloc, front)?;
    bytes.extend_from_slice(tail.as_str().as_bytes())?;
    match read_words(alloc, bytes.as_slice())? {
        Some(words) => Ok(counted(alloc, words.len())),
        None => Ok(none(alloc)),
    }
}

fn none(alloc: Global) -> AnswerBytes {
    AnswerBytes::new(alloc).text("none")
}

fn counted(alloc: Global, count: usize) -> AnswerBytes {
    AnswerBytes::new(alloc).shown(count).text(" ")
}

fn with_seen(answer: AnswerBytes, file: &SeenFile) -> AnswerBytes {
    let mode = match file.mode {
        Mode::Plain => b"p",
        Mode::Executable => b"x",
    };
    with_item(answer, &[mode, &file.digest, file.path.as_str().as_bytes()])
}

fn with_changed(answer: AnswerBytes, file: &ChangedFile) -> AnswerBytes {
    let path = file.path.as_str().as_bytes();
    match &file.digest {
        None => with_item(answer, &[b"-", path]),
        Some(digest) => with_item(answer, &[b"+", digest, path]),
    }
}

/// Adds the parts of an item after their length.
fn with_item(answer: AnswerBytes, parts: &[&[u8]]) -> AnswerBytes {
    let mut length = 0usize;
    for part in parts {
        length = length.saturating_add(part.len());
    }
    let mut answer = answer.shown(length).text(":");
    for part in parts {
        answer = answer.bytes(*part);
    }
    answer
}
