//! The calls that make the records of answers. A seen file is an argument of `p` or `x`, 32 bytes of a
//! digest, and its path. A changed file is `-` and its path, or `+`, 32 bytes of a digest, and its path.

use crate::copies::texts_of;
use answer_records::{
    ChangedFile, RecordFault, SeenFile, changes_record, seen_record, words_record,
};
use hook_base::{Bytes, Mode, RepoPath, Text};
use std::alloc::Global;
use trial_rows::{AnswerBytes, Stop, number_of, text_of};

/// The record of words.
pub(crate) fn of_words(alloc: Global, words: &[Vec<u8>]) -> Result<AnswerBytes, Stop> {
    let words = texts_of(alloc, words)?;
    told(alloc, words_record(alloc, words.as_slice()))
}

/// The record of seen files.
pub(crate) fn of_seen(alloc: Global, words: &[Vec<u8>]) -> Result<AnswerBytes, Stop> {
    let mut files = Vec::new(alloc);
    for word in words {
        files.push(seen_file(alloc, word.as_slice())?)?;
    }
    told(alloc, seen_record(alloc, files.as_slice()))
}

/// The record of changed files.
pub(crate) fn of_changes(alloc: Global, words: &[Vec<u8>]) -> Result<AnswerBytes, Stop> {
    let mut files = Vec::new(alloc);
    for word in words {
        files.push(changed_file(alloc, word.as_slice())?)?;
    }
    told(alloc, changes_record(alloc, files.as_slice()))
}

/// The length of the record of one word of so many bytes.
pub(crate) fn of_long_word(alloc: Global, count: &[u8]) -> Result<AnswerBytes, Stop> {
    let word = Text::from("a".repeat(alloc, number_of(count)? as usize)?);
    match words_record(alloc, &[word]) {
        Ok(record) => Ok(AnswerBytes::new(alloc).shown(record.len())),
        Err(fault) => refused(alloc, fault),
    }
}

fn told(alloc: Global, record: Result<Bytes, RecordFault>) -> Result<AnswerBytes, Stop> {
    match record {
        Ok(record) => Ok(AnswerBytes::new(alloc).bytes(record.as_slice())),
        Err(fault) => refused(alloc, fault),
    }
}

fn refused(alloc: Global, fault: RecordFault) -> Result<AnswerBytes, Stop> {
    match fault {
        RecordFault::TooLarge => Ok(AnswerBytes::new(alloc).shown(fault)),
        RecordFault::OutOfMemory => Err(Stop::OutOfMemory),
    }
}

fn seen_file(alloc: Global, word: &[u8]) -> Result<SeenFile, Stop> {
    match word {
        [b'p', rest @ ..] => seen_with(alloc, Mode::Plain, rest),
        [b'x', rest @ ..] => seen_with(alloc, Mode::Executable, rest),
        _ => Err(Stop::BadLine),
    }
}

fn seen_with(alloc: Global, mode: Mode, rest: &[u8]) -> Result<SeenFile, Stop> {
    let Some((digest, path)) = rest.split_first_chunk::<32>() else {
        return Err(Stop::BadLine);
    };
    Ok(SeenFile {
        path: path_of(alloc, path)?,
        mode,
        digest: *digest,
    })
}

fn changed_file(alloc: Global, word: &[u8]) -> Result<ChangedFile, Stop> {
    match word {
        [b'-', path @ ..] => Ok(ChangedFile {
            path: path_of(alloc, path)?,
            digest: None,
        }),
        [b'+', rest @ ..] => changed_with(alloc, rest),
        _ => Err(Stop::BadLine),
    }
}

fn changed_with(alloc: Global, rest: &[u8]) -> Result<ChangedFile, Stop> {
    let Some((digest, path)) = rest.split_first_chunk::<32>() else {
        return Err(Stop::BadLine);
    };
    Ok(ChangedFile {
        path: path_of(alloc, path)?,
        digest: Some(*digest),
    })
}

/// A legal path, or that of a commit's message file.
fn path_of(alloc: Global, path: &[u8]) -> Result<RepoPath, Stop> {
    let message = RepoPath::message(alloc)?;
    if message.as_str().as_bytes() == path {
        return Ok(message);
    }
    Ok(RepoPath::read(alloc, text_of(path)?)?)
}
