//! The words of a step, and how files and changes are shown.

use hook_base::{Change, Content, FileEntry, Mode, RepoPath, Tree};
use std::alloc::Global;
use trial_rows::{AnswerBytes, Stop};

/// The two parts of a text around its first blank; the whole and nothing if it has no blank.
pub(crate) fn parted(text: &str) -> (&str, &str) {
    text.split_once(' ').unwrap_or((text, ""))
}

pub(crate) fn entry_of(alloc: Global, mode: &str, bytes: &str) -> Result<FileEntry, Stop> {
    let mode = mode_of(mode)?;
    let bytes = Content::copy_of(alloc, bytes.as_bytes())?;
    Ok(FileEntry { mode, bytes })
}

fn mode_of(word: &str) -> Result<Mode, Stop> {
    match word {
        "plain" => Ok(Mode::Plain),
        "executable" => Ok(Mode::Executable),
        _ => Err(Stop::BadLine),
    }
}

/// The change of a path and, after a blank, the bytes unless it is gone.
pub(crate) fn read_change(alloc: Global, text: &str) -> Result<Change, Stop> {
    let now = now_of(alloc, text)?;
    let path = RepoPath::read(alloc, parted(text).0)?;
    Ok(Change { path, now })
}

fn now_of(alloc: Global, text: &str) -> Result<Option<Content>, Stop> {
    match text.split_once(' ') {
        Some((_path, bytes)) => Ok(Some(Content::copy_of(alloc, bytes.as_bytes())?)),
        None => Ok(None),
    }
}

/// Adds the mode and the bytes of a file.
pub(crate) fn with_entry(answer: AnswerBytes, entry: &FileEntry) -> AnswerBytes {
    let mode = match entry.mode {
        Mode::Plain => "plain=",
        Mode::Executable => "executable=",
    };
    answer.text(mode).bytes(entry.bytes.as_slice())
}

/// Adds each file of a tree, after a blank.
pub(crate) fn with_tree(answer: AnswerBytes, tree: &Tree) -> AnswerBytes {
    let mut answer = answer;
    for at in 0..tree.len() {
        let file = tree.entry(at);
        answer = with_entry(answer.texts(&[" ", file.path.as_str(), ":"]), &file.entry);
    }
    answer
}

/// Adds each change, after a blank.
pub(crate) fn with_changes(answer: AnswerBytes, changes: &[Change]) -> AnswerBytes {
    let mut answer = answer;
    for change in changes {
        answer = with_change(answer.texts(&[" ", change.path.as_str()]), change);
    }
    answer
}

fn with_change(answer: AnswerBytes, change: &Change) -> AnswerBytes {
    match &change.now {
        None => answer.text(" gone"),
        Some(bytes) => answer.text("=").bytes(bytes.as_slice()),
    }
}
