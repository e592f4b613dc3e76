//! Children that answer by the rows of a table.
//!
//! A row is a text of lines: `answer STATUS`; the words of the command; the files that the child has seen;
//! what it changes; and its output. Words are separated by tabs, and so are files, each `PATH=LINE`: its
//! bytes are the line and a line feed. The byte 1 in a line means a line feed too. Among the changes,
//! `PATH` alone is a file that is gone. Among the seen files, an executable one follows the byte 2.

use crate::arguments::{number_of, text_of};
use crate::stop::Stop;
use child_port::{Answer, Fault, TableRow};
use hook_base::{Bytes, Change, Changes, Content, FileEntry, Items, Mode, RepoPath, Text, Tree};
use std::alloc::Global;

// The path of a commit's message, among the files of its stages.
const MESSAGE: &str = ".git/COMMIT_EDITMSG";

// The byte that means a line feed in the bytes of a file.
const FURTHER_LINE: u8 = 1;

// The mark before the path of an executable file.
const EXECUTABLE: &str = "\u{2}";

/// The row of a table of children, from a text. `BadLine` if the text is no row, `OutOfMemory` if memory is
/// refused.
pub fn row_of(alloc: Global, text: &str) -> Result<TableRow, Stop> {
    let (head, rest) = line_of(text)?;
    let (words, rest) = line_of(rest)?;
    let (seen, rest) = line_of(rest)?;
    let (changes, output) = line_of(rest)?;
    let status = head.strip_prefix("answer ").ok_or(Stop::BadLine)?;
    Ok(TableRow {
        words: Items::from(words_of(alloc, words)?),
        seen: seen_of(alloc, seen)?,
        answer: Answer {
            status: status_of(status)?,
            output: Bytes::copy_of(alloc, output.as_bytes())?,
            changes: changes_of(alloc, changes)?,
        },
    })
}

fn status_of(text: &str) -> Result<u8, Stop> {
    match number_of(text.as_bytes())? {
        status @ 0..=255 => Ok(status as u8),
        _ => Err(Stop::BadLine),
    }
}

/// The fault of a child with this name. `BadLine` if no fault has it.
pub fn fault_of(word: &[u8]) -> Result<Fault, Stop> {
    match text_of(word)? {
        "not started" => Ok(Fault::NotStarted),
        "wait failed" => Ok(Fault::WaitFailed),
        "signal" => Ok(Fault::Signal),
        "output too long" => Ok(Fault::OutputTooLong),
        "scratch failed" => Ok(Fault::ScratchFailed),
        _ => Err(Stop::BadLine),
    }
}

fn line_of(text: &str) -> Result<(&str, &str), Stop> {
    text.split_once('\n').ok_or(Stop::BadLine)
}

fn words_of(alloc: Global, line: &str) -> Result<Vec<Text>, Stop> {
    let mut words = Vec::new(alloc);
    for word in line.split('\t') {
        words.push(Text::copy_of(alloc, word)?)?;
    }
    Ok(words)
}

fn seen_of(alloc: Global, line: &str) -> Result<Tree, Stop> {
    let mut tree = Tree::new(alloc);
    if line.is_empty() {
        return Ok(tree);
    }
    for file in line.split('\t') {
        let (path, contents) = file.split_once('=').ok_or(Stop::BadLine)?;
        let (mode, path) = mode_and_path(path);
        let bytes = line_bytes(alloc, contents)?;
        tree.put(path_of(alloc, path)?, FileEntry { mode, bytes })?;
    }
    Ok(tree)
}

fn mode_and_path(text: &str) -> (Mode, &str) {
    match text.strip_prefix(EXECUTABLE) {
        Some(path) => (Mode::Executable, path),
        None => (Mode::Plain, text),
    }
}

fn changes_of(alloc: Global, line: &str) -> Result<Changes, Stop> {
    let mut changes = Vec::new(alloc);
    if !line.is_empty() {
        for change in line.split('\t') {
            changes.push(change_of(alloc, change)?)?;
        }
    }
    Changes::from_rising(changes).map_err(|_| Stop::BadLine)
}

fn change_of(alloc: Global, text: &str) -> Result<Change, Stop> {
    let (path, now) = match text.split_once('=') {
        Some((path, contents)) => (path, Some(line_bytes(alloc, contents)?)),
        None => (text, None),
    };
    let path = path_of(alloc, path)?;
    Ok(Change { path, now })
}

// A path that a tree may hold.
fn path_of(alloc: Global, text: &str) -> Result<RepoPath, Stop> {
    if text == MESSAGE {
        return Ok(RepoPath::message(alloc)?);
    }
    Ok(RepoPath::read(alloc, text)?)
}

fn line_bytes(alloc: Global, line: &str) -> Result<Content, Stop> {
    let mut bytes = line.as_bytes().to_vec(alloc)?;
    bytes.push(b'\n')?;
    for byte in bytes.as_mut_slice() {
        if *byte == FURTHER_LINE {
            *byte = b'\n';
        }
    }
    Ok(Content::new(alloc, Bytes::from(bytes))?)
}
