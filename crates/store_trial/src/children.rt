//! Children that answer from a table, to which a line adds a row. The row has the words of the command, the
//! files that its child has seen, those that it changes, and its exit status. Then comes its output, which
//! may be left out and is then empty. Bars separate these, and blanks what is within them. A file is written
//! `PATH=TEXT`, and `PATH` alone is one that is gone.

use crate::stop::Stop;
use crate::text::read_text;
use child_port::{Answer, TableChildren, TableRow};
use hook_base::{Bytes, Change, Changes, Content, FileEntry, Items, Mode, RepoPath, Text, Tree};
use std::alloc::Global;

/// The path of a commit's message, among the files of its stages.
const MESSAGE: &str = ".git/COMMIT_EDITMSG";

/// Children that answer from the rows in these texts. They have reported nothing yet.
pub(crate) fn children_of(alloc: Global, texts: &[Text]) -> Result<TableChildren, Stop> {
    let mut rows = Vec::new(alloc);
    for text in texts {
        rows.push(read_row(alloc, text.as_str())?)?;
    }
    Ok(TableChildren::new(Items::from(rows)))
}

/// Reads a text as a row.
pub(crate) fn read_row(alloc: Global, text: &str) -> Result<TableRow, Stop> {
    let (words, rest) = text.split_once('|').ok_or(Stop::BadLine)?;
    let (seen, rest) = rest.split_once('|').ok_or(Stop::BadLine)?;
    let (changes, rest) = rest.split_once('|').ok_or(Stop::BadLine)?;
    let (status, output) = rest.split_once('|').unwrap_or((rest, ""));
    Ok(TableRow {
        words: Items::from(words_in(alloc, words)?),
        seen: tree_in(alloc, seen)?,
        answer: Answer {
            status: status.trim().parse().map_err(|_| Stop::BadLine)?,
            output: Bytes::from(read_text(alloc, output.trim())?),
            changes: changes_in(alloc, changes)?,
        },
    })
}

/// Reads a text as words and seen files, separated by a bar.
pub(crate) fn key_of(alloc: Global, text: &str) -> Result<(Vec<Text>, Tree), Stop> {
    let (words, seen) = text.split_once('|').ok_or(Stop::BadLine)?;
    Ok((words_in(alloc, words)?, tree_in(alloc, seen)?))
}

fn words_in(alloc: Global, text: &str) -> Result<Vec<Text>, Stop> {
    let mut words = Vec::new(alloc);
    for word in text.split(' ') {
        if !word.is_empty() {
            words.push(Text::copy_of(alloc, word)?)?;
        }
    }
    Ok(words)
}

fn tree_in(alloc: Global, text: &str) -> Result<Tree, Stop> {
    let mut tree = Tree::new(alloc);
    for file in words_in(alloc, text)?.as_slice() {
        let (path, contents) = file.as_str().split_once('=').ok_or(Stop::BadLine)?;
        let (mode, bytes) = (Mode::Plain, read_content(alloc, contents)?);
        tree.put(read_path(alloc, path)?, FileEntry { mode, bytes })?;
    }
    Ok(tree)
}

fn changes_in(alloc: Global, text: &str) -> Result<Changes, Stop> {
    let mut changes = Vec::new(alloc);
    for change in words_in(alloc, text)?.as_slice() {
        changes.push(read_change(alloc, change.as_str())?)?;
    }
    Changes::from_rising(changes).map_err(|_| Stop::BadLine)
}

fn read_change(alloc: Global, text: &str) -> Result<Change, Stop> {
    let (path, now) = match text.split_once('=') {
        Some((path, contents)) => (path, Some(read_content(alloc, contents)?)),
        None => (text, None),
    };
    let path = read_path(alloc, path)?;
    Ok(Change { path, now })
}

/// Reads a text as contents.
pub(crate) fn read_content(alloc: Global, text: &str) -> Result<Content, Stop> {
    Ok(Content::new(alloc, Bytes::from(read_text(alloc, text)?))?)
}

/// A path that a tree may have.
fn read_path(alloc: Global, text: &str) -> Result<RepoPath, Stop> {
    if text == MESSAGE {
        return Ok(RepoPath::message(alloc)?);
    }
    Ok(RepoPath::read(alloc, text)?)
}
