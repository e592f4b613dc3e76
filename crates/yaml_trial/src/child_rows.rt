//! The rows of a table of children, with their parts separated by `|`.

use crate::steps::{entry_of, read_change};
use child_port::{Answer, TableRow};
use hook_base::{Bytes, Changes, Items, RepoPath, Text, Tree};
use std::alloc::Global;
use trial_rows::Stop;

/// The two parts of a text around its first bar; the whole and nothing if it has no bar.
pub(crate) fn cut(text: &str) -> (&str, &str) {
    text.split_once('|').unwrap_or((text, ""))
}

/// A row: the words, the path and the bytes of the file that was seen, the status, the output, and a change.
pub(crate) fn row_of(alloc: Global, row: &str) -> Result<TableRow, Stop> {
    let (words, rest) = cut(row);
    let (path, rest) = cut(rest);
    let (bytes, rest) = cut(rest);
    Ok(TableRow {
        words: words_of(alloc, words)?,
        seen: tree_with(alloc, path, bytes)?,
        answer: answer_of(alloc, rest)?,
    })
}

fn answer_of(alloc: Global, rest: &str) -> Result<Answer, Stop> {
    let (status, rest) = cut(rest);
    let (output, change) = cut(rest);
    Ok(Answer {
        status: status.parse().map_err(|_| Stop::BadLine)?,
        output: Bytes::copy_of(alloc, output.as_bytes())?,
        changes: changes_of(alloc, change)?,
    })
}

/// No change, or the one that the text gives.
fn changes_of(alloc: Global, text: &str) -> Result<Changes, Stop> {
    if text.is_empty() {
        return Ok(Changes::new(alloc));
    }
    let mut changes = Vec::new(alloc);
    changes.push(read_change(alloc, text)?)?;
    Changes::from_rising(changes).map_err(|_| Stop::BadLine)
}

/// The words of a command, separated by blanks.
pub(crate) fn words_of(alloc: Global, text: &str) -> Result<Items<Text>, Stop> {
    let mut words = Vec::new(alloc);
    for word in text.split(' ') {
        words.push(Text::copy_of(alloc, word)?)?;
    }
    Ok(Items::from(words))
}

/// The tree of one plain file, with this path and these bytes.
pub(crate) fn tree_with(alloc: Global, path: &str, bytes: &str) -> Result<Tree, Stop> {
    let path = RepoPath::read(alloc, path)?;
    let entry = entry_of(alloc, "plain", bytes)?;
    let mut tree = Tree::new(alloc);
    tree.put(path, entry)?;
    Ok(tree)
}
