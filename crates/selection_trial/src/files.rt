//! The paths and the trees in arguments.

use hook_base::{Change, Content, FileEntry, Mode, RepoPath, Tree};
use std::alloc::Global;
use trial_rows::{Stop, text_of};

/// Reads a text as a path.
pub(crate) fn path_of(alloc: Global, text: &[u8]) -> Result<RepoPath, Stop> {
    Ok(RepoPath::read(alloc, text_of(text)?)?)
}

/// The paths in an argument, separated by line feeds.
pub(crate) fn paths_of(alloc: Global, argument: &[u8]) -> Result<Vec<RepoPath>, Stop> {
    let mut paths = Vec::new(alloc);
    for line in text_of(argument)?.lines() {
        paths.push(RepoPath::read(alloc, line)?)?;
    }
    Ok(paths)
}

/// The tree in an argument: lines of a mode, `-` or `x`, a path and bytes, separated by blanks.
pub(crate) fn tree_of(alloc: Global, argument: &[u8]) -> Result<Tree, Stop> {
    let mut tree = Tree::new(alloc);
    for line in text_of(argument)?.lines() {
        let (mode, rest) = parted(line);
        let (path, bytes) = parted(rest);
        put_file(alloc, &mut tree, mode_of(mode)?, path, bytes.as_bytes())?;
    }
    Ok(tree)
}

/// The changes in an argument: lines of `+`, a path and bytes, or of `-` and a path that is gone, separated
/// by blanks.
pub(crate) fn changes_of(alloc: Global, argument: &[u8]) -> Result<Vec<Change>, Stop> {
    let mut changes = Vec::new(alloc);
    for line in text_of(argument)?.lines() {
        changes.push(change_of(alloc, line)?)?;
    }
    Ok(changes)
}

fn change_of(alloc: Global, line: &str) -> Result<Change, Stop> {
    let (kind, rest) = parted(line);
    let (path, bytes) = parted(rest);
    let path = RepoPath::read(alloc, path)?;
    let now = match kind {
        "+" => Some(Content::copy_of(alloc, bytes.as_bytes())?),
        "-" => None,
        _ => return Err(Stop::BadLine),
    };
    Ok(Change { path, now })
}

// The two parts of a line around its first blank; without a blank, the whole line and nothing.
fn parted(line: &str) -> (&str, &str) {
    line.split_once(' ').unwrap_or((line, ""))
}

fn mode_of(word: &str) -> Result<Mode, Stop> {
    match word {
        "-" => Ok(Mode::Plain),
        "x" => Ok(Mode::Executable),
        _ => Err(Stop::BadLine),
    }
}

/// Puts a file into a tree.
pub(crate) fn put_file(
    alloc: Global,
    tree: &mut Tree,
    mode: Mode,
    path: &str,
    bytes: &[u8],
) -> Result<(), Stop> {
    let bytes = Content::copy_of(alloc, bytes)?;
    let path = RepoPath::read(alloc, path)?;
    Ok(tree.put(path, FileEntry { mode, bytes })?)
}
