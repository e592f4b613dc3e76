//! What is asked of a run, and the files that it is on.

use hook_base::{Content, FileEntry, Items, Mode, RepoPath, Text, Tree};
use hook_config::Stage;
use hook_run::{Reuse, RunAsk};
use std::alloc::Global;
use trial_rows::{Stop, text_of};

/// The ask with a stage, candidates, the hooks to run, and names to skip. Line ends separate candidates and
/// names. The hooks are `all`, or `only ` and a name.
pub(crate) fn ask_of(alloc: Global, arguments: &[Vec<u8>]) -> Result<RunAsk, Stop> {
    let [stage, candidates, only, skip] = arguments else {
        return Err(Stop::BadLine);
    };
    Ok(RunAsk {
        stage: Stage::of_word(text_of(stage.as_slice())?).ok_or(Stop::BadLine)?,
        candidates: Items::from(paths_of(alloc, text_of(candidates.as_slice())?)?),
        only: only_of(alloc, text_of(only.as_slice())?)?,
        skip: Items::from(names_of(alloc, text_of(skip.as_slice())?)?),
        reuse: Reuse::All,
    })
}

fn paths_of(alloc: Global, text: &str) -> Result<Vec<RepoPath>, Stop> {
    let mut paths = Vec::new(alloc);
    for line in text.lines() {
        paths.push(RepoPath::read(alloc, line)?)?;
    }
    Ok(paths)
}

fn only_of(alloc: Global, text: &str) -> Result<Option<Text>, Stop> {
    match text.strip_prefix("only ") {
        Some(name) => Ok(Some(Text::copy_of(alloc, name)?)),
        None if text == "all" => Ok(None),
        None => Err(Stop::BadLine),
    }
}

fn names_of(alloc: Global, text: &str) -> Result<Vec<Text>, Stop> {
    let mut names = Vec::new(alloc);
    for line in text.lines() {
        names.push(Text::copy_of(alloc, line)?)?;
    }
    Ok(names)
}

/// The tree of files. Each file is a line with its mode, `plain` or `executable`, a blank and its path, and
/// then its contents.
pub(crate) fn tree_of(alloc: Global, files: &[Vec<u8>]) -> Result<Tree, Stop> {
    let mut tree = Tree::new(alloc);
    for file in files {
        put_text(alloc, &mut tree, file.as_slice())?;
    }
    Ok(tree)
}

fn put_text(alloc: Global, tree: &mut Tree, file: &[u8]) -> Result<(), Stop> {
    let (line, contents) = text_of(file)?.split_once('\n').ok_or(Stop::BadLine)?;
    let (mode, path) = line.split_once(' ').ok_or(Stop::BadLine)?;
    put_file(alloc, tree, mode_of(mode)?, path, contents)
}

fn put_file(
    alloc: Global,
    tree: &mut Tree,
    mode: Mode,
    path: &str,
    contents: &str,
) -> Result<(), Stop> {
    let bytes = Content::copy_of(alloc, contents.as_bytes())?;
    tree.put(RepoPath::read(alloc, path)?, FileEntry { mode, bytes })?;
    Ok(())
}

fn mode_of(word: &str) -> Result<Mode, Stop> {
    match word {
        "plain" => Ok(Mode::Plain),
        "executable" => Ok(Mode::Executable),
        _ => Err(Stop::BadLine),
    }
}
