//! Calls on the hooks that start no child.

use crate::files::{path_of, put_file};
use builtin_hooks::{Grep, GrepFault, fail_answer};
use child_port::Answer as ChildAnswer;
use hook_base::{Mode, RepoPath, Tree};
use std::alloc::Global;
use trial_rows::{AnswerBytes, Stop, text_of};

/// `fail_answer ENTRY PATH..`: the answer's status, a line end, and its output.
pub(crate) fn of_fail(alloc: Global, arguments: &[Vec<u8>]) -> Result<AnswerBytes, Stop> {
    let [entry, paths @ ..] = arguments else {
        return Err(Stop::BadLine);
    };
    let mut files = Vec::new(alloc);
    for path in paths {
        files.push(path_of(alloc, path.as_slice())?)?;
    }
    let answer = fail_answer(alloc, text_of(entry.as_slice())?, files.as_slice())?;
    Ok(shown(alloc, &answer))
}

fn shown(alloc: Global, answer: &ChildAnswer) -> AnswerBytes {
    let told = AnswerBytes::new(alloc).shown(answer.status);
    told.text("\n").bytes(answer.output.as_slice())
}

/// `grep_build ENTRY ARGS`: `built`, or the refusal's number and name. Line ends separate the arguments.
pub(crate) fn built(alloc: Global, arguments: &[Vec<u8>]) -> Result<AnswerBytes, Stop> {
    let [entry, args] = arguments else {
        return Err(Stop::BadLine);
    };
    match build(alloc, entry.as_slice(), args.as_slice())? {
        Ok(_grep) => Ok(AnswerBytes::new(alloc).text("built")),
        Err(fault) => refusal(alloc, fault),
    }
}

/// `grep_answer ENTRY ARGS PATHS (PATH CONTENTS)..`: the same as `fail_answer` for PATHS, over a tree of the
/// files that follow, or the refusal. Line ends separate arguments and paths.
pub(crate) fn answered(alloc: Global, arguments: &[Vec<u8>]) -> Result<AnswerBytes, Stop> {
    let [entry, args, paths, files @ ..] = arguments else {
        return Err(Stop::BadLine);
    };
    match build(alloc, entry.as_slice(), args.as_slice())? {
        Ok(grep) => grepped(alloc, &grep, paths.as_slice(), files),
        Err(fault) => refusal(alloc, fault),
    }
}

fn grepped(
    alloc: Global,
    grep: &Grep,
    paths: &[u8],
    files: &[Vec<u8>],
) -> Result<AnswerBytes, Stop> {
    let asked = asked_paths(alloc, paths)?;
    let tree = tree_of(alloc, files)?;
    let answer = grep.answer(alloc, asked.as_slice(), &tree)?;
    Ok(shown(alloc, &answer))
}

fn build(alloc: Global, entry: &[u8], args: &[u8]) -> Result<Result<Grep, GrepFault>, Stop> {
    let args = lines_of(alloc, text_of(args)?)?;
    Ok(Grep::build(alloc, text_of(entry)?, args.as_slice()))
}

fn refusal(alloc: Global, fault: GrepFault) -> Result<AnswerBytes, Stop> {
    let answer = AnswerBytes::new(alloc).shown(fault.number());
    match fault {
        GrepFault::NotAPattern => Ok(answer.text(" NotAPattern")),
        GrepFault::BadArg => Ok(answer.text(" BadArg")),
        GrepFault::OutOfMemory => Err(Stop::OutOfMemory),
    }
}

fn lines_of(alloc: Global, text: &str) -> Result<Vec<&str>, Stop> {
    let mut lines = Vec::new(alloc);
    if !text.is_empty() {
        for line in text.split('\n') {
            lines.push(line)?;
        }
    }
    Ok(lines)
}

fn asked_paths(alloc: Global, text: &[u8]) -> Result<Vec<RepoPath>, Stop> {
    let mut paths = Vec::new(alloc);
    for line in lines_of(alloc, text_of(text)?)?.as_slice() {
        paths.push(RepoPath::read(alloc, *line)?)?;
    }
    Ok(paths)
}

// The tree of the files that are given in turn as path and contents.
fn tree_of(alloc: Global, words: &[Vec<u8>]) -> Result<Tree, Stop> {
    let mut tree = Tree::new(alloc);
    let mut path = None;
    for word in words {
        match path {
            None => path = Some(text_of(word.as_slice())?),
            Some(text) => {
                put_file(alloc, &mut tree, Mode::Plain, text, word.as_slice())?;
                path = None;
            }
        }
    }
    match path {
        None => Ok(tree),
        Some(_without_contents) => Err(Stop::BadLine),
    }
}
