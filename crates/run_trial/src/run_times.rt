//! Runs over children that answer at once, for a script that times them. Each call answers how many children
//! were started, how many results are cached in the end, and the report of the last run.

use crate::quiet_children::{QuietChildren, quiet_answer};
use child_port::{Answer as ChildAnswer, Children, is_stray};
use hook_base::{Bytes, Content, FileEntry, Items, Mode, RepoPath, Text, Tree};
use hook_config::{Config, Stage, read_config};
use hook_run::{HooksRun, Reuse, RunAsk, RunOut, run_hooks};
use result_book::{Book, ListBook};
use std::alloc::Global;
use store_faults::MOST_ANSWERS;
use trial_rows::{AnswerBytes, Stop, number_of};

/// `first_runs CONFIGURATION FILES SIZE COUNT`: COUNT runs on FILES files of SIZE bytes, each over an empty
/// book.
pub(crate) fn first_runs(alloc: Global, arguments: &[Vec<u8>]) -> Result<AnswerBytes, Stop> {
    let [configuration, files, size, count] = arguments else {
        return Err(Stop::BadLine);
    };
    let mut times = Times::new(alloc, configuration.as_slice())?;
    let tree = tree_of(
        alloc,
        number_of(files.as_slice())?,
        number_of(size.as_slice())?,
    )?;
    for _ in 0..number_of(count.as_slice())? {
        times.book = ListBook::new(alloc, MOST_ANSWERS);
        times.run(&tree)?;
    }
    Ok(times.told())
}

/// `further_runs CONFIGURATION FILES SIZE COUNT`: the same, but over one book.
pub(crate) fn further_runs(alloc: Global, arguments: &[Vec<u8>]) -> Result<AnswerBytes, Stop> {
    let [configuration, files, size, count] = arguments else {
        return Err(Stop::BadLine);
    };
    let mut times = Times::new(alloc, configuration.as_slice())?;
    let tree = tree_of(
        alloc,
        number_of(files.as_slice())?,
        number_of(size.as_slice())?,
    )?;
    for _ in 0..number_of(count.as_slice())? {
        times.run(&tree)?;
    }
    Ok(times.told())
}

/// `runs_among CONFIGURATION ROWS COUNT`: COUNT runs on one file, over a book with cached results of the
/// command `c` for ROWS other contents of that file.
pub(crate) fn runs_among(alloc: Global, arguments: &[Vec<u8>]) -> Result<AnswerBytes, Stop> {
    let [configuration, rows, count] = arguments else {
        return Err(Stop::BadLine);
    };
    let mut times = Times::new(alloc, configuration.as_slice())?;
    fill(alloc, &mut times.book, number_of(rows.as_slice())?)?;
    let tree = numbered_tree(alloc, u32::MAX)?;
    for _ in 0..number_of(count.as_slice())? {
        times.run(&tree)?;
    }
    Ok(times.told())
}

/// `runs_of_each CONFIGURATION CONTENTS COUNT`: COUNT times, a run on one file for each of its CONTENTS
/// contents.
pub(crate) fn runs_of_each(alloc: Global, arguments: &[Vec<u8>]) -> Result<AnswerBytes, Stop> {
    let [configuration, contents, count] = arguments else {
        return Err(Stop::BadLine);
    };
    let (contents, count) = (
        number_of(contents.as_slice())?,
        number_of(count.as_slice())?,
    );
    let mut times = Times::new(alloc, configuration.as_slice())?;
    times.run_all(contents, count)?;
    Ok(times.told())
}

// A configuration, and what its runs work on.
#[derive(Drop)]
struct Times {
    alloc: Global,
    config: Config,
    children: QuietChildren,
    book: ListBook,
    report: Bytes,
}

impl Times {
    fn new(alloc: Global, configuration: &[u8]) -> Result<Times, Stop> {
        match read_config(alloc, configuration) {
            Ok(config) => Ok(Times {
                alloc,
                config,
                children: QuietChildren::new(alloc),
                book: ListBook::new(alloc, MOST_ANSWERS),
                report: Bytes::new(alloc),
            }),
            Err(_) => Err(Stop::BadLine),
        }
    }

    fn run_all(&mut self, contents: u32, count: u32) -> Result<(), Stop> {
        for _ in 0..count {
            self.run_each(contents)?;
        }
        Ok(())
    }

    fn run(&mut self, tree: &Tree) -> Result<(), Stop> {
        let ask = ask_of(self.alloc, tree)?;
        let (children, book) = (&mut self.children, &mut self.book);
        match run_hooks(self.alloc, children, book, &self.config, &ask, tree) {
            Ok(ran) => {
                let HooksRun { out, reused: _ } = ran;
                let RunOut { report, .. } = out;
                self.report = report;
                Ok(())
            }
            Err(_) => Err(Stop::OutOfMemory),
        }
    }

    fn run_each(&mut self, contents: u32) -> Result<(), Stop> {
        for number in 0..contents {
            self.run(&numbered_tree(self.alloc, number)?)?;
        }
        Ok(())
    }

    fn told(&self) -> AnswerBytes {
        let answer = AnswerBytes::new(self.alloc).shown(self.children.calls());
        let answer = answer.text(" calls, ").shown(self.book.len());
        let answer = answer.text(" remembered\n");
        answer.bytes(self.report.as_slice())
    }
}

// An ask with all files as candidates.
fn ask_of(alloc: Global, tree: &Tree) -> Result<RunAsk, Stop> {
    let mut candidates = Vec::new(alloc);
    for index in 0..tree.len() {
        candidates.push(tree.entry(index).path.clone()?)?;
    }
    Ok(RunAsk {
        stage: Stage::PreCommit,
        candidates: Items::from(candidates),
        only: None,
        skip: Items::new(alloc),
        reuse: Reuse::All,
    })
}

fn tree_of(alloc: Global, files: u32, size: u32) -> Result<Tree, Stop> {
    let mut tree = Tree::new(alloc);
    for number in 0..files {
        put_sized(alloc, &mut tree, number, size)?;
    }
    Ok(tree)
}

fn put_sized(alloc: Global, tree: &mut Tree, number: u32, size: u32) -> Result<(), Stop> {
    let path = format!(in alloc; "f/{number:05}.txt")?;
    let bytes = vec![in alloc; b'x'; size as usize]?;
    let bytes = Content::new(alloc, Bytes::from(bytes))?;
    put_file(alloc, tree, path.as_str(), bytes)
}

// A tree with the file `a.txt`, which contains a number.
fn numbered_tree(alloc: Global, number: u32) -> Result<Tree, Stop> {
    let mut tree = Tree::new(alloc);
    let text = format!(in alloc; "{number}")?;
    let bytes = Content::copy_of(alloc, text.as_str().as_bytes())?;
    put_file(alloc, &mut tree, "a.txt", bytes)?;
    Ok(tree)
}

fn put_file(alloc: Global, tree: &mut Tree, path: &str, bytes: Content) -> Result<(), Stop> {
    let mode = Mode::Plain;
    tree.put(RepoPath::read(alloc, path)?, FileEntry { mode, bytes })?;
    Ok(())
}

// Puts an answer for each of ROWS contents of `a.txt`.
fn fill(alloc: Global, book: &mut ListBook, rows: u32) -> Result<(), Stop> {
    let words = filled_words(alloc)?;
    let answer = quiet_answer(alloc);
    for number in 0..rows {
        put_number(alloc, book, words.as_slice(), &answer, number)?;
    }
    Ok(())
}

fn filled_words(alloc: Global) -> Result<Vec<Text>, Stop> {
    let mut words = Vec::new(alloc);
    words.push(Text::copy_of(alloc, "c")?)?;
    words.push(Text::copy_of(alloc, "a.txt")?)?;
    Ok(words)
}

fn put_number(
    alloc: Global,
    book: &mut ListBook,
    words: &[Text],
    answer: &ChildAnswer,
    number: u32,
) -> Result<(), Stop> {
    let seen = numbered_tree(alloc, number)?;
    if is_stray(answer, &seen) || book.put(words, &seen, answer).is_err() {
        return Err(Stop::OutOfMemory);
    }
    Ok(())
}
