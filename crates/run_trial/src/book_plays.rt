//! Runs over one book, one after another, with a call that may be refused.
//!
//! A row's arguments are a configuration and steps, each a word and what it needs:
//!
//! - `file MODE PATH CONTENTS` and `gone PATH` change the files;
//! - `child ROW` adds a row to the table from which children answer (`child_rows.rt` of `trial_rows`), and
//!   `others` begins another table;
//! - `run HOW CALLS KTH FAULT BOOK REFUSAL` runs the hooks of `pre-commit` on all files. HOW is `plain`,
//!   `passed` or `fresh`. The children have reported CALLS outcomes (`child_runs.rt`), and their call number
//!   KTH fails with FAULT. The book's look-up or put number BOOK is refused with REFUSAL;
//! - `forget` removes what is cached;
//! - `limit NUMBER` begins another book with this limit; without it the limit is that of a new store.
//!
//! A run answers its verdict or its refusal, how many outcomes it added, and how many of these are faults.
//! Then come a line for each unsteady hook, a line for each changed file, and the report. The last part is
//! how many results are cached, and whether that of each row of the table is: `held`, `lacking`, or `other`
//! if another is in its place. This looks them up in the order of the table, so the last one that is held
//! becomes the most recently used.

ghost use Rattle.std.specs.Prelude.{IfOk};
ghost use Rattle.store_faults.specs.Limits.{IsLimit};

use crate::book_told::{with_ran, with_remembered};
use crate::child_runs::table_of;
use crate::configurations::refusal;
use crate::fused_book::FusedBook;
use child_port::{Children, Fault, FuseChildren};
use hook_base::{Content, FileEntry, Items, RepoPath, Tree};
use hook_config::{Config, Stage, read_config};
use hook_run::{HooksRun, Reuse, RunAsk, RunOut, RunRefusal, run_hooks};
use result_book::{Book, BookFault};
use std::alloc::Global;
use store_faults::{FIRST_LIMIT, MOST_ANSWERS, StoreFault};
use trial_rows::{AnswerBytes, Stop, Words, fault_of, mode_of, text_of};

/// The files, the rows from which children answer, as their texts describe them, and the book.
#[derive(Drop)]
pub(crate) struct BookPlay {
    pub(crate) tree: Tree,
    pub(crate) rows: Vec<Vec<u8>>,
    pub(crate) book: FusedBook,
}

/// `play_book CONFIGURATION STEP..`: what the runs answer, one after another.
pub(crate) fn played(alloc: Global, arguments: &[Vec<u8>]) -> Result<AnswerBytes, Stop> {
    let mut words = Words { left: arguments };
    match read_config(alloc, words.bytes()?) {
        Ok(config) => over_config(alloc, &config, &mut words),
        Err(fault) => Ok(refusal(alloc, fault)),
    }
}

fn over_config(alloc: Global, config: &Config, words: &mut Words<'_>) -> Result<AnswerBytes, Stop> {
    let mut play = BookPlay {
        tree: Tree::new(alloc),
        rows: Vec::new(alloc),
        book: FusedBook::new(alloc, FIRST_LIMIT),
    };
    let mut answer = AnswerBytes::new(alloc);
    for _ in 0..words.left.len() {
        match words.next() {
            Some(step) => answer = stepped(text_of(step)?, words, config, &mut play, answer)?,
            None => break,
        }
    }
    Ok(answer)
}

fn stepped(
    step: &str,
    words: &mut Words<'_>,
    config: &Config,
    play: &mut BookPlay,
    answer: AnswerBytes,
) -> Result<AnswerBytes, Stop> {
    let alloc = answer.alloc();
    match step {
        "file" => put_file(alloc, words, &mut play.tree)?,
        "gone" => remove_file(alloc, words, &mut play.tree)?,
        "child" => play.rows.push(words.bytes()?.to_vec(alloc)?)?,
        "others" => play.rows.clear(),
        "limit" => play.book = FusedBook::new(alloc, limit_of(words)?),
        "run" => return run(words, config, play, answer),
        "forget" => return Ok(with_forgotten(play, answer)),
        _ => return Err(Stop::BadLine),
    }
    Ok(answer)
}

fn limit_of(words: &mut Words<'_>) -> Result<u32, Stop>
    ensures { IfOk result (λ limit. IsLimit limit) }
{
    let limit = words.number()?;
    if limit < 1 || MOST_ANSWERS < limit {
        return Err(Stop::BadLine);
    }
    Ok(limit)
}

fn put_file(alloc: Global, words: &mut Words<'_>, tree: &mut Tree) -> Result<(), Stop> {
    let mode = mode_of(words)?.ok_or(Stop::BadLine)?;
    let path = RepoPath::read(alloc, words.text()?)?;
    let bytes = Content::copy_of(alloc, words.bytes()?)?;
    tree.put(path, FileEntry { mode, bytes })?;
    Ok(())
}

fn remove_file(alloc: Global, words: &mut Words<'_>, tree: &mut Tree) -> Result<(), Stop> {
    let path = RepoPath::read(alloc, words.text()?)?;
    let _found = tree.remove(&path);
    Ok(())
}

fn with_forgotten(play: &mut BookPlay, answer: AnswerBytes) -> AnswerBytes {
    match play.book.forget() {
        Ok(count) => answer.shown(count).text(" forgotten\n"),
        Err(fault) => answer.shown(fault).text("\n"),
    }
}

fn run(
    words: &mut Words<'_>,
    config: &Config,
    play: &mut BookPlay,
    answer: AnswerBytes,
) -> Result<AnswerBytes, Stop> {
    let alloc = answer.alloc();
    let ask = ask_of(alloc, &play.tree, words.text()?)?;
    let table = table_of(alloc, words.bytes()?, play.rows.as_slice())?;
    let kth = u64::from(words.number()?);
    let mut children = FuseChildren::new(table, kth, fault_of(words.bytes()?)?);
    fuse_book(words, &mut play.book)?;
    let (calls, faults) = (children.calls(), children.faults());
    let ran = run_hooks(
        alloc,
        &mut children,
        &mut play.book,
        config,
        &ask,
        &play.tree,
    );
    let calls = children.calls().saturating_sub(calls);
    let faults = children.faults().saturating_sub(faults);
    let answer = with_ran(answer, &out_of(ran), calls, faults, &play.tree)?;
    with_remembered(answer, play)
}

fn out_of(ran: Result<HooksRun, RunRefusal>) -> Result<RunOut, RunRefusal> {
    match ran {
        Ok(ran) => Ok(ran.out),
        Err(refused) => Err(refused),
    }
}

// An ask with all files of the tree as candidates.
fn ask_of(alloc: Global, tree: &Tree, how: &str) -> Result<RunAsk, Stop> {
    let mut candidates = Vec::new(alloc);
    for index in 0..tree.len() {
        candidates.push(tree.entry(index).path.clone()?)?;
    }
    Ok(RunAsk {
        stage: Stage::PreCommit,
        candidates: Items::from(candidates),
        only: None,
        skip: Items::new(alloc),
        reuse: reuse_of(how)?,
    })
}

fn reuse_of(how: &str) -> Result<Reuse, Stop> {
    match how {
        "plain" => Ok(Reuse::All),
        "passed" => Ok(Reuse::Passed),
        "fresh" => Ok(Reuse::Nothing),
        _ => Err(Stop::BadLine),
    }
}

fn fuse_book(words: &mut Words<'_>, book: &mut FusedBook) -> Result<(), Stop> {
    let kth = words.number()?;
    let fault = match words.text()? {
        "memory" => BookFault::OutOfMemory,
        "damaged" => BookFault::Store(StoreFault::Damaged),
        "collision" => BookFault::Store(StoreFault::Collision),
        _ => return Err(Stop::BadLine),
    };
    book.fuse(kth, fault);
    Ok(())
}
