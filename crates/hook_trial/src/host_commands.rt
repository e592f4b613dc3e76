//! Commands over a repository in memory, by a host that caches results as long as it lives.
//!
//! A row's arguments are steps, each a word and what it needs. The table from which children answer
//! (`child_tables.rt`) may come before them. The store is empty at first, and these steps set it up for a new
//! host:
//!
//! - `stage MODE PATH CONTENTS`, `unstage PATH` and `commit MESSAGE`;
//! - `fixes FIX..`, one text with a fix on each line: a path alone is a file that is gone, and a path, a tab
//!   and bytes are a file with these bytes.
//!
//! The other steps answer:
//!
//! - `line OUT ERR COMMAND ..` plays a command or a look-up (`host_lines.rt`) over writers of two habits
//!   (`host_writers.rt`). It answers the exit status and how many bytes are on each writer, and after a line
//!   end these bytes;
//! - `store` answers the staged files, those of HEAD, and how many fixes and commits there are;
//! - `forget` answers how many cached results are removed;
//! - `counts` answers how many children were started, how many of them failed, and how many results are
//!   cached. A line follows with the numbers of the rows from which children answered since the last such
//!   step; `-` is a child without a row;
//! - after `spent` no child can be counted.

ghost use Rattle.std.specs.Prelude.{◌≢◌, IfOk};
ghost use Rattle.hook_base.specs.Paths.{message_path};

use crate::child_tables::children_of;
use crate::host_counts::{with_counts, with_forgotten, with_rows};
use crate::host_files::with_file;
use crate::host_lines::line_played;
use crate::turn_children::TurnChildren;
use commit_flow::Host;
use hook_base::{Change, Changes, Content, RepoPath};
use repo_store::{FileRef, Store, StoreFault};
use sqlite::{Connection, MemStore};
use std::alloc::Global;
use std::mem;
use trial_rows::{AnswerBytes, Stop, Words, mode_of, text_of};

/// The host of a row.
pub(crate) type Played = Host<MemStore>;

// Its store.
type Kept = Store<MemStore>;

/// `command_over STEP..`: what the lines and the store answer, one after the other.
pub(crate) fn played(alloc: Global, arguments: &[Vec<u8>]) -> Result<AnswerBytes, Stop> {
    let mut words = Words { left: arguments };
    let mut children = children_of(alloc, &mut words)?;
    let mut host = Host::over(empty_store(alloc)?);
    let mut told = AnswerBytes::new(alloc);
    for _ in 0..arguments.len() {
        match words.next() {
            Some(step) => {
                let step = text_of(step)?;
                host = stepped(alloc, step, &mut words, &mut children, host, &mut told)?;
            }
            None => return Ok(told),
        }
    }
    Ok(told)
}

pub(crate) fn empty_store(alloc: Global) -> Result<Kept, Stop> {
    let conn = Connection::open_in_memory(alloc)?;
    match Store::create(alloc, conn) {
        Ok(store) => Ok(store),
        Err((fault, _)) => Err(stop_of(fault)),
    }
}

fn stop_of(fault: StoreFault) -> Stop {
    match fault {
        StoreFault::OutOfMemory => Stop::OutOfMemory,
        _ => Stop::BadLine,
    }
}

fn stepped(
    alloc: Global,
    step: &str,
    words: &mut Words<'_>,
    children: &mut TurnChildren,
    host: Played,
    told: &mut AnswerBytes,
) -> Result<Played, Stop> {
    let mut host = host;
    match step {
        "line" => line_played(alloc, words, children, &mut host, told)?,
        "store" => tell_store(host.store(), told),
        "counts" => tell_counts(children, &host, told),
        "forget" => tell_forgotten(&mut host, told),
        "spent" => children.spend(),
        _ => return set_up(alloc, step, words, host.into_store()),
    }
    Ok(host)
}

// A new host of the store after a step that sets it up.
fn set_up(alloc: Global, step: &str, words: &mut Words<'_>, store: Kept) -> Result<Played, Stop> {
    let mut store = store;
    match step {
        "stage" => stage(alloc, words, &mut store)?,
        "unstage" => unstage(alloc, words, &mut store)?,
        "commit" => commit(words, &mut store)?,
        "fixes" => set_fixes(alloc, words, &mut store)?,
        _ => return Err(Stop::BadLine),
    }
    Ok(Host::over(store))
}

fn stage(alloc: Global, words: &mut Words<'_>, store: &mut Kept) -> Result<(), Stop> {
    let mode = mode_of(words)?.ok_or(Stop::BadLine)?;
    let path = staged_path(alloc, words.text()?)?;
    store.stage(&path, mode, words.bytes()?).map_err(stop_of)
}

// A path that may be staged.
fn staged_path(alloc: Global, text: &str) -> Result<RepoPath, Stop>
    ensures { IfOk result (λ path. path ≢ message_path) }
{
    let path = RepoPath::read(alloc, text)?;
    if path == RepoPath::message(alloc)? {
        return Err(Stop::BadLine);
    }
    Ok(path)
}

fn unstage(alloc: Global, words: &mut Words<'_>, store: &mut Kept) -> Result<(), Stop> {
    let path = RepoPath::read(alloc, words.text()?)?;
    store.unstage(&path).map_err(stop_of)
}

fn commit(words: &mut Words<'_>, store: &mut Kept) -> Result<(), Stop> {
    let message = words.bytes()?;
    store.commit(message).map_err(stop_of)?;
    Ok(())
}

fn set_fixes(alloc: Global, words: &mut Words<'_>, store: &mut Kept) -> Result<(), Stop> {
    let mut fixes = Vec::new(alloc);
    for line in words.text()?.lines() {
        fixes.push(fix_of(alloc, line)?)?;
    }
    match Changes::from_rising(fixes) {
        Ok(fixes) => store.set_fixes(fixes.as_slice()).map_err(stop_of),
        Err(_) => Err(Stop::BadLine),
    }
}

fn fix_of(alloc: Global, line: &str) -> Result<Change, Stop> {
    match line.split_once('\t') {
        Some((path, text)) => Ok(Change {
            path: RepoPath::read(alloc, path)?,
            now: Some(Content::copy_of(alloc, text.as_bytes())?),
        }),
        None => Ok(Change {
            path: RepoPath::read(alloc, line)?,
            now: None,
        }),
    }
}

fn tell_store(store: &Kept, told: &mut AnswerBytes) {
    let answer = with_head(with_staged(taken(told), store), store);
    let answer = answer.text("fixes ").shown(store.count_fixes());
    let answer = answer.text(", commits ").shown(store.count_commits());
    *told = answer.text("\n");
}

fn tell_counts(children: &mut TurnChildren, host: &Played, told: &mut AnswerBytes) {
    let answer = with_counts(taken(told), children, host);
    *told = with_rows(answer, children);
}

fn tell_forgotten(host: &mut Played, told: &mut AnswerBytes) {
    *told = with_forgotten(taken(told), host);
}

// Takes the answer so far by value, so that more can be added to it.
fn taken(told: &mut AnswerBytes) -> AnswerBytes {
    let fresh = AnswerBytes::new(told.alloc());
    mem::replace(told, fresh)
}

fn with_staged(answer: AnswerBytes, store: &Kept) -> AnswerBytes {
    let mut answer = answer;
    for index in 0..usize::MAX {
        match store.staged_file(index) {
            Some(file) => answer = with_ref(answer, "staged", &file),
            None => break,
        }
    }
    answer
}

fn with_head(answer: AnswerBytes, store: &Kept) -> AnswerBytes {
    let mut answer = answer;
    for index in 0..usize::MAX {
        match store.head_file(index) {
            Some(file) => answer = with_ref(answer, "head", &file),
            None => break,
        }
    }
    answer
}

fn with_ref(answer: AnswerBytes, list: &str, file: &FileRef<'_>) -> AnswerBytes {
    with_file(answer, list, file.mode, file.path.as_str(), file.bytes)
}
