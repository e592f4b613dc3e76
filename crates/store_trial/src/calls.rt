//! Plays a call on an open store. Contents and messages are texts as `read_text` reads them.

use crate::answer::Answer;
use crate::answers::{recall, remember, set_limit};
use crate::bulk::{contents_of, number, stage_many, staged_path};
use crate::edits::stage_all;
use crate::look_ups::{add_files, add_message, count, look, walk};
use crate::stop::Stop;
use crate::text::read_text;
use hook_base::{Mode, RepoPath};
use repo_store::Store;
use sqlite::Alter;

/// The calls that are a whole line.
pub(crate) const CALLS: &[&str] = &[
    "set", "accept", "staged", "head", "fixes", "log", "trees", "weigh", "count", "walk",
    "answers", "forget", "limit",
];

/// The calls that are followed by arguments.
pub(crate) const CALLS_OF: &[&str] = &[
    "stage",
    "unstage",
    "stage-all",
    "fix",
    "fix-gone",
    "commit",
    "blob",
    "blob-of",
    "stage-many",
    "tree",
    "files",
    "look",
    "message",
    "remember",
    "recall",
    "set-limit",
];

/// Plays a call that changes the store, or one that only reads.
pub(crate) fn play_call<S: Alter>(
    store: &mut Store<S>,
    word: &str,
    rest: &str,
    answer: &mut Answer,
) -> Result<(), Stop> {
    match word {
        "stage" => stage(store, rest, answer),
        "stage-all" => stage_all(store, rest, answer),
        "stage-many" => stage_many(store, rest, answer),
        "unstage" => unstage(store, rest, answer),
        "accept" => {
            answer.numbered(store.accept());
            Ok(())
        }
        _ => play_further(store, word, rest, answer),
    }
}

// Plays the calls that store something, and those that only read. They are spread over several functions,
// since one with many arms takes the checker long.
fn play_further<S: Alter>(
    store: &mut Store<S>,
    word: &str,
    rest: &str,
    answer: &mut Answer,
) -> Result<(), Stop> {
    match word {
        "commit" => commit(store, rest, answer),
        "blob" => keep_text(store, rest, answer),
        "blob-of" => keep_of(store, rest, answer),
        "forget" => {
            forget(store, answer);
            Ok(())
        }
        _ => play_answers(store, word, rest, answer),
    }
}

fn play_answers<S: Alter>(
    store: &mut Store<S>,
    word: &str,
    rest: &str,
    answer: &mut Answer,
) -> Result<(), Stop> {
    match word {
        "remember" => remember(store, rest, answer),
        "recall" => recall(store, rest, answer),
        "set-limit" => set_limit(store, rest, answer),
        _ => {
            answer.begin("ok");
            show(store, word, rest, answer)
        }
    }
}

/// Adds the answer to a call that only reads.
fn show<S: Alter>(
    store: &Store<S>,
    word: &str,
    rest: &str,
    answer: &mut Answer,
) -> Result<(), Stop> {
    match word {
        "staged" => answer.add_tree(&store.staged()?),
        "head" => answer.add_tree(&store.head()?),
        "fixes" => answer.add_fixes(store.fixes()?.as_slice()),
        "log" => answer.add_log(store.log()?.as_slice()),
        _ => return show_facts(store, word, rest, answer),
    }
    Ok(())
}

fn show_facts<S: Alter>(
    store: &Store<S>,
    word: &str,
    rest: &str,
    answer: &mut Answer,
) -> Result<(), Stop> {
    match word {
        "trees" => add_trees(store, answer),
        "weigh" => weigh(store, answer),
        "look" => look(store, rest, answer),
        _ => show_counts(store, word, rest, answer),
    }
}

fn show_counts<S: Alter>(
    store: &Store<S>,
    word: &str,
    rest: &str,
    answer: &mut Answer,
) -> Result<(), Stop> {
    match word {
        "count" => count(store, answer),
        "walk" => walk(store, answer),
        "answers" => answer.show(store.answers_len()),
        "limit" => answer.show(store.answer_limit()),
        _ => return show_commit(store, word, number(rest)?, answer),
    }
    Ok(())
}

fn show_commit<S: Alter>(
    store: &Store<S>,
    word: &str,
    number: u32,
    answer: &mut Answer,
) -> Result<(), Stop> {
    match word {
        "tree" => add_tree_of(store, number, answer)?,
        "files" => add_files(store, number, answer),
        "message" => add_message(store, number, answer),
        _ => return Err(Stop::BadLine),
    }
    Ok(())
}

/// Adds the files of a commit, or `none`.
fn add_tree_of<S: Alter>(store: &Store<S>, number: u32, answer: &mut Answer) -> Result<(), Stop> {
    match store.tree_of(number)? {
        None => answer.add(b"none"),
        Some(tree) => answer.add_tree(&tree),
    }
    Ok(())
}

/// Adds the number of each commit, followed by its files.
fn add_trees<S: Alter>(store: &Store<S>, answer: &mut Answer) -> Result<(), Stop> {
    for commit in store.log()?.as_slice() {
        answer.show(commit.number);
        add_tree_of(store, commit.number, answer)?;
    }
    Ok(())
}

/// Adds how many files are staged, and their total bytes.
fn weigh<S: Alter>(store: &Store<S>, answer: &mut Answer) -> Result<(), Stop> {
    let tree = store.staged()?;
    let mut bytes = 0u64;
    for at in 0..tree.len() {
        bytes = bytes.saturating_add(tree.entry(at).entry.bytes.len() as u64);
    }
    answer.show(tree.len());
    answer.show(bytes);
    Ok(())
}

fn stage<S: Alter>(store: &mut Store<S>, rest: &str, answer: &mut Answer) -> Result<(), Stop> {
    let (mode, rest) = rest.split_once(' ').ok_or(Stop::BadLine)?;
    let (path, text) = rest.split_once(' ').ok_or(Stop::BadLine)?;
    let mode = read_mode(mode)?;
    let bytes = read_text(answer.alloc(), text)?;
    let path = staged_path(answer.alloc(), path)?;
    answer.done(store.stage(&path, mode, bytes.as_slice()));
    Ok(())
}

/// The mode that a word names.
pub(crate) fn read_mode(word: &str) -> Result<Mode, Stop> {
    match word {
        "plain" => Ok(Mode::Plain),
        "executable" => Ok(Mode::Executable),
        _ => Err(Stop::BadLine),
    }
}

fn unstage<S: Alter>(store: &mut Store<S>, path: &str, answer: &mut Answer) -> Result<(), Stop> {
    let path = RepoPath::read(answer.alloc(), path)?;
    answer.done(store.unstage(&path));
    Ok(())
}

fn commit<S: Alter>(store: &mut Store<S>, text: &str, answer: &mut Answer) -> Result<(), Stop> {
    let message = read_text(answer.alloc(), text)?;
    answer.numbered(store.commit(message.as_slice()));
    Ok(())
}

fn forget<S: Alter>(store: &mut Store<S>, answer: &mut Answer) {
    match store.answers_forget() {
        Ok(count) => {
            answer.begin("ok");
            answer.show(count)
        }
        Err(fault) => answer.refused(&fault),
    }
}

fn keep_text<S: Alter>(store: &mut Store<S>, text: &str, answer: &mut Answer) -> Result<(), Stop> {
    let bytes = read_text(answer.alloc(), text)?;
    keep(store, bytes.as_slice(), answer);
    Ok(())
}

fn keep_of<S: Alter>(store: &mut Store<S>, size: &str, answer: &mut Answer) -> Result<(), Stop> {
    let bytes = contents_of(answer.alloc(), number(size)?, 0, 0)?;
    keep(store, bytes.as_slice(), answer);
    Ok(())
}

fn keep<S: Alter>(store: &mut Store<S>, bytes: &[u8], answer: &mut Answer) {
    match store.blob_put(bytes) {
        Ok(digest) => {
            answer.begin("ok");
            answer.add_hex(&digest.bytes)
        }
        Err(fault) => answer.refused(&fault),
    }
}
