//! Plays the calls on a store's cached results, as a book, and on their limit. A line describes an answer as
//! a row of children (`children.rt`).

ghost use Rattle.std.specs.Prelude.{IfOk};
ghost use Rattle.store_faults.specs.Limits.{IsLimit};

use crate::answer::Answer;
use crate::bulk::number;
use crate::children::{key_of, read_row};
use crate::stop::Stop;
use child_port::is_stray;
use repo_store::{MOST_ANSWERS, Store, StoreFault};
use result_book::{Book, BookFault};
use sqlite::Alter;

/// Caches an answer, which must change only its seen files.
pub(crate) fn remember<S: Alter>(
    store: &mut Store<S>,
    rest: &str,
    answer: &mut Answer,
) -> Result<(), Stop> {
    let row = read_row(answer.alloc(), rest)?;
    if is_stray(&row.answer, &row.seen) {
        return Err(Stop::BadLine);
    }
    match store.put(row.words.as_slice(), &row.seen, &row.answer) {
        Ok(()) => answer.begin("ok"),
        Err(fault) => refused(fault, answer),
    }
    Ok(())
}

/// The result cached for words and seen files: the exit code, the output and the changes, or `none`. It
/// becomes the most recently used.
pub(crate) fn recall<S: Alter>(
    store: &mut Store<S>,
    rest: &str,
    answer: &mut Answer,
) -> Result<(), Stop> {
    let (words, seen) = key_of(answer.alloc(), rest)?;
    match store.find(words.as_slice(), &seen) {
        Ok(found) => add_found(found, answer),
        Err(fault) => refused(fault, answer),
    }
    Ok(())
}

/// Sets how many results are cached at most.
pub(crate) fn set_limit<S: Alter>(
    store: &mut Store<S>,
    rest: &str,
    answer: &mut Answer,
) -> Result<(), Stop> {
    let limit = read_limit(rest)?;
    answer.done(store.set_answer_limit(limit));
    Ok(())
}

/// A limit of cached results, from 1 to 100,000.
pub(crate) fn read_limit(word: &str) -> Result<u32, Stop>
    ensures { IfOk result IsLimit }
{
    let limit = number(word)?;
    if limit == 0 || limit > MOST_ANSWERS {
        return Err(Stop::BadLine);
    }
    Ok(limit)
}

fn add_found(found: Option<child_port::Answer>, answer: &mut Answer) {
    answer.begin("ok");
    match found {
        None => answer.add(b"none"),
        Some(found) => {
            answer.show(found.status);
            answer.add(found.output.as_slice());
            answer.add_fixes(found.changes.as_slice());
        }
    }
}

fn refused(fault: BookFault, answer: &mut Answer) {
    match fault {
        BookFault::OutOfMemory => answer.refused(&StoreFault::OutOfMemory),
        BookFault::Store(fault) => answer.refused(&fault),
    }
}
