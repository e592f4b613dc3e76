//! Commands on a disk without a store: what a database costs by itself, and what the layers below a store
//! answer.

use crate::answer::Answer;
use crate::bulk::{contents_of, number};
use crate::stop::Stop;
use crate::tables::{add_counts, insert_contents};
use crate::tables_play::play_tables;
use repo_store::StoreFault;
use sqlite::{Alter, Connection, Error, ErrorCode};

/// The commands that are a whole line.
pub(crate) const COMMANDS: &[&str] = &["connect", "read-tables", "play-tables"];

/// The commands that are followed by arguments.
pub(crate) const COMMANDS_OF: &[&str] = &["insert-alone", "execute"];

/// Plays a command over a connection, and gives back the object in which the database is kept.
pub(crate) fn play_alone<S: Alter + Drop>(
    conn: Connection<S>,
    word: &str,
    rest: &str,
    answer: &mut Answer,
) -> Result<S, Stop> {
    let mut conn = conn;
    play_on(&mut conn, word, rest, answer)?;
    Ok(conn.into_store())
}

fn play_on<S: Alter>(
    conn: &mut Connection<S>,
    word: &str,
    rest: &str,
    answer: &mut Answer,
) -> Result<(), Stop> {
    answer.begin("ok");
    let done = match word {
        "read-tables" => add_counts(conn, answer),
        "play-tables" => play_tables(conn, answer)?,
        "insert-alone" => {
            let bytes = contents_of(answer.alloc(), number(rest)?, 0, 0)?;
            insert_contents(conn, bytes.as_slice())
        }
        _ => conn.execute_batch(rest),
    };
    if let Err(error) = done {
        answer.refused(&StoreFault::from(error));
    }
    Ok(())
}

/// Adds the refusals of a store, each as it is answered.
pub(crate) fn add_faults(answer: &mut Answer) {
    let faults = [
        StoreFault::NotAStore,
        StoreFault::Damaged,
        StoreFault::Sql(Error::SqliteFailure(ErrorCode::NameTaken)),
        StoreFault::Sql(Error::SqliteFailure(ErrorCode::DiskFull)),
        StoreFault::OutOfMemory,
        StoreFault::Collision,
        StoreFault::TooLarge,
        StoreFault::TooMany,
    ];
    answer.begin("ok");
    for fault in &faults {
        answer.add_fault(fault);
    }
}
