//! Plays lines, whichever disk the database is on.

use crate::alone::{COMMANDS, COMMANDS_OF, add_faults, play_alone};
use crate::answer::Answer;
use crate::ask::Ask;
use crate::calls::{CALLS, CALLS_OF, play_call};
use crate::children::read_row;
use crate::fixes::{collect, set};
use crate::host::{self, play_command};
use crate::stop::Stop;
use commit_flow::Host;
use hook_base::{Change, Text};
use repo_store::{Store, StoreFault};
use sqlite::{Alter, Connection, Error};
use std::alloc::Global;

/// The store if one is open, the fixes that wait, and the rows from which children answer, as their lines
/// describe them.
#[derive(Drop)]
pub(crate) struct Play<S: Alter + Drop> {
    store: Option<Store<S>>,
    fixes: Vec<Change>,
    rows: Vec<Text>,
}

impl<S: Alter + Drop> Play<S> {
    pub(crate) fn new(alloc: Global) -> Play<S> {
        Play {
            store: None,
            fixes: Vec::new(alloc),
            rows: Vec::new(alloc),
        }
    }

    /// Plays a line as far as no disk is needed.
    pub(crate) fn begin(&mut self, line: &str, answer: &mut Answer) -> Result<Ask<S>, Stop> {
        match line {
            "create" | "open" => match self.store {
                Some(_) => Err(Stop::BadLine),
                None => Ok(Ask::Connection),
            },
            "close" => self.close(answer),
            "crash" => Ok(Ask::Crash(self.kept())),
            _ => {
                if is_of(line, COMMANDS, COMMANDS_OF) {
                    return Ok(Ask::Connection);
                }
                self.call(line, answer)?;
                Ok(Ask::Nothing)
            }
        }
    }

    /// Continues a line with a connection to the database.
    pub(crate) fn go_on(
        &mut self,
        line: &str,
        conn: Connection<S>,
        answer: &mut Answer,
    ) -> Result<Ask<S>, Stop> {
        match line {
            "create" => self.open(conn, true, answer),
            "open" => self.open(conn, false, answer),
            "connect" => Ok(Ask::Closing(conn)),
            _ => {
                let (word, rest) = parted(line);
                Ok(Ask::GiveBack(play_alone(conn, word, rest, answer)?))
            }
        }
    }

    fn open(
        &mut self,
        conn: Connection<S>,
        is_new: bool,
        answer: &mut Answer,
    ) -> Result<Ask<S>, Stop> {
        match begun(answer.alloc(), conn, is_new) {
            Ok(store) => {
                self.store = Some(store);
                answer.begin("ok");
                Ok(Ask::Nothing)
            }
            Err((fault, conn)) => {
                answer.refused(&fault);
                Ok(Ask::GiveBack(conn.into_store()))
            }
        }
    }

    fn close(&mut self, answer: &mut Answer) -> Result<Ask<S>, Stop> {
        match self.store.take() {
            None => {
                answer.begin("no store");
                Ok(Ask::Nothing)
            }
            Some(store) => Ok(Ask::Closing(store.into_connection())),
        }
    }

    /// The object in which the open store was kept.
    fn kept(&mut self) -> Option<S> {
        match self.store.take() {
            None => None,
            Some(store) => Some(store.into_connection().into_store()),
        }
    }

    fn call(&mut self, line: &str, answer: &mut Answer) -> Result<(), Stop> {
        if line == "faults" {
            add_faults(answer);
            return Ok(());
        }
        if is_of(line, &[], &["child"]) {
            return self.child(line, answer);
        }
        if is_of(line, host::COMMANDS, host::COMMANDS_OF) {
            return self.command(line, answer);
        }
        if !is_of(line, CALLS, CALLS_OF) {
            return Err(Stop::BadLine);
        }
        let (word, rest) = parted(line);
        match &mut self.store {
            None => {
                answer.begin("no store");
                Ok(())
            }
            Some(store) => match word {
                "fix" | "fix-gone" => collect(&mut self.fixes, word, rest, answer),
                "set" => set(store, &mut self.fixes, answer),
                _ => play_call(store, word, rest, answer),
            },
        }
    }

    /// Keeps a row from which children answer. It needs no store.
    fn child(&mut self, line: &str, answer: &mut Answer) -> Result<(), Stop> {
        let (_word, rest) = parted(line);
        let _row = read_row(answer.alloc(), rest)?;
        self.rows.push(Text::copy_of(answer.alloc(), rest)?)?;
        answer.begin("ok");
        Ok(())
    }

    /// Gives the store to a host for one command.
    fn command(&mut self, line: &str, answer: &mut Answer) -> Result<(), Stop> {
        match self.store.take() {
            None => {
                answer.begin("no store");
                Ok(())
            }
            Some(store) => {
                let (word, rest) = parted(line);
                let mut host = Host::over(store);
                let played = play_command(&mut host, self.rows.as_slice(), word, rest, answer);
                self.store = Some(host.into_store());
                played
            }
        }
    }
}

/// Whether a line is one of `whole`, or begins with one of `words` and a blank.
fn is_of(line: &str, whole: &[&str], words: &[&str]) -> bool {
    match line.split_once(' ') {
        None => whole.contains(&line),
        Some((word, _rest)) => words.contains(&word),
    }
}

/// The first word of a line, and what follows the blank after it.
fn parted(line: &str) -> (&str, &str) {
    line.split_once(' ').unwrap_or((line, ""))
}

/// The store that is created in a database, or opened in it. A refusal gives the connection back.
fn begun<S: Alter + Drop>(
    alloc: Global,
    conn: Connection<S>,
    is_new: bool,
) -> Result<Store<S>, (StoreFault, Connection<S>)> {
    if !conn.is_autocommit() {
        return Err((StoreFault::Sql(Error::InvalidQuery), conn));
    }
    if is_new {
        Store::create(alloc, conn)
    } else {
        Store::open(alloc, conn)
    }
}
