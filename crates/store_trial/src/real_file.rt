//! A real file, for the store of a play.

use crate::answer::Answer;
use crate::ask::Ask;
use crate::play::Play;
use crate::print;
use crate::stop::Stop;
use repo_store::StoreFault;
use sqlite::{Connection, File, FileStore};
use std::io::{BufRead, BufReader};

/// Plays the lines of standard input over the file with this name.
pub(crate) fn play_file(rt: &HostRuntime, name: &str) -> Result<(), Stop> {
    let mut play = Play::new(rt.alloc());
    let mut answer = Answer::new(rt.alloc());
    play_lines(rt, name, &mut play, &mut answer)
}

fn play_lines(
    rt: &HostRuntime,
    name: &str,
    play: &mut Play<FileStore<File>>,
    answer: &mut Answer,
) -> Result<(), Stop> {
    for line in BufReader::new(rt.alloc(), rt.reader())?.lines(rt.alloc()) {
        play_line(rt, name, play, line?.as_str(), answer)?;
        print(rt, answer)?;
    }
    Ok(())
}

fn play_line(
    rt: &HostRuntime,
    name: &str,
    play: &mut Play<FileStore<File>>,
    line: &str,
    answer: &mut Answer,
) -> Result<(), Stop> {
    match play.begin(line, answer)? {
        Ask::Connection => match Connection::open(rt, name) {
            Ok(conn) => end(play.go_on(line, conn, answer)?, answer),
            Err(error) => {
                answer.refused(&StoreFault::from(error));
                Ok(())
            }
        },
        ask => end(ask, answer),
    }
}

fn end(ask: Ask<FileStore<File>>, answer: &mut Answer) -> Result<(), Stop> {
    match ask {
        Ask::Nothing | Ask::GiveBack(_) => Ok(()),
        Ask::Closing(conn) => {
            answer.done(conn.close().map_err(|error| StoreFault::from(error)));
            Ok(())
        }
        Ask::Connection | Ask::Crash(_) => Err(Stop::BadLine),
    }
}
