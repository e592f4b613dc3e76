//! The program `store_trial FILE`: plays calls on the store in a file, and commands of a host over it. Each is a
//! line of standard input, and is answered by a line of fields that tabs part. A backslash, a line end and a tab
//! are `\\`, `\n` and `\t`. Scripts use it to drive, time and stop a store.
//!
//! `store_trial log NUMBER` and `store_trial database NUMBER` play on a disk in memory whose log or database file
//! takes so many operations and then none. `crash` loses what wasn't synchronized and mends the disk. The exit
//! status is 1 if its input, its output or `play-tables` fails, 2 for a line that can't be played there, and 3
//! without memory.
#![tactic(auto)]

mod alone;
mod answer;
mod answers;
mod ask;
mod bulk;
mod calls;
mod children;
mod edits;
mod fixes;
mod host;
mod look_ups;
mod play;
mod real_file;
mod stop;
mod stopping_file;
mod tables;
mod tables_play;
mod text;

use answer::Answer;
use real_file::play_file;
use std::io::Write;
use std::process::ExitCode;
use std::{env, io};
use stop::Stop;
use stopping_file::play_stopping;

fn main(rt: HostRuntime) -> ExitCode {
    match run(&rt) {
        Ok(()) => ExitCode::SUCCESS,
        Err(stop) => {
            let _said = rt.eprintln(stop.message());
            ExitCode::from(stop.status())
        }
    }
}

/// Plays over the disk that the program's arguments name.
fn run(rt: &HostRuntime) -> Result<(), Stop> {
    let mut words = env::args(rt)?;
    let _program = words.next();
    match (words.next(), words.next(), words.next()) {
        (Some(name), None, _) => play_file(rt, name.as_str()),
        (Some(which), Some(at), None) => play_stopping(rt, which.as_str(), at.as_str()),
        _ => Err(Stop::Usage),
    }
}

/// Prints an answer.
pub(crate) fn print(rt: &HostRuntime, answer: &mut Answer) -> Result<(), Stop> {
    let mut writer = io::writer(rt);
    writer.write_all(answer.end()?)?;
    writer.flush()?;
    Ok(())
}
