//! The program `child_trial`: keeps a tree of files and runs real children on it, in the folder that its only
//! argument names. Each line of standard input says what to do and is answered by a line.
//! `tests/children/children.py` drives it.
//!
//! The crate `trial_rows` says how a line is written. At a line that isn't a call the program ends with the
//! exit status 2. If the variable `CHILD_TRIAL_READS` is `everything`, no file is assumed unchanged because
//! of its times. If `CHILD_TRIAL_AT_END` is `removed`, the folder is removed at the end. Otherwise each child
//! is watched by the file that `CHILD_TRIAL_CALLS` names.
#![tactic(auto)]

mod calls;
mod outcomes;
mod runs;

use calls::Play;
use process_children::ProcessChildren;
use std::alloc::AllocError;
use std::io::{BufRead, BufReader, Write};
use std::process::ExitCode;
use std::{env, io};
use trial_rows::{Row, Stop, answer_line};

// The variables that say how much is read, which file watches each child, and what becomes of the folder.
const READS: &str = "CHILD_TRIAL_READS";

const CALLS: &str = "CHILD_TRIAL_CALLS";

const AT_END: &str = "CHILD_TRIAL_AT_END";

fn main(rt: HostRuntime) -> ExitCode {
    match play(&rt) {
        Ok(()) => ExitCode::SUCCESS,
        Err(stop) => {
            let _said = rt.eprintln(stop.message());
            ExitCode::from(stop.status())
        }
    }
}

// The children that the environment asks for.
fn children_of(
    rt: &HostRuntime,
    folder: String,
) -> Result<ProcessChildren<HostRuntime>, AllocError> {
    let mut children = if is_set(rt, AT_END, "removed") {
        ProcessChildren::removed_at_end(rt.clone()?, folder)
    } else {
        ProcessChildren::watching(rt.clone()?, folder, env::var(rt, CALLS).ok())
    };
    if is_set(rt, READS, "everything") {
        children.read_everything();
    }
    Ok(children)
}

fn is_set(rt: &HostRuntime, name: &str, wanted: &str) -> bool {
    env::var(rt, name).is_ok_and(|value| value.as_str() == wanted)
}

fn play(rt: &HostRuntime) -> Result<(), Stop> {
    let alloc = rt.alloc();
    let mut play = Play::new(alloc, children_of(rt, folder_of(rt)?)?);
    for line in BufReader::new(alloc, rt.reader())?.lines(alloc) {
        play_line(rt, &mut play, line?.as_str())?;
    }
    Ok(())
}

fn folder_of(rt: &HostRuntime) -> Result<String, Stop> {
    let mut words = env::args(rt)?;
    let _program = words.next();
    words.next().ok_or(Stop::BadLine)
}

fn play_line(rt: &HostRuntime, play: &mut Play, line: &str) -> Result<(), Stop> {
    let row = Row::read(rt.alloc(), line)?;
    let answer = play.answer_of(&row)?;
    let line = answer_line(rt.alloc(), answer.as_slice())?;
    Ok(print(rt, line.as_str())?)
}

fn print(rt: &HostRuntime, line: &str) -> io::Result<()> {
    let mut writer = io::writer(rt);
    writer.write_all(line.as_bytes())?;
    writer.write_all(b"\n")?;
    writer.flush()
}
