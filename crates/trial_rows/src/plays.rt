//! Plays of rows.

use crate::answer_bytes::AnswerBytes;
use crate::row::Row;
use crate::stop::Stop;
use std::alloc::Global;
use std::io::Read;
use std::process::ExitCode;

/// What answers the rows of a play.
pub trait Answers {
    /// The answer to a row. It is `NoCall` if no call has its name, and `BadLine` if the call doesn't take
    /// its arguments. It is `TwoAnswers` if two ways to ask for the same differ, and `OutOfMemory` if the
    /// program itself is refused memory.
    fn answer_to(&self, alloc: Global, row: &Row) -> Result<AnswerBytes, Stop>;
}

/// Answers each line of standard input by a line, and returns the exit status of the program. What stops
/// the play is reported on standard error.
pub fn play(rt: &(impl Input + Print + Eprint + AllocGlobal), answers: &impl Answers) -> ExitCode {
    match played(rt, answers) {
        Ok(()) => ExitCode::SUCCESS,
        Err(stop) => {
            let _said = rt.eprintln(stop.message());
            ExitCode::from(stop.status())
        }
    }
}

fn played(rt: &(impl Input + Print + AllocGlobal), answers: &impl Answers) -> Result<(), Stop> {
    let mut lines = String::new(rt.alloc());
    rt.reader().read_to_string(&mut lines)?;
    for line in lines.as_str().lines() {
        let answer = answered(rt.alloc(), answers, line)?;
        rt.println(answer.as_str())?;
    }
    Ok(())
}

// The line that answers a line.
fn answered(alloc: Global, answers: &impl Answers, line: &str) -> Result<String, Stop> {
    answers.answer_to(alloc, &Row::read(alloc, line)?)?.line()
}
