//! Commands over a repository, and look-ups, from the words of a row. A command is as `command_words.rt` says.
//! A look-up is `status`, `fixes`, `cat PATH`, `cat_fixed PATH`, `cat_commit NUMBER PATH`, `log`,
//! `show NUMBER` or `memory`.

use crate::command_words::command_of;
use crate::host_commands::Played;
use crate::host_writers::HabitWriter;
use crate::turn_children::TurnChildren;
use hook_base::Text;
use hook_cli::{FileVersion, LookUp, command_over, look_up_over};
use std::alloc::Global;
use std::mem;
use trial_rows::{AnswerBytes, Stop, Words};

/// Plays one command or look-up.
pub(crate) fn line_played(
    alloc: Global,
    words: &mut Words<'_>,
    children: &mut TurnChildren,
    host: &mut Played,
    told: &mut AnswerBytes,
) -> Result<(), Stop> {
    let mut out = HabitWriter::of(alloc, words.bytes()?)?;
    let mut err = HabitWriter::of(alloc, words.bytes()?)?;
    let word = words.text()?;
    let status = match word {
        "status" | "fixes" | "cat" | "cat_fixed" | "cat_commit" | "log" | "show" | "memory" => {
            let asked = look_up_of(alloc, word, words)?;
            look_up_over(alloc, &asked, host, &mut out, &mut err)
        }
        _ => {
            let command = command_of(alloc, word, words)?;
            command_over(alloc, &command, host, children, &mut out, &mut err)
        }
    };
    tell_end(status, out, err, told);
    Ok(())
}

fn look_up_of(alloc: Global, command: &str, words: &mut Words<'_>) -> Result<LookUp, Stop> {
    match command {
        "status" => Ok(LookUp::Status),
        "fixes" => Ok(LookUp::Fixes),
        "cat" | "cat_fixed" | "cat_commit" => Ok(LookUp::Cat {
            version: version_of(command, words)?,
            path: asked_path(alloc, words)?,
        }),
        "log" => Ok(LookUp::Log),
        "show" => Ok(LookUp::Show {
            number: words.number()?,
        }),
        "memory" => Ok(LookUp::Memory),
        _ => Err(Stop::BadLine),
    }
}

fn version_of(command: &str, words: &mut Words<'_>) -> Result<FileVersion, Stop> {
    match command {
        "cat_fixed" => Ok(FileVersion::Fixed),
        "cat_commit" => Ok(FileVersion::Committed(words.number()?)),
        _ => Ok(FileVersion::Staged),
    }
}

fn asked_path(alloc: Global, words: &mut Words<'_>) -> Result<Text, Stop> {
    Ok(Text::copy_of(alloc, words.text()?)?)
}

// Adds how a command ended, and what is on its writers.
fn tell_end(status: u8, out: HabitWriter, err: HabitWriter, told: &mut AnswerBytes) {
    let fresh = AnswerBytes::new(told.alloc());
    let answer = mem::replace(told, fresh);
    let answer = answer.text("status ").shown(status).text(", out ");
    let answer = with_flushes(answer, out.told_flushes());
    let out = out.into_bytes();
    let answer = answer.shown(out.len()).text(", err ");
    let answer = with_flushes(answer, err.told_flushes());
    let err = err.into_bytes();
    let answer = answer.shown(err.len()).text("\n");
    *told = answer.bytes(out.as_slice()).bytes(err.as_slice());
}

fn with_flushes(answer: AnswerBytes, flushes: Option<u32>) -> AnswerBytes {
    match flushes {
        Some(count) => answer.text("flushed ").shown(count).text(" times "),
        None => answer,
    }
}
