//! Several changes of the staged files at once. A line lists them in order, separated by ` | `: `add`, a mode
//! or `-` for none, the path and the contents, or `remove` and the path. None of them may contain ` | `.

use crate::answer::Answer;
use crate::calls::read_mode;
use crate::stop::Stop;
use crate::text::read_text;
use commit_flow::Host;
use hook_base::{Bytes, Mode, Text};
use repo_store::{StagingEdit, StagingFault, Store};
use sqlite::Alter;
use std::alloc::Global;

/// Makes the changes by the store itself. A refusal is answered by its name, the number of the inner fault or
/// `none`, and the index of the refused change or `none`.
pub(crate) fn stage_all<S: Alter>(
    store: &mut Store<S>,
    rest: &str,
    answer: &mut Answer,
) -> Result<(), Stop> {
    let edits = read_edits(answer.alloc(), rest)?;
    if edits.is_empty() {
        return Err(Stop::BadLine);
    }
    match store.stage_all(edits.as_slice()) {
        Ok(()) => answer.begin("ok"),
        Err(refusal) => {
            answer.begin("refused");
            add_fault(&refusal.fault, answer);
            add_index(refusal.at, answer)
        }
    }
    Ok(())
}

/// Makes the changes by a host. A refusal is answered like that of one of its commands, followed by the
/// index.
pub(crate) fn edit_all<S: Alter>(
    host: &mut Host<S>,
    rest: &str,
    answer: &mut Answer,
) -> Result<(), Stop> {
    let edits = read_edits(answer.alloc(), rest)?;
    if edits.is_empty() {
        return Err(Stop::BadLine);
    }
    match host.stage_all(edits.as_slice()) {
        Ok(()) => answer.begin("ok"),
        Err(stop) => {
            answer.refused_command(&stop.refusal);
            add_index(stop.at, answer)
        }
    }
    Ok(())
}

fn add_fault(fault: &StagingFault, answer: &mut Answer) {
    match fault {
        StagingFault::BadPath(fault) => {
            answer.add(b"BadPath");
            answer.show(fault.number())
        }
        StagingFault::NotStaged => answer.add_all(&[b"NotStaged", b"none"]),
        StagingFault::Clash => answer.add_all(&[b"Clash", b"none"]),
        StagingFault::Store(fault) => {
            answer.add(b"Store");
            answer.show(fault.number())
        }
    }
}

fn add_index(at: Option<usize>, answer: &mut Answer) {
    answer.add(b"at");
    match at {
        Some(at) => answer.show(at),
        None => answer.add(b"none"),
    }
}

fn read_edits(alloc: Global, text: &str) -> Result<Vec<StagingEdit>, Stop> {
    let mut edits = Vec::new(alloc);
    for part in text.split(" | ") {
        let (word, rest) = part.split_once(' ').ok_or(Stop::BadLine)?;
        edits.push(read_edit(alloc, word, rest)?)?;
    }
    Ok(edits)
}

fn read_edit(alloc: Global, word: &str, rest: &str) -> Result<StagingEdit, Stop> {
    match word {
        "add" => {
            let (mode, rest) = rest.split_once(' ').ok_or(Stop::BadLine)?;
            let (path, text) = rest.split_once(' ').ok_or(Stop::BadLine)?;
            Ok(StagingEdit::Add {
                path: Text::copy_of(alloc, path)?,
                bytes: Bytes::from(read_text(alloc, text)?),
                mode: read_asked_mode(mode)?,
            })
        }
        "remove" => Ok(StagingEdit::Remove {
            path: Text::copy_of(alloc, rest)?,
        }),
        _ => Err(Stop::BadLine),
    }
}

/// The mode that a word names, or none for `-`.
pub(crate) fn read_asked_mode(word: &str) -> Result<Option<Mode>, Stop> {
    match word {
        "-" => Ok(None),
        word => Ok(Some(read_mode(word)?)),
    }
}
