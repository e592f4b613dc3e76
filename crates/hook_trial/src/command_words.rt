//! Commands of a host, from the words of a row: `add MODE PATH CONTENTS`, `add_zeros MODE PATH COUNT`,
//! `rm PATH`, `stage COUNT EDIT..` (`host_edits.rt`), `accept`, `run STAGE FILES ONLY HOW SKIP`,
//! `message STAGE MESSAGE HOW SKIP`, `commit MESSAGE HOW SKIP`, `forget` and `limit NUMBER`.
//!
//! MODE is `plain`, `executable` or `none`. SKIP is a list of the hooks to skip, separated by commas. The
//! other words are those of `host_asks.rt`.

use crate::host_asks::{asked_name, files_of, how_of, is_unverified, message_stage_of, stage_of};
use crate::host_edits::edits_of;
use commit_flow::{Command, HostAsk, MessageAsk, StagingEdits};
use hook_base::{Bytes, Text};
use hook_cli::{AnswerLimit, skip_list_of};
use std::alloc::Global;
use trial_rows::{Stop, Words, mode_of};

/// The command of this word, with what follows it.
pub(crate) fn command_of(
    alloc: Global,
    word: &str,
    words: &mut Words<'_>,
) -> Result<Command, Stop> {
    match word {
        "add" | "add_zeros" => Ok(Command::Add {
            mode: mode_of(words)?,
            path: Text::copy_of(alloc, words.text()?)?,
            bytes: bytes_of(alloc, word, words)?,
        }),
        "rm" => Ok(Command::Remove {
            path: Text::copy_of(alloc, words.text()?)?,
        }),
        "stage" => Ok(Command::Stage {
            edits: StagingEdits::of(edits_of(alloc, words)?).ok_or(Stop::BadLine)?,
        }),
        "accept" => Ok(Command::Accept),
        "run" => Ok(Command::Run {
            ask: ask_of(alloc, words)?,
        }),
        "message" => message_hooks_of(alloc, words),
        "commit" => Ok(Command::Commit {
            message: Bytes::copy_of(alloc, words.bytes()?)?,
            no_verify: is_unverified(words)?,
            skip: skip_list_of(alloc, words.text()?)?,
        }),
        "forget" => Ok(Command::Forget),
        "limit" => Ok(Command::Limit {
            most: AnswerLimit::read(words.number()?).ok_or(Stop::BadLine)?,
        }),
        _ => Err(Stop::BadLine),
    }
}

fn ask_of(alloc: Global, words: &mut Words<'_>) -> Result<HostAsk, Stop> {
    let stage = stage_of(words)?;
    let which = files_of(alloc, words)?;
    let only = asked_name(alloc, words)?;
    let how = how_of(words)?;
    Ok(HostAsk {
        stage,
        which,
        only,
        fresh: how.fresh,
        options: how.options(),
        skip: skip_list_of(alloc, words.text()?)?,
    })
}

fn message_hooks_of(alloc: Global, words: &mut Words<'_>) -> Result<Command, Stop> {
    let stage = message_stage_of(words)?;
    let message = Bytes::copy_of(alloc, words.bytes()?)?;
    let how = how_of(words)?;
    let ask = MessageAsk {
        stage,
        skip: skip_list_of(alloc, words.text()?)?,
        fresh: how.fresh,
        options: how.options(),
    };
    Ok(Command::Message { ask, message })
}

fn bytes_of(alloc: Global, word: &str, words: &mut Words<'_>) -> Result<Bytes, Stop> {
    match word {
        "add" => Ok(Bytes::copy_of(alloc, words.bytes()?)?),
        _ => zeros(alloc, words.number()?),
    }
}

fn zeros(alloc: Global, count: u32) -> Result<Bytes, Stop> {
    let mut bytes: Vec<u8> = Vec::new(alloc);
    for _ in 0..count {
        bytes.push(0)?;
    }
    Ok(Bytes::from(bytes))
}
