//! Several changes of the staged files: `COUNT EDIT..`. An EDIT is `add MODE PATH CONTENTS` or `rm PATH`.

use commit_flow::StagingEdit;
use hook_base::{Bytes, Text};
use std::alloc::Global;
use trial_rows::{Stop, Words, mode_of};

/// The changes of `COUNT EDIT..`.
pub(crate) fn edits_of(alloc: Global, words: &mut Words<'_>) -> Result<Vec<StagingEdit>, Stop> {
    let mut edits = Vec::new(alloc);
    for _ in 0..words.number()? {
        edits.push(edit_of(alloc, words)?)?;
    }
    Ok(edits)
}

fn edit_of(alloc: Global, words: &mut Words<'_>) -> Result<StagingEdit, Stop> {
    match words.text()? {
        "add" => add_of(alloc, words),
        "rm" => Ok(StagingEdit::Remove {
            path: path_of(alloc, words)?,
        }),
        _ => Err(Stop::BadLine),
    }
}

fn add_of(alloc: Global, words: &mut Words<'_>) -> Result<StagingEdit, Stop> {
    let mode = mode_of(words)?;
    let path = path_of(alloc, words)?;
    let bytes = Bytes::from(words.bytes()?.to_vec(alloc)?);
    Ok(StagingEdit::Add { path, bytes, mode })
}

fn path_of(alloc: Global, words: &mut Words<'_>) -> Result<Text, Stop> {
    Ok(Text::copy_of(alloc, words.text()?)?)
}
