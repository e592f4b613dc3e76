//! Calls in great numbers, for the benchmark.

ghost use Rattle.std.specs.Prelude.{◌≢◌, IfOk};
ghost use Rattle.hook_base.specs.Paths.{message_path};

use crate::answer::Answer;
use crate::stop::Stop;
use hook_base::{Mode, RepoPath};
use repo_store::{Store, StoreFault};
use sqlite::Alter;
use std::alloc::Global;

/// Contents of a size: the seed, the number of the file, and dots.
pub(crate) fn contents_of(alloc: Global, size: u32, seed: u32, at: u32) -> Result<Vec<u8>, Stop> {
    let head = format!(in alloc; "{seed} {at} ")?;
    let mut bytes = vec![in alloc; b'.'; size as usize]?;
    for (byte, letter) in bytes.as_mut_slice().iter_mut().zip(head.as_bytes()) {
        *byte = *letter;
    }
    Ok(bytes)
}

/// Stages a number of files of a size until the first refusal. The seed makes their contents different from
/// others.
pub(crate) fn stage_many<S: Alter>(
    store: &mut Store<S>,
    rest: &str,
    answer: &mut Answer,
) -> Result<(), Stop> {
    let (count, rest) = rest.split_once(' ').ok_or(Stop::BadLine)?;
    let (size, seed) = rest.split_once(' ').ok_or(Stop::BadLine)?;
    let (count, size, seed) = (number(count)?, number(size)?, number(seed)?);
    for at in 0..count {
        let bytes = contents_of(answer.alloc(), size, seed, at)?;
        if let Err(fault) = stage_one(answer.alloc(), store, at, bytes.as_slice())? {
            answer.refused(&fault);
            return Ok(());
        }
    }
    answer.begin("ok");
    Ok(())
}

fn stage_one<S: Alter>(
    alloc: Global,
    store: &mut Store<S>,
    at: u32,
    bytes: &[u8],
) -> Result<Result<(), StoreFault>, Stop> {
    let name = format!(in alloc; "many/{at:06}")?;
    let path = staged_path(alloc, name.as_str())?;
    Ok(store.stage(&path, Mode::Plain, bytes))
}

/// A path that may be staged.
pub(crate) fn staged_path(alloc: Global, text: &str) -> Result<RepoPath, Stop>
    ensures { IfOk result (λ path. path ≢ message_path) }
{
    let path = RepoPath::read(alloc, text)?;
    if path == RepoPath::message(alloc)? {
        return Err(Stop::BadLine);
    }
    Ok(path)
}

/// Reads a word as a number.
pub(crate) fn number(word: &str) -> Result<u32, Stop> {
    word.parse().map_err(|_| Stop::BadLine)
}
