//! The fixes that wait to be set.

use crate::answer::Answer;
use crate::children::read_content;
use crate::stop::Stop;
use crate::text::read_text;
use hook_base::{Change, Changes, RepoPath};
use repo_store::Store;
use sqlite::Alter;
use std::alloc::Global;
use std::mem;

/// Plays `fix` and `fix-gone`, which add a fix to those that wait.
pub(crate) fn collect(
    fixes: &mut Vec<Change>,
    word: &str,
    rest: &str,
    answer: &mut Answer,
) -> Result<(), Stop> {
    let change = match word {
        "fix" => read_fix(answer.alloc(), rest)?,
        _ => Change {
            path: RepoPath::read(answer.alloc(), rest)?,
            now: None,
        },
    };
    fixes.push(change)?;
    answer.begin("ok");
    Ok(())
}

fn read_fix(alloc: Global, rest: &str) -> Result<Change, Stop> {
    let (path, text) = rest.split_once(' ').ok_or(Stop::BadLine)?;
    let now = read_content(alloc, text)?;
    Ok(Change {
        path: RepoPath::read(alloc, path)?,
        now: Some(now),
    })
}

/// Sets the fixes that wait. Two fixes of one path can't be set.
pub(crate) fn set<S: Alter>(
    store: &mut Store<S>,
    fixes: &mut Vec<Change>,
    answer: &mut Answer,
) -> Result<(), Stop> {
    let mut waiting = mem::replace(fixes, Vec::new(answer.alloc()));
    waiting.sort_by(|one, other| one.path.cmp(&other.path))?;
    match Changes::from_rising(waiting) {
        Ok(changes) => {
            answer.done(store.set_fixes(changes.as_slice()));
            Ok(())
        }
        Err(_) => Err(Stop::BadLine),
    }
}
