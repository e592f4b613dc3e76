//! Plays the calls that give single facts of a store without a copy of its files.

use crate::answer::{Answer, word_of};
use crate::stop::Stop;
use hook_base::RepoPath;
use repo_store::Store;
use sqlite::Alter;

/// Adds what the store says of a path. That is whether it is staged, with its mode and its contents or
/// `none`, and whether it clashes with a staged one. Then come whether HEAD has it, and whether it differs
/// from HEAD there.
pub(crate) fn look<S: Alter>(
    store: &Store<S>,
    path: &str,
    answer: &mut Answer,
) -> Result<(), Stop> {
    let path = RepoPath::read(answer.alloc(), path)?;
    answer.show(store.is_staged(&path));
    answer.add(store.staged_mode(&path).map_or("none", word_of).as_bytes());
    answer.add(store.staged_bytes(&path).unwrap_or(b"none"));
    answer.show(store.clashes(&path));
    answer.show(store.is_in_head(&path));
    answer.show(store.differs_from_head_at(&path));
    Ok(())
}

/// Adds how many fixes and commits there are, and whether anything differs from HEAD.
pub(crate) fn count<S: Alter>(store: &Store<S>, answer: &mut Answer) {
    answer.show(store.count_fixes());
    answer.show(store.count_commits());
    answer.show(store.differs_from_head())
}

/// Adds a commit's message, or `none`.
pub(crate) fn add_message<S: Alter>(store: &Store<S>, number: u32, answer: &mut Answer) {
    answer.add(store.message_of(number).unwrap_or(b"none"))
}

/// Adds the staged files one by one, and after `head` those of HEAD.
pub(crate) fn walk<S: Alter>(store: &Store<S>, answer: &mut Answer) {
    for index in 0..usize::MAX {
        let Some(file) = store.staged_file(index) else {
            break;
        };
        answer.add_file(file.mode, file.path, file.bytes);
    }
    answer.add(b"head");
    for index in 0..usize::MAX {
        let Some(file) = store.head_file(index) else {
            break;
        };
        answer.add_file(file.mode, file.path, file.bytes);
    }
}

/// Adds the files of a commit one by one.
pub(crate) fn add_files<S: Alter>(store: &Store<S>, number: u32, answer: &mut Answer) {
    for index in 0..usize::MAX {
        let Some(file) = store.commit_file(number, index) else {
            break;
        };
        answer.add_file(file.mode, file.path, file.bytes);
    }
}
