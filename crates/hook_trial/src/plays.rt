//! Lists of commands that a host makes in one call, and what the host answers then.
//!
//! A row's arguments may begin with its children (`fused_children.rt`). Then come the commands
//! (`command_words.rt`), on a repository that is empty at first. The answer has each reply (`replies.rt`), a
//! line on the children and on what is cached, and the repository.

use crate::command_words::command_of;
use crate::fused_children::fused_children_of;
use crate::host_commands::{Played, empty_store};
use crate::host_counts::{with_counts, with_forgotten};
use crate::host_files::with_file;
use crate::replies::{with_changes, with_length, with_reply};
use commit_flow::{Command, Host, Reply};
use hook_base::Tree;
use std::alloc::Global;
use trial_rows::{AnswerBytes, Stop, Words};

/// `play COMMAND..`: the replies, the counts, and the repository.
pub(crate) fn played(alloc: Global, arguments: &[Vec<u8>]) -> Result<AnswerBytes, Stop> {
    let mut words = Words { left: arguments };
    let mut children = fused_children_of(alloc, &mut words)?;
    let commands = commands_of(alloc, &mut words)?;
    let mut host = Host::over(empty_store(alloc)?);
    let replies = host.play(alloc, &mut children, commands.as_slice())?;
    let answer = with_replies(AnswerBytes::new(alloc), replies.as_slice());
    let answer = with_forgotten(with_counts(answer, &children, &host), &mut host);
    with_repository(answer, &host)
}

fn with_replies(answer: AnswerBytes, replies: &[Reply]) -> AnswerBytes {
    let mut answer = answer;
    for reply in replies {
        answer = with_reply(answer, reply);
    }
    answer
}

fn commands_of(alloc: Global, words: &mut Words<'_>) -> Result<Vec<Command>, Stop> {
    let mut commands = Vec::new(alloc);
    for _ in 0..words.left.len() {
        if words.left.is_empty() {
            break;
        }
        let word = words.text()?;
        commands.push(command_of(alloc, word, words)?)?;
    }
    Ok(commands)
}

// Adds the staged files, those of HEAD, the fixes, and each commit with its files.
fn with_repository(answer: AnswerBytes, host: &Played) -> Result<AnswerBytes, Stop> {
    let answer = with_tree(answer, "staged", &host.staged()?);
    let answer = with_tree(answer, "head", &host.head()?);
    let answer = with_changes(answer, "fix", host.fixes()?.as_slice());
    with_commits(answer, host)
}

fn with_commits(answer: AnswerBytes, host: &Played) -> Result<AnswerBytes, Stop> {
    let mut answer = answer;
    for entry in host.log()?.as_slice() {
        answer = answer.text("commit ").shown(entry.number);
        answer = with_length(answer, entry.message.as_slice());
        answer = with_committed(answer, &host.tree_of(entry.number)?);
    }
    with_no_commits(answer, host)
}

// Shows that there is no commit with the number 0, and none after the last one.
fn with_no_commits(answer: AnswerBytes, host: &Played) -> Result<AnswerBytes, Stop> {
    let last = host.store().count_commits();
    let answer = with_committed(answer, &host.tree_of(0)?);
    Ok(with_committed(answer, &host.tree_of(last.saturating_add(1))?))
}

fn with_committed(answer: AnswerBytes, tree: &Option<Tree>) -> AnswerBytes {
    match tree {
        Some(tree) => with_tree(answer, "committed", tree),
        None => answer.text("no files\n"),
    }
}

fn with_tree(answer: AnswerBytes, list: &str, tree: &Tree) -> AnswerBytes {
    let mut answer = answer;
    for index in 0..tree.len() {
        let file = tree.entry(index);
        let (mode, bytes) = (file.entry.mode, file.entry.bytes.as_slice());
        answer = with_file(answer, list, mode, file.path.as_str(), bytes);
    }
    answer
}
