//! Plays the commands of a host over the store.

use crate::answer::Answer;
use crate::answers::read_limit;
use crate::children::children_of;
use crate::edits::{edit_all, read_asked_mode};
use crate::stop::Stop;
use crate::text::read_text;
use commit_flow::{
    AskStage, CommitEnding, Host, HostAsk, HostRefusal, MessageAsk, MessageRun, MessageStage,
    PostCommit, StagedRun, Which,
};
use hook_base::{Items, Text};
use hook_config::Stage;
use run_options::RunOptions;
use sqlite::Alter;
use std::alloc::Global;
use std::fmt::Display;

/// The commands that are a whole line.
pub(crate) const COMMANDS: &[&str] = &["accept-fixes", "forget-answers", "answer-limit"];

/// The commands that are followed by arguments.
pub(crate) const COMMANDS_OF: &[&str] = &[
    "add",
    "remove",
    "edit-all",
    "limit-answers",
    "run-hooks",
    "prepare-message",
    "check-message",
    "commit-verified",
    "commit-unverified",
];

/// Plays a command, with children that answer from these rows. A refusal is answered by its number, its name,
/// and the number of the inner fault or `none`.
pub(crate) fn play_command<S: Alter>(
    host: &mut Host<S>,
    rows: &[Text],
    word: &str,
    rest: &str,
    answer: &mut Answer,
) -> Result<(), Stop> {
    match word {
        "add" => add(host, rest, answer),
        "remove" => {
            done(host.remove(answer.alloc(), rest), answer);
            Ok(())
        }
        "edit-all" => edit_all(host, rest, answer),
        "accept-fixes" => {
            numbered(host.accept(), answer);
            Ok(())
        }
        "run-hooks" => run(host, rows, rest, answer),
        "prepare-message" => message(host, rows, rest, MessageStage::PrepareCommitMsg, answer),
        "check-message" => message(host, rows, rest, MessageStage::CommitMsg, answer),
        "commit-verified" => commit(host, rows, rest, false, answer),
        "commit-unverified" => commit(host, rows, rest, true, answer),
        _ => play_answers(host, word, rest, answer),
    }
}

// The commands that only read or change the cached results.
fn play_answers<S: Alter>(
    host: &mut Host<S>,
    word: &str,
    rest: &str,
    answer: &mut Answer,
) -> Result<(), Stop> {
    match word {
        "forget-answers" => numbered(host.forget(), answer),
        "answer-limit" => {
            answer.begin("ok");
            answer.show(host.limit())
        }
        "limit-answers" => {
            let limit = read_limit(rest)?;
            numbered(host.set_limit(limit), answer)
        }
        _ => return Err(Stop::BadLine),
    }
    Ok(())
}

// Adds a file with a mode, or without one if its word is `-`.
fn add<S: Alter>(host: &mut Host<S>, rest: &str, answer: &mut Answer) -> Result<(), Stop> {
    let (mode, rest) = rest.split_once(' ').ok_or(Stop::BadLine)?;
    let (path, text) = rest.split_once(' ').ok_or(Stop::BadLine)?;
    let mode = read_asked_mode(mode)?;
    let bytes = read_text(answer.alloc(), text)?;
    let added = host.add(answer.alloc(), path, bytes.as_slice(), mode);
    done(added, answer);
    Ok(())
}

fn done(given: Result<(), HostRefusal>, answer: &mut Answer) {
    match given {
        Ok(()) => answer.begin("ok"),
        Err(refusal) => answer.refused_command(&refusal),
    }
}

fn numbered(given: Result<impl Display + Drop, HostRefusal>, answer: &mut Answer) {
    match given {
        Ok(number) => {
            answer.begin("ok");
            answer.show(number)
        }
        Err(refusal) => answer.refused_command(&refusal),
    }
}

// Runs the hooks of `pre-commit` on the files that a word names.
fn run<S: Alter>(
    host: &mut Host<S>,
    rows: &[Text],
    which: &str,
    answer: &mut Answer,
) -> Result<(), Stop> {
    let ask = read_ask(answer.alloc(), which)?;
    let mut children = children_of(answer.alloc(), rows)?;
    match host.run(answer.alloc(), &mut children, &ask) {
        Ok(ran) => add_run(&ran, answer),
        Err(refusal) => answer.refused_command(&refusal),
    }
    Ok(())
}

fn read_ask(alloc: Global, which: &str) -> Result<HostAsk, Stop> {
    let which = match which {
        "changed" => Which::Changed,
        "all" => Which::All,
        _ => return Err(Stop::BadLine),
    };
    Ok(HostAsk {
        which,
        only: None,
        stage: AskStage::PreCommit,
        skip: Items::new(alloc),
        fresh: false,
        options: RunOptions {
            cautious: false,
            verbose: false,
        },
    })
}

// Adds whether no hook failed, and the fixes.
fn add_run(ran: &StagedRun, answer: &mut Answer) {
    answer.begin("ok");
    answer.add(if ran.passed { b"passed" } else { b"failed" });
    answer.add_fixes(ran.changes.as_slice())
}

// Runs the hooks of a stage about a message.
fn message<S: Alter>(
    host: &mut Host<S>,
    rows: &[Text],
    text: &str,
    stage: MessageStage,
    answer: &mut Answer,
) -> Result<(), Stop> {
    let message = read_text(answer.alloc(), text)?;
    let mut children = children_of(answer.alloc(), rows)?;
    let ask = MessageAsk {
        stage,
        skip: Items::new(answer.alloc()),
        fresh: false,
        options: RunOptions {
            cautious: false,
            verbose: false,
        },
    };
    match host.message(answer.alloc(), &mut children, &ask, message.as_slice()) {
        Ok(ran) => add_message(&ran, answer),
        Err(refusal) => answer.refused_command(&refusal),
    }
    Ok(())
}

// Adds whether no hook failed, and the message that they leave.
fn add_message(ran: &MessageRun, answer: &mut Answer) {
    answer.begin("ok");
    answer.add(if ran.passed { b"passed" } else { b"failed" });
    answer.add(ran.message.as_slice())
}

fn commit<S: Alter>(
    host: &mut Host<S>,
    rows: &[Text],
    text: &str,
    no_verify: bool,
    answer: &mut Answer,
) -> Result<(), Stop> {
    let message = read_text(answer.alloc(), text)?;
    let mut children = children_of(answer.alloc(), rows)?;
    match host.commit(
        answer.alloc(),
        &mut children,
        message.as_slice(),
        no_verify,
        &[],
    ) {
        Ok(ending) => add_ending(&ending, answer),
        Err(refusal) => answer.refused_command(&refusal),
    }
    Ok(())
}

// Adds the commit's number and whether the post-commit hooks were reported or stopped, or the stage in which
// a hook failed.
fn add_ending(ending: &CommitEnding, answer: &mut Answer) {
    answer.begin("ok");
    match ending {
        CommitEnding::Committed { number, post, .. } => {
            answer.add(b"committed");
            answer.show(*number);
            answer.add(word_of_post(post).as_bytes())
        }
        CommitEnding::HooksFailed { stage, .. } => {
            answer.add(b"failed");
            answer.add(word_of_stage(*stage).as_bytes())
        }
    }
}

fn word_of_post(post: &PostCommit) -> &'static str {
    match post {
        PostCommit::Told(_) => "told",
        PostCommit::Stopped(_) => "stopped",
    }
}

// The word for a stage before a commit.
fn word_of_stage(stage: Stage) -> &'static str {
    match stage {
        Stage::PreCommit => "pre-commit",
        Stage::PrepareCommitMsg => "prepare-commit-msg",
        Stage::CommitMsg => "commit-msg",
        _ => "another stage",
    }
}
