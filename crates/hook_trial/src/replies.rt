//! What the rows show of a host's replies: a line, and then the reports, each after a line with its length.

use commit_flow::{HostRefusal, PostCommit, Reply, StagingStop};
use hook_base::{Bytes, Change, Content, Items, Text};
use std::fmt::Display;
use trial_rows::{AnswerBytes, verdict_of};

pub(crate) fn with_reply(answer: AnswerBytes, reply: &Reply) -> AnswerBytes {
    match reply {
        Reply::Added => answer.text("added\n"),
        Reply::Removed => answer.text("removed\n"),
        Reply::Staged => answer.text("staged\n"),
        Reply::Accepted(number) => with_number(answer, "accepted ", *number),
        Reply::Ran {
            passed,
            report,
            changes,
            unsteady,
        } => with_run(answer, *passed, report, changes.as_slice(), unsteady),
        Reply::MessageRan {
            passed,
            report,
            message,
        } => with_message_run(answer, *passed, report, message),
        Reply::Committed {
            number,
            reports,
            post,
        } => {
            let answer = with_number(answer, "committed ", *number);
            with_post(with_reports(answer, reports), post)
        }
        Reply::HooksFailed { stage, reports } => {
            let answer = answer.text("failed at ").debug(*stage).text("\n");
            with_reports(answer, reports)
        }
        Reply::Forgot(number) => with_number(answer, "forgot ", *number),
        Reply::Limited(number) => with_number(answer, "limited ", *number),
        Reply::EditRefused(stop) => with_stop(answer, stop),
        Reply::Refused(refusal) => with_refusal(answer, refusal),
    }
}

fn with_number(answer: AnswerBytes, word: &str, number: impl Display + Drop) -> AnswerBytes {
    answer.text(word).shown(number).text("\n")
}

fn with_run(
    answer: AnswerBytes,
    passed: bool,
    report: &Bytes,
    changes: &[Change],
    unsteady: &Items<Text>,
) -> AnswerBytes {
    let answer = answer.texts(&["ran, ", verdict_of(passed), ", "]);
    let answer = answer.shown(unsteady.len()).text(" unsteady\n");
    with_report(with_changes(answer, "change", changes), "report", report)
}

// Adds the message that hooks leave, and their report.
fn with_message_run(
    answer: AnswerBytes,
    passed: bool,
    report: &Bytes,
    message: &Content,
) -> AnswerBytes {
    let answer = answer.texts(&["message ran, ", verdict_of(passed), "\n"]);
    let answer = with_length(answer.text("message"), message.as_slice());
    with_report(answer, "report", report)
}

/// Adds the path of each change and its bytes, or that the file is gone.
pub(crate) fn with_changes(answer: AnswerBytes, list: &str, changes: &[Change]) -> AnswerBytes {
    let mut answer = answer;
    for change in changes {
        answer = with_change(answer.texts(&[list, " ", change.path.as_str()]), change);
    }
    answer
}

fn with_change(answer: AnswerBytes, change: &Change) -> AnswerBytes {
    match &change.now {
        Some(bytes) => with_length(answer, bytes.as_slice()),
        None => answer.text(" gone\n"),
    }
}

/// Adds the length of the bytes to a line, and then the bytes.
pub(crate) fn with_length(answer: AnswerBytes, bytes: &[u8]) -> AnswerBytes {
    let answer = answer.text(" ").shown(bytes.len());
    answer.text("\n").bytes(bytes)
}

fn with_reports(answer: AnswerBytes, reports: &Items<Bytes>) -> AnswerBytes {
    let mut answer = answer;
    for report in reports.as_slice() {
        answer = with_report(answer, "report", report);
    }
    answer
}

fn with_report(answer: AnswerBytes, name: &str, report: &Bytes) -> AnswerBytes {
    with_length(answer.text(name), report.as_slice())
}

fn with_post(answer: AnswerBytes, post: &PostCommit) -> AnswerBytes {
    match post {
        PostCommit::Told(report) => with_report(answer, "post", report),
        PostCommit::Stopped(refusal) => {
            let answer = answer.text("post stopped ").shown(refusal.number());
            answer.texts(&[" ", refusal.name(), "\n"])
        }
    }
}

// Why changes are refused, and the index of the one that is.
fn with_stop(answer: AnswerBytes, stop: &StagingStop) -> AnswerBytes {
    let answer = with_refusal(answer, &stop.refusal);
    match stop.at {
        Some(at) => with_number(answer, "at ", at),
        None => answer,
    }
}

pub(crate) fn with_refusal(answer: AnswerBytes, refusal: &HostRefusal) -> AnswerBytes {
    let answer = answer.text("refused ").shown(refusal.number());
    let answer = answer.texts(&[" ", refusal.name()]);
    match refusal.inner_number() {
        Some(inner) => answer.text(" ").shown(inner).text("\n"),
        None => answer.text("\n"),
    }
}
