//! What the rows show of children and of the results that a host has cached.

use crate::host_commands::Played;
use crate::replies::with_refusal;
use crate::turn_children::TurnChildren;
use child_port::Children;
use trial_rows::AnswerBytes;

/// Adds how many children were asked for, how many of them failed, and how many results are cached.
pub(crate) fn with_counts(
    answer: AnswerBytes,
    children: &impl Children,
    host: &Played,
) -> AnswerBytes {
    let answer = answer.shown(children.calls()).text(" calls, ");
    let answer = answer.shown(children.faults()).text(" faults, ");
    answer.shown(host.remembered()).text(" remembered\n")
}

/// Adds a line with the numbers of the rows from which children answered since the last such line.
pub(crate) fn with_rows(answer: AnswerBytes, children: &mut TurnChildren) -> AnswerBytes {
    let mut answer = answer.text("rows");
    for row in children.take_rows().as_slice() {
        answer = with_row(answer, *row);
    }
    answer.text("\n")
}

fn with_row(answer: AnswerBytes, row: Option<usize>) -> AnswerBytes {
    match row {
        Some(row) => answer.text(" ").shown(row),
        None => answer.text(" -"),
    }
}

/// Removes the host's cached results, and adds how many there were.
pub(crate) fn with_forgotten(answer: AnswerBytes, host: &mut Played) -> AnswerBytes {
    match host.forget() {
        Ok(number) => answer.shown(number).text(" forgotten\n"),
        Err(refusal) => with_refusal(answer, &refusal),
    }
}
