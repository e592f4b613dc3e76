//! The text of an outcome.

use child_port::{Answer, Fault, Outcome};
use hook_base::{Change, OutOfMemory};
use std::alloc::{AllocError, Global};
use trial_rows::Stop;

/// An outcome and the counts after it: `calls=N faults=N`, a blank, and then `memory`, a fault's name, or a
/// status with the output and each change. Blanks separate these, and bytes are in hexadecimal digits after a
/// mark.
pub(crate) fn outcome_text(
    alloc: Global,
    outcome: Result<Outcome, OutOfMemory>,
    calls: u64,
    faults: u64,
) -> Result<Vec<u8>, Stop> {
    let mut text = format!(in alloc; "calls={calls} faults={faults} ")?;
    match outcome {
        Ok(Outcome::Done(answer)) => push_answer(alloc, &mut text, &answer)?,
        Ok(Outcome::Failed(fault)) => text.push_str(fault_name(fault))?,
        Err(_) => text.push_str("memory")?,
    }
    let mut bytes = Vec::new(alloc);
    bytes.extend_from_slice(text.as_str().as_bytes())?;
    Ok(bytes)
}

/// The numbers of an outcome: its status, the length of its output, and how many files changed. Nothing if
/// there is no answer.
pub(crate) fn measured_text(
    alloc: Global,
    outcome: Result<Outcome, OutOfMemory>,
) -> Result<Vec<u8>, Stop> {
    let mut bytes = Vec::new(alloc);
    if let Ok(Outcome::Done(answer)) = outcome {
        let status = answer.status;
        let (length, changes) = (answer.output.len(), answer.changes.len());
        let text = format!(in alloc; "{status} {length} {changes}")?;
        bytes.extend_from_slice(text.as_str().as_bytes())?;
    }
    Ok(bytes)
}

fn push_answer(alloc: Global, text: &mut String, answer: &Answer) -> Result<(), AllocError> {
    let status = answer.status;
    text.push_str(format!(in alloc; "{status} =")?.as_str())?;
    text.push_str(hex::encode(alloc, answer.output.as_slice())?.as_str())?;
    for change in answer.changes.as_slice() {
        push_change(alloc, text, change)?;
    }
    Ok(())
}

fn push_change(alloc: Global, text: &mut String, change: &Change) -> Result<(), AllocError> {
    text.push(' ')?;
    text.push_str(hex::encode(alloc, change.path.as_str())?.as_str())?;
    match &change.now {
        Some(bytes) => {
            text.push('=')?;
            text.push_str(hex::encode(alloc, bytes.as_slice())?.as_str())
        }
        None => text.push('-'),
    }
}

fn fault_name(fault: Fault) -> &'static str {
    match fault {
        Fault::NotStarted => "NotStarted",
        Fault::WaitFailed => "WaitFailed",
        Fault::Signal => "Signal",
        Fault::OutputTooLong => "OutputTooLong",
        Fault::ScratchFailed => "ScratchFailed",
    }
}
