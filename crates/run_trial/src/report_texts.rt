//! What a report says of hooks that ended in each possible way.

use child_port::Fault;
use hook_base::{Bytes, Items, Text};
use report_text::{Ending, HookResult, LineFault, MOST_NAME_BYTES, columns, hook_text};
use std::alloc::Global;
use trial_rows::{AnswerBytes, Stop, number_of, text_of, texts_of};
use unicode_width::UnicodeWidthStr;

/// `hook_text COLUMNS NAME VERBOSE ENDING..`: the text of a hook with the id `t`, whose name must fit the
/// columns. An ending is `asked`, `no files` or `ran STATUS MODIFIED OUTPUT FAULT..`. VERBOSE is `verbose` or
/// empty, and MODIFIED is `modified` or empty.
pub(crate) fn of_hook(alloc: Global, arguments: &[Vec<u8>]) -> Result<AnswerBytes, Stop> {
    let [columns, name, verbose, ending @ ..] = arguments else {
        return Err(Stop::BadLine);
    };
    let name = text_of(name.as_slice())?;
    let verbose = says("verbose", verbose.as_slice())?;
    let hook = hook_of(alloc, name, verbose, ending_of(alloc, ending)?)?;
    fitting(alloc, number_of(columns.as_slice())?, hook)
}

fn hook_of(alloc: Global, name: &str, verbose: bool, ending: Ending) -> Result<HookResult, Stop> {
    Ok(HookResult {
        name: Text::copy_of(alloc, name)?,
        id: Text::copy_of(alloc, "t")?,
        verbose,
        ending,
    })
}

fn fitting(alloc: Global, columns: u32, hook: HookResult) -> Result<AnswerBytes, Stop> {
    let columns = columns as usize;
    if columns < 30 || columns - 30 < hook.name.as_str().width() {
        return Err(Stop::BadLine);
    }
    let text = hook_text(alloc, columns, &hook)?;
    Ok(AnswerBytes::new(alloc).bytes(text.as_slice()))
}

fn ending_of(alloc: Global, arguments: &[Vec<u8>]) -> Result<Ending, Stop> {
    let [word, details @ ..] = arguments else {
        return Err(Stop::BadLine);
    };
    match (text_of(word.as_slice())?, details) {
        ("asked", []) => Ok(Ending::SkippedAsked),
        ("no files", []) => Ok(Ending::SkippedNoFiles),
        ("ran", _) => ran(alloc, details),
        _ => Err(Stop::BadLine),
    }
}

fn ran(alloc: Global, details: &[Vec<u8>]) -> Result<Ending, Stop> {
    let [status, modified, output, faults @ ..] = details else {
        return Err(Stop::BadLine);
    };
    Ok(Ending::Ran {
        status: status_of(status.as_slice())?,
        faults: faults_of(alloc, faults)?,
        modified: says("modified", modified.as_slice())?,
        output: Bytes::from(output.as_slice().to_vec(alloc)?),
    })
}

// Whether an argument is the word. An empty argument isn't, and any other is refused.
fn says(word: &str, argument: &[u8]) -> Result<bool, Stop> {
    match text_of(argument)? {
        "" => Ok(false),
        text if text == word => Ok(true),
        _ => Err(Stop::BadLine),
    }
}

fn status_of(argument: &[u8]) -> Result<u8, Stop> {
    u8::try_from(number_of(argument)?).map_err(|_| Stop::BadLine)
}

fn faults_of(alloc: Global, arguments: &[Vec<u8>]) -> Result<Items<LineFault>, Stop> {
    let mut faults = Vec::new(alloc);
    for argument in arguments {
        faults.push(fault_of(text_of(argument.as_slice())?).ok_or(Stop::BadLine)?)?;
    }
    Ok(Items::from(faults))
}

fn fault_of(word: &str) -> Option<LineFault> {
    match word {
        "not started" => Some(LineFault::Child(Fault::NotStarted)),
        "wait failed" => Some(LineFault::Child(Fault::WaitFailed)),
        "signal" => Some(LineFault::Child(Fault::Signal)),
        "output too long" => Some(LineFault::Child(Fault::OutputTooLong)),
        "scratch failed" => Some(LineFault::Child(Fault::ScratchFailed)),
        "misfit" => Some(LineFault::Misfit),
        _ => None,
    }
}

/// `columns NAME..`: the columns of a report on hooks with these names.
pub(crate) fn for_names(alloc: Global, arguments: &[Vec<u8>]) -> Result<AnswerBytes, Stop> {
    let names = texts_of(alloc, arguments)?;
    if names.iter().any(|name| MOST_NAME_BYTES < name.len()) {
        return Err(Stop::BadLine);
    }
    Ok(AnswerBytes::new(alloc).shown(columns(names.as_slice())))
}
