//! The refusals of a run.

use hook_cli::TryFault;
use hook_config::{ConfigFault, ConfigKind};
use std::alloc::Global;
use trial_rows::{AnswerBytes, Stop, only, text_of};

/// `try_fault NAME`: the refusal's number and name, and how it is shown.
pub(crate) fn told(alloc: Global, arguments: &[Vec<u8>]) -> Result<AnswerBytes, Stop> {
    let fault = fault_of(text_of(only(arguments)?)?).ok_or(Stop::BadLine)?;
    let answer = AnswerBytes::new(alloc).shown(fault.number());
    Ok(answer.texts(&[" ", fault.name(), ": "]).shown(fault))
}

fn fault_of(word: &str) -> Option<TryFault> {
    match word {
        "read" => Some(TryFault::Read),
        "configuration" => Some(TryFault::Config(ConfigFault {
            kind: ConfigKind::Shape,
            at: 0,
        })),
        "write" => Some(TryFault::Write),
        "out of memory" => Some(TryFault::OutOfMemory),
        "spent" => Some(TryFault::Spent),
        _ => None,
    }
}
