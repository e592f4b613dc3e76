//! What `check` prints, and the limit of what it reads.

use hook_cli::{MOST_CONFIGURATION_BYTES, check_text};
use hook_config::{Config, ConfigFault, read_config};
use std::alloc::Global;
use trial_rows::{AnswerBytes, Stop, only};

/// `check_text TEXT`: what is printed of the configuration, or its refusal.
pub(crate) fn of_text(alloc: Global, arguments: &[Vec<u8>]) -> Result<AnswerBytes, Stop> {
    match read_config(alloc, only(arguments)?) {
        Ok(config) => printed(alloc, &config),
        Err(fault) => Ok(refusal(alloc, fault)),
    }
}

fn printed(alloc: Global, config: &Config) -> Result<AnswerBytes, Stop> {
    let text = check_text(alloc, config)?;
    Ok(AnswerBytes::new(alloc).bytes(text.as_slice()))
}

// The number, name and place of a refusal.
fn refusal(alloc: Global, fault: ConfigFault) -> AnswerBytes {
    let answer = AnswerBytes::new(alloc).shown(fault.number());
    answer.texts(&[" ", fault.name(), " at "]).shown(fault.at)
}

/// `most_configuration_bytes`: the most bytes that a configuration may have.
pub(crate) fn most_bytes(alloc: Global, arguments: &[Vec<u8>]) -> Result<AnswerBytes, Stop> {
    match arguments {
        [] => Ok(AnswerBytes::new(alloc).shown(MOST_CONFIGURATION_BYTES)),
        _ => Err(Stop::BadLine),
    }
}
