//! The messages of commits.

use commit_flow::{begun_message, cleaned_message};
use std::alloc::Global;
use trial_rows::{AnswerBytes, Stop, only};

/// `begun_message MESSAGE`: the message with which the hooks of a commit begin.
pub(crate) fn begun(alloc: Global, arguments: &[Vec<u8>]) -> Result<AnswerBytes, Stop> {
    let message = begun_message(alloc, only(arguments)?)?;
    Ok(AnswerBytes::new(alloc).bytes(message.as_slice()))
}

/// `cleaned_message MESSAGE`: the message that is left once its hooks are done.
pub(crate) fn cleaned(alloc: Global, arguments: &[Vec<u8>]) -> Result<AnswerBytes, Stop> {
    let message = cleaned_message(alloc, only(arguments)?)?;
    Ok(AnswerBytes::new(alloc).bytes(message.as_slice()))
}
