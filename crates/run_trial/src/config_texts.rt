//! The texts of a configuration.

use hook_config::ConfigText;
use std::alloc::Global;
use trial_rows::{AnswerBytes, Stop, only, text_of};

/// `config_text TEXT`: a copy of the text that is held, after `held`, or `too long`.
pub(crate) fn held(alloc: Global, arguments: &[Vec<u8>]) -> Result<AnswerBytes, Stop> {
    let text = String::from_str(alloc, text_of(only(arguments)?)?)?;
    match ConfigText::new(text) {
        Some(held) => Ok(shown(alloc, &held.clone()?)),
        None => Ok(AnswerBytes::new(alloc).text("too long")),
    }
}

/// `empty_config_text`: the empty text, after `held`.
pub(crate) fn empty(alloc: Global, arguments: &[Vec<u8>]) -> Result<AnswerBytes, Stop> {
    match arguments {
        [] => Ok(shown(alloc, &ConfigText::empty(alloc))),
        _ => Err(Stop::BadLine),
    }
}

fn shown(alloc: Global, text: &ConfigText) -> AnswerBytes {
    AnswerBytes::new(alloc).texts(&["held ", text.as_str()])
}
