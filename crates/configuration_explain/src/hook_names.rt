//! What a hook is called, and a repository.

use crate::escaped_texts::{push_number, push_quoted};
use std::alloc::{AllocError, Global};

/// Puts the hook's number and its id, if it has one.
pub(crate) fn push_hook(
    alloc: Global,
    text: &mut String,
    number: usize,
    id: &str,
) -> Result<(), AllocError> {
    text.push_str("hook ")?;
    push_number(alloc, text, number)?;
    if id.is_empty() {
        return Ok(());
    }
    text.push_str(" (")?;
    push_quoted(text, id)?;
    text.push(')')
}

/// Puts the repository's number.
pub(crate) fn push_repository(
    alloc: Global,
    text: &mut String,
    number: usize,
) -> Result<(), AllocError> {
    text.push_str("repository ")?;
    push_number(alloc, text, number)
}
