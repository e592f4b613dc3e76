//! What is said about a configuration that is taken. (docs/REFERENCE.md, "What `explain` says".)

use crate::escaped_texts::{push_number, push_shown};
use crate::hooks_never_run::push_never;
use crate::ignored::push_ignored;
use crate::marks::marks_in;
use crate::refused::NamedBytes;
use crate::selected::push_selected;
use crate::stages::{push_each_time, push_stages};
use crate::warnings::push_warnings;
use hook_base::{OutOfMemory, Text};
use hook_config::ConfigWithNode;
use std::alloc::{AllocError, Global};

/// Puts how many hooks there are, those of each stage, which files each gets, and the keys that are ignored.
/// Then come the hooks that never run or run at every stage, and what may be a mistake.
pub(crate) fn push_taken(
    alloc: Global,
    text: &mut String,
    file: NamedBytes<'_>,
    read: &ConfigWithNode,
    paths: &[Text],
) -> Result<(), OutOfMemory> {
    let hooks = read.config.hooks.as_slice();
    push_head(alloc, text, file.name, hooks.len())?;
    push_stages(alloc, text, hooks)?;
    push_selected(alloc, text, read)?;
    push_ignored_of(alloc, text, file.bytes, read)?;
    push_never(alloc, text, &read.config, paths)?;
    push_each_time(alloc, text, hooks)?;
    push_warnings(alloc, text, read, paths)?;
    Ok(())
}

fn push_head(alloc: Global, text: &mut String, name: &str, hooks: usize) -> Result<(), AllocError> {
    push_shown(text, name)?;
    text.push_str(": taken, hooks: ")?;
    push_number(alloc, text, hooks)?;
    text.push('\n')
}

fn push_ignored_of(
    alloc: Global,
    text: &mut String,
    bytes: &[u8],
    read: &ConfigWithNode,
) -> Result<(), AllocError> {
    if read.config.unknown.is_empty() {
        return Ok(());
    }
    let marks = marks_in(alloc, bytes)?;
    push_ignored(alloc, text, &read.node, marks.as_slice())
}
