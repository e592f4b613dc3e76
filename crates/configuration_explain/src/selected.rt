//! Which files each hook gets, and which key its stages come from.

use crate::escaped_texts::{push_all, push_quoted};
use crate::hook_names::push_hook;
use crate::tables::{hook_at, rows_in, value_at};
use hook_base::Text;
use hook_config::{ConfigWithNode, Hook};
use std::alloc::{AllocError, Global};
use yaml_profile::Node;

// The pattern that is found in every path.
const EVERY_PATH: &str = "";

/// The pattern that is found in no path.
pub(crate) const NO_PATH: &str = "^$";

const EVERY_FILE: &str = "file";

/// Puts a line for each hook: its patterns and tags, if it has any, and which key its stages come from.
/// `AllocError` if memory is refused.
pub(crate) fn push_selected(
    alloc: Global,
    text: &mut String,
    read: &ConfigWithNode,
) -> Result<(), AllocError> {
    let hooks = read.config.hooks.as_slice();
    if hooks.is_empty() {
        return Ok(());
    }
    text.push_str("files and stages:\n")?;
    for (i, hook) in hooks.iter().enumerate() {
        push_line(alloc, text, &read.node, i.saturating_add(1), hook)?;
    }
    Ok(())
}

fn push_line(
    alloc: Global,
    text: &mut String,
    top: &Node,
    number: usize,
    hook: &Hook,
) -> Result<(), AllocError> {
    text.push_str("  ")?;
    push_hook(alloc, text, number, hook.id.as_str())?;
    text.push(':')?;
    let before = text.len();
    push_patterns(text, hook)?;
    push_tags(text, hook)?;
    if text.len() == before {
        text.push_str(" every file;")?;
    }
    push_all(text, &[source_of_stages(top, number), "\n"])
}

fn push_patterns(text: &mut String, hook: &Hook) -> Result<(), AllocError> {
    push_part(
        text,
        " files ",
        hook.files.as_pattern().as_str(),
        EVERY_PATH,
    )?;
    push_part(
        text,
        " exclude ",
        hook.exclude.as_pattern().as_str(),
        NO_PATH,
    )
}

// A part, unless it is what a hook has by default.
fn push_part(text: &mut String, name: &str, value: &str, default: &str) -> Result<(), AllocError> {
    if value == default {
        return Ok(());
    }
    text.push_str(name)?;
    push_quoted(text, value)?;
    text.push(';')
}

fn push_tags(text: &mut String, hook: &Hook) -> Result<(), AllocError> {
    match hook.types.as_slice() {
        [tag] => push_part(text, " types ", tag.as_str(), EVERY_FILE)?,
        tags => push_list(text, " types", tags)?,
    }
    push_list(text, " types_or", hook.types_or.as_slice())?;
    push_list(text, " exclude_types", hook.exclude_types.as_slice())
}

fn push_list(text: &mut String, name: &str, tags: &[Text]) -> Result<(), AllocError> {
    if tags.is_empty() {
        return Ok(());
    }
    text.push_str(name)?;
    for tag in tags {
        text.push(' ')?;
        push_quoted(text, tag.as_str())?;
    }
    text.push(';')
}

// Which key the stages of a hook come from.
fn source_of_stages(top: &Node, number: usize) -> &'static str {
    match hook_at(top, number) {
        Some(hook) if value_at(rows_in(hook.node), "stages").is_some() => " stages by `stages`",
        _ if value_at(rows_in(top), "default_stages").is_some() => { " stages by `default_stages`" }
        _ => " all stages, since it names none",
    }
}
