//! What `check` prints.
//!
//! The contracts cite `specs/CheckText.antt`.

ghost use Rattle.std.specs.Prelude.{◌≡◌, ◌++◌, IfOk, OnOk};
ghost use Rattle.std.specs.List.{flat_map};
ghost use Rattle.configuration_run.specs.CheckText.{check_text, hooks_line, ignored_line};

use hook_base::{Bytes, OutOfMemory, Text};
use hook_config::Config;
use report_text::{push, push_line};
use std::alloc::Global;

/// What `check` says about a configuration, a line each: how many hooks it has, and each key that no table
/// knows, in the order of the text.
pub fn check_text(alloc: Global, config: &Config) -> Result<Bytes, OutOfMemory>
    ensures { IfOk result (λ text. text ≡ check_text config.now) }
{
    let mut text = Vec::new(alloc);
    push_hooks_line(alloc, &mut text, config.hooks.len())?;
    push_ignored_lines(&mut text, config.unknown.as_slice())?;
    Ok(Bytes::from(text))
}

fn push_hooks_line(alloc: Global, text: &mut Vec<u8>, count: usize) -> Result<(), OutOfMemory>
    ensures { OnOk result (text.new.items ≡ text.old.items ++ hooks_line count) }
{
    push(text, b"hooks: ")?;
    push_line(text, count.to_string(alloc)?.as_bytes())
}

fn push_ignored_lines(text: &mut Vec<u8>, keys: &[Text]) -> Result<(), OutOfMemory>
    ensures { OnOk result (text.new.items ≡ text.old.items ++ flat_map ignored_line keys.now) }
{
    for key in keys {
        push_ignored_line(text, key.as_str())?;
    }
    Ok(())
}

fn push_ignored_line(text: &mut Vec<u8>, key: &str) -> Result<(), OutOfMemory>
    ensures { OnOk result (text.new.items ≡ text.old.items ++ ignored_line key.now) }
{
    push(text, b"ignored key: ")?;
    push_line(text, key.as_bytes())
}
