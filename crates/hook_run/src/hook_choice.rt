//! Which hooks a run goes through, and which of them are to be skipped.

ghost use Rattle.std.specs.Prelude.{◌≡◌, IfOk, map};
ghost use Rattle.std.specs.List.{list_any};
ghost use Rattle.hook_run.specs.Asks.{hooks_of_run, is_asked_for, is_in_run, is_named, is_skipped, names_no_hook};

use crate::RunAsk;
use hook_base::{OutOfMemory, Text};
use hook_config::{Config, Hook};
use std::alloc::Global;

/// Whether the run asks for a name that no hook of the stage has.
pub fn names_no_hook(config: &Config, ask: &RunAsk) -> bool
    ensures { result ≡ names_no_hook config.now ask.now }
{
    ask.only.is_some() && !has_hook(config, ask)
}

// Whether any hook is in the run.
fn has_hook(config: &Config, ask: &RunAsk) -> bool
    ensures { result ≡ list_any (is_in_run ask.now) config.now.hooks }
{
    config
        .hooks
        .as_slice()
        .iter()
        .any(|hook| is_in_run(ask, hook))
}

/// The hooks that a run goes through, in the order of the configuration.
pub fn hooks_of_run<'a>(
    alloc: Global,
    config: &'a Config,
    ask: &RunAsk,
) -> Result<Vec<&'a Hook>, OutOfMemory>
    ensures { IfOk result (λ chosen. map (λ hook. hook.now) chosen.items ≡ hooks_of_run config.now ask.now) }
{
    let hooks = config.hooks.as_slice();
    let mut chosen = Vec::new(alloc);
    'hooks: for hook in hooks {
        if is_in_run(ask, hook) {
            chosen.push(hook)?;
        }
    }
    Ok(chosen)
}

/// Whether one of the names that are to be skipped is the hook's (`pre_commit.commands.run._get_skips`).
pub fn is_skipped(ask: &RunAsk, hook: &Hook) -> bool
    ensures { result ≡ is_skipped ask.now.skip hook.now }
{
    ask.skip.as_slice().iter().any(|name| is_named(name, hook))
}

fn is_in_run(ask: &RunAsk, hook: &Hook) -> bool
    ensures { result ≡ is_in_run ask.now hook.now }
{
    hook.stages.has(ask.stage) && is_asked_for(ask, hook)
}

fn is_asked_for(ask: &RunAsk, hook: &Hook) -> bool
    ensures { result ≡ is_asked_for ask.now.only hook.now }
{
    match &ask.only {
        None => true,
        Some(name) => is_named(name, hook),
    }
}

// Whether the name is the hook's id or alias. An empty alias, as by default, is none.
fn is_named(name: &Text, hook: &Hook) -> bool
    ensures { result ≡ is_named name.now hook.now }
{
    let name = name.as_str();
    let alias = hook.alias.as_str();
    name == hook.id.as_str() || (!alias.is_empty() && name == alias)
}
