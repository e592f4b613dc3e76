//! The options of a run.

ghost use Rattle.std.specs.Prelude.{◌≡◌, IfOk, map};
ghost use Rattle.hook_config.specs.Limits.{IsShort};
ghost use Rattle.run_options.specs.Options.{hook_with_options, with_options};

use crate::cautious::new_reads;
use crate::split_files::new_most_names;
use hook_base::{Items, OutOfMemory};
use hook_config::{Config, Hook, SharedPattern};
use std::alloc::Global;

/// How a run is made of a configuration.
#[derive(Clone, Copy, Debug, PartialEq, Eq)]
pub struct RunOptions {
    /// Whether the command of a hook that doesn't say what it reads is taken to read every file, unless it is
    /// known to read less, and a known tool's files are split if it looks at each by itself.
    pub cautious: bool,
    /// Whether every hook's details are reported even if it passed.
    pub verbose: bool,
}

/// The configuration that is run with these options. It differs from the given one in which files the
/// commands of hooks see, how many names each gets, and which hooks are verbose. `OutOfMemory` if memory is refused.
pub fn with_options(
    alloc: Global,
    config: Config,
    options: RunOptions,
) -> Result<Config, OutOfMemory>
    ensures { IfOk result (λ made. made ≡ with_options options config) }
{
    let Config {
        hooks,
        fail_fast,
        files,
        exclude,
        unknown,
    } = config;
    Ok(Config {
        hooks: hooks_with(alloc, hooks.into_vec(), options)?,
        fail_fast,
        files,
        exclude,
        unknown,
    })
}

fn hooks_with(
    alloc: Global,
    hooks: Vec<Hook>,
    options: RunOptions,
) -> Result<Items<Hook>, OutOfMemory>
    ensures { IfOk result (λ made. made ≡ map (hook_with_options options) hooks.items) }
{
    let mut made = Vec::new(alloc);
    'hooks: for hook in hooks {
        made.push(hook_with_options(alloc, hook, options)?)?;
    }
    Ok(Items::from(made))
}

fn hook_with_options(alloc: Global, hook: Hook, options: RunOptions) -> Result<Hook, OutOfMemory>
    ensures { IfOk result (λ made. made ≡ hook_with_options options hook) }
{
    let mut hook = hook;
    hook.verbose = hook.verbose || options.verbose;
    if options.cautious {
        hook.x_at_most = new_most_names(&hook);
        if let Some(reads) = new_reads(&hook) {
            hook.x_reads = pattern_of(alloc, reads)?;
        }
    }
    Ok(hook)
}

// The pattern of a text of this crate. It fails only for want of memory, since `regex` takes each of these
// texts.
fn pattern_of(alloc: Global, text: &str) -> Result<SharedPattern, OutOfMemory>
    requires { IsShort text.now }
    ensures { IfOk result (λ pattern. pattern ≡ text.now) }
{
    match SharedPattern::build(alloc, text) {
        Ok(pattern) => Ok(pattern),
        Err(_) => Err(OutOfMemory),
    }
}
