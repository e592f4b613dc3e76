//! The hooks that never run in this folder.

use crate::escaped_texts::push_all;
use crate::hook_names::push_hook;
use crate::patterns::{passes_any, passing};
use hook_base::{OutOfMemory, Text};
use hook_config::{Config, Hook, Stages};
use std::alloc::{AllocError, Global};

// The file that hooks of a commit's message get (git-commit(1), "FILES").
const MESSAGE_PATH: &str = ".git/COMMIT_EDITMSG";

// The paths that the patterns of the whole configuration let through: of the folder's files, and of the
// message.
#[derive(Drop)]
struct StageCandidates<'p, 'm> {
    paths: Vec<&'p str>,
    message: Vec<&'m str>,
}

/// Puts the hooks that never run. They have no stage that a command here runs, or get none of these files at
/// any of their stages and don't run without files.
pub(crate) fn push_never(
    alloc: Global,
    text: &mut String,
    config: &Config,
    paths: &[Text],
) -> Result<(), OutOfMemory> {
    let mut message = Vec::new(alloc);
    message.push(Text::copy_of(alloc, MESSAGE_PATH)?)?;
    let files = config.files.as_pattern();
    let exclude = config.exclude.as_pattern();
    let candidates = StageCandidates {
        paths: passing(alloc, files, exclude, paths)?,
        message: passing(alloc, files, exclude, message.as_slice())?,
    };
    push_all_never(alloc, text, config.hooks.as_slice(), &candidates)
}

fn push_all_never(
    alloc: Global,
    text: &mut String,
    hooks: &[Hook],
    candidates: &StageCandidates<'_, '_>,
) -> Result<(), OutOfMemory> {
    let mut is_first = true;
    for (i, hook) in hooks.iter().enumerate() {
        if let Some(why) = why_never(alloc, hook, candidates)? {
            if is_first {
                text.push_str("never run here:\n")?;
            }
            is_first = false;
            push_never_line(alloc, text, i.saturating_add(1), hook, why)?;
        }
    }
    Ok(())
}

fn push_never_line(
    alloc: Global,
    text: &mut String,
    number: usize,
    hook: &Hook,
    why: &str,
) -> Result<(), AllocError> {
    text.push_str("  ")?;
    push_hook(alloc, text, number, hook.id.as_str())?;
    push_all(text, &[": ", why, "\n"])
}

// Why the hook never runs, or none if it may run.
fn why_never(
    alloc: Global,
    hook: &Hook,
    candidates: &StageCandidates<'_, '_>,
) -> Result<Option<&'static str>, OutOfMemory> {
    if !has_served_stage(hook.stages) {
        return Ok(Some("none of its stages comes here"));
    }
    if hook.always_run || gets_a_file(alloc, hook, candidates)? {
        return Ok(None);
    }
    Ok(Some("its `files` and `exclude`, with those at the top, let none of the files here through"))
}

fn has_served_stage(stages: Stages) -> bool {
    stages.pre_commit
        || stages.prepare_commit_msg
        || stages.commit_msg
        || stages.post_commit
        || stages.manual
}

// Whether the hook's patterns let a file through at one of its stages. After a commit there are no files.
fn gets_a_file(
    alloc: Global,
    hook: &Hook,
    candidates: &StageCandidates<'_, '_>,
) -> Result<bool, OutOfMemory> {
    if (hook.stages.pre_commit || hook.stages.manual)
        && lets_through(alloc, hook, candidates.paths.as_slice())?
    {
        return Ok(true);
    }
    if hook.stages.prepare_commit_msg || hook.stages.commit_msg {
        return lets_through(alloc, hook, candidates.message.as_slice());
    }
    Ok(false)
}

fn lets_through(alloc: Global, hook: &Hook, paths: &[&str]) -> Result<bool, OutOfMemory> {
    passes_any(
        alloc,
        hook.files.as_pattern(),
        hook.exclude.as_pattern(),
        paths,
    )
}
