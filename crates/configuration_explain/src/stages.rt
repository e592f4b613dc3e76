//! The hooks of each stage.

use crate::escaped_texts::{push_all, push_quoted};
use crate::hook_names::push_hook;
use hook_config::{Hook, Language, Stage, Stages};
use std::alloc::{AllocError, Global};

// A stage that a command here runs, and its name.
#[derive(Clone, Copy)]
struct ServedStage {
    stage: Stage,
    name: &'static str,
}

// The stages in the order in which a commit runs them, and then the one that only `run` runs.
const SERVED_STAGES: [ServedStage; 5] = [
    ServedStage {
        stage: Stage::PreCommit,
        name: "pre-commit",
    },
    ServedStage {
        stage: Stage::PrepareCommitMsg,
        name: "prepare-commit-msg",
    },
    ServedStage {
        stage: Stage::CommitMsg,
        name: "commit-msg",
    },
    ServedStage {
        stage: Stage::PostCommit,
        name: "post-commit",
    },
    ServedStage {
        stage: Stage::Manual,
        name: "manual",
    },
];

/// Puts the hooks of each stage that a command here runs, with what each runs. A stage without hooks is left
/// out.
pub(crate) fn push_stages(
    alloc: Global,
    text: &mut String,
    hooks: &[Hook],
) -> Result<(), AllocError> {
    for served in &SERVED_STAGES {
        if has_hook(hooks, served.stage) {
            push_all(text, &[served.name, ":\n"])?;
            push_stage(alloc, text, hooks, served.stage)?;
        }
    }
    Ok(())
}

fn has_hook(hooks: &[Hook], stage: Stage) -> bool {
    for hook in hooks {
        if hook.stages.has(stage) {
            return true;
        }
    }
    false
}

fn push_stage(
    alloc: Global,
    text: &mut String,
    hooks: &[Hook],
    stage: Stage,
) -> Result<(), AllocError> {
    for (i, hook) in hooks.iter().enumerate() {
        if hook.stages.has(stage) {
            push_hook_line(alloc, text, i.saturating_add(1), hook)?;
        }
    }
    Ok(())
}

// A hook's line: its name, its language, its entry and its arguments.
fn push_hook_line(
    alloc: Global,
    text: &mut String,
    number: usize,
    hook: &Hook,
) -> Result<(), AllocError> {
    text.push_str("  ")?;
    push_hook(alloc, text, number, hook.id.as_str())?;
    push_all(text, &[": ", language_word(&hook.language), " "])?;
    push_quoted(text, hook.entry.as_str())?;
    push_args(text, hook)?;
    text.push('\n')
}

fn push_args(text: &mut String, hook: &Hook) -> Result<(), AllocError> {
    for arg in hook.args.as_slice() {
        text.push(' ')?;
        push_quoted(text, arg.as_str())?;
    }
    Ok(())
}

fn language_word(language: &Language) -> &'static str {
    match language {
        Language::Fail => "fail",
        Language::Pygrep(_) => "pygrep",
        Language::System(_) => "system",
        Language::Script(_) => "script",
    }
}

/// Puts the hooks that run at every stage, and so at each of a commit, if there are any, and what this means.
pub(crate) fn push_each_time(
    alloc: Global,
    text: &mut String,
    hooks: &[Hook],
) -> Result<(), AllocError> {
    let mut is_first = true;
    for (i, hook) in hooks.iter().enumerate() {
        if hook.stages == Stages::all() {
            if is_first {
                text.push_str("run at each of the four stages of a commit:\n")?;
            }
            is_first = false;
            push_name_line(alloc, text, i.saturating_add(1), hook)?;
        }
    }
    if is_first {
        return Ok(());
    }
    text.push_str(EACH_TIME)
}

const EACH_TIME: &str =
    "  Such a hook that searches for a word refuses a commit for its message too, with `--no-verify` as well: say `default_stages: [pre-commit]`.\n";

fn push_name_line(
    alloc: Global,
    text: &mut String,
    number: usize,
    hook: &Hook,
) -> Result<(), AllocError> {
    text.push_str("  ")?;
    push_hook(alloc, text, number, hook.id.as_str())?;
    text.push('\n')
}
