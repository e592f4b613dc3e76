//! The names of stages, and the stages of hooks.

use crate::configurations::refusal;
use hook_config::{Hook, Stage, Stages, read_config};
use std::alloc::Global;
use trial_rows::{AnswerBytes, Stop, only, text_of};

// All stages, with their first names.
const EVERY: &[(Stage, &str)] = &[
    (Stage::PreCommit, "pre-commit"),
    (Stage::PreMergeCommit, "pre-merge-commit"),
    (Stage::PrePush, "pre-push"),
    (Stage::PrepareCommitMsg, "prepare-commit-msg"),
    (Stage::CommitMsg, "commit-msg"),
    (Stage::PostCheckout, "post-checkout"),
    (Stage::PostCommit, "post-commit"),
    (Stage::PostMerge, "post-merge"),
    (Stage::PostRewrite, "post-rewrite"),
    (Stage::PreRebase, "pre-rebase"),
    (Stage::Manual, "manual"),
];

/// `hook_stages TEXT`: the stages of each hook of the configuration, a line each, or the refusal.
pub(crate) fn of_hooks(alloc: Global, arguments: &[Vec<u8>]) -> Result<AnswerBytes, Stop> {
    match read_config(alloc, only(arguments)?) {
        Ok(config) => Ok(lines(alloc, config.hooks.as_slice())),
        Err(fault) => Ok(refusal(alloc, fault)),
    }
}

/// `stage_of_word WORD`: the stage that the word names, or `none`.
pub(crate) fn of_word(alloc: Global, arguments: &[Vec<u8>]) -> Result<AnswerBytes, Stop> {
    match Stage::of_word(text_of(only(arguments)?)?) {
        Some(stage) => Ok(AnswerBytes::new(alloc).debug(stage)),
        None => Ok(AnswerBytes::new(alloc).text("none")),
    }
}

/// `stages SET WORD..`: the stages of the set, `all` or `none`, with those that the words name.
pub(crate) fn of_set(alloc: Global, arguments: &[Vec<u8>]) -> Result<AnswerBytes, Stop> {
    let [set, words @ ..] = arguments else {
        return Err(Stop::BadLine);
    };
    let mut stages = set_of(text_of(set.as_slice())?)?;
    for word in words {
        stages = stages.with(Stage::of_word(text_of(word.as_slice())?).ok_or(Stop::BadLine)?);
    }
    Ok(with_stages(AnswerBytes::new(alloc), stages))
}

fn set_of(word: &str) -> Result<Stages, Stop> {
    match word {
        "all" => Ok(Stages::all()),
        "none" => Ok(Stages::none()),
        _ => Err(Stop::BadLine),
    }
}

fn lines(alloc: Global, hooks: &[Hook]) -> AnswerBytes {
    let mut answer = AnswerBytes::new(alloc);
    for hook in hooks {
        answer = with_stages(answer, hook.stages).text("\n");
    }
    answer
}

// Adds the names of the stages, each followed by a blank.
fn with_stages(answer: AnswerBytes, stages: Stages) -> AnswerBytes {
    let mut answer = answer;
    for (stage, name) in EVERY {
        if stages.has(*stage) {
            answer = answer.texts(&[*name, " "]);
        }
    }
    answer
}
