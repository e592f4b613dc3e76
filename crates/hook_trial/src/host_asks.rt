//! The words by which a row asks for runs, for hooks about a message and for commits:
//!
//! - STAGE of a run is `pre-commit`, `post-commit` or `manual`, and about a message `prepare-commit-msg` or
//!   `commit-msg`;
//! - FILES is `changed`, `all` or the path of the one file that is named;
//! - ONLY is the hooks to run, or is empty;
//! - HOW of a run, and about a message, is `remembering`, or one or two of the words `fresh`, `cautious` and `verbose`;
//! - HOW of a commit is `verified` or `unverified`.

use commit_flow::{AskStage, MessageStage, Which};
use hook_base::{Items, Text};
use run_options::RunOptions;
use std::alloc::Global;
use trial_rows::{Stop, Words};

pub(crate) fn stage_of(words: &mut Words<'_>) -> Result<AskStage, Stop> {
    match words.text()? {
        "pre-commit" => Ok(AskStage::PreCommit),
        "post-commit" => Ok(AskStage::PostCommit),
        "manual" => Ok(AskStage::Manual),
        _ => Err(Stop::BadLine),
    }
}

pub(crate) fn message_stage_of(words: &mut Words<'_>) -> Result<MessageStage, Stop> {
    match words.text()? {
        "prepare-commit-msg" => Ok(MessageStage::PrepareCommitMsg),
        "commit-msg" => Ok(MessageStage::CommitMsg),
        _ => Err(Stop::BadLine),
    }
}

/// How a run is made.
#[derive(Clone, Copy)]
pub(crate) struct How {
    pub(crate) fresh: bool,
    pub(crate) cautious: bool,
    pub(crate) verbose: bool,
}

impl How {
    pub(crate) fn options(&self) -> RunOptions {
        RunOptions {
            cautious: self.cautious,
            verbose: self.verbose,
        }
    }
}

const REMEMBERING: How = How {
    fresh: false,
    cautious: false,
    verbose: false,
};

pub(crate) fn how_of(words: &mut Words<'_>) -> Result<How, Stop> {
    match words.text()? {
        "remembering" => Ok(REMEMBERING),
        "fresh" => Ok(fresh(REMEMBERING)),
        "cautious" => Ok(cautious(REMEMBERING)),
        "fresh cautious" => Ok(fresh(cautious(REMEMBERING))),
        text => verbose_how(text),
    }
}

fn verbose_how(text: &str) -> Result<How, Stop> {
    match text {
        "verbose" => Ok(verbose(REMEMBERING)),
        "fresh verbose" => Ok(fresh(verbose(REMEMBERING))),
        "cautious verbose" => Ok(cautious(verbose(REMEMBERING))),
        _ => Err(Stop::BadLine),
    }
}

fn fresh(how: How) -> How {
    How { fresh: true, ..how }
}

fn cautious(how: How) -> How {
    How {
        cautious: true,
        ..how
    }
}

fn verbose(how: How) -> How {
    How {
        verbose: true,
        ..how
    }
}

pub(crate) fn is_unverified(words: &mut Words<'_>) -> Result<bool, Stop> {
    match words.text()? {
        "verified" => Ok(false),
        "unverified" => Ok(true),
        _ => Err(Stop::BadLine),
    }
}

pub(crate) fn files_of(alloc: Global, words: &mut Words<'_>) -> Result<Which, Stop> {
    match words.text()? {
        "changed" => Ok(Which::Changed),
        "all" => Ok(Which::All),
        path => {
            let mut paths = Vec::new(alloc);
            paths.push(Text::copy_of(alloc, path)?)?;
            Ok(Which::Named(Items::from(paths)))
        }
    }
}

pub(crate) fn asked_name(alloc: Global, words: &mut Words<'_>) -> Result<Option<Text>, Stop> {
    match words.text()? {
        "" => Ok(None),
        name => Ok(Some(Text::copy_of(alloc, name)?)),
    }
}
