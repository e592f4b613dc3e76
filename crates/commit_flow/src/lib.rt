//! The host of a repository: the commands that stage files, run hooks and commit, and what each answers.
//!
//! A [`Host`] works on a store, which keeps the repository and caches what children answered, up to a limit.
//! Runs, hooks about a message and commits use these cached results and add to them. A [`HostAsk`] says what
//! is asked of a run of hooks on the staged files, and a [`StagedRun`] what it gave. A [`CommitEnding`] says
//! how a commit through its hooks ended. A [`MessageAsk`] says what is asked of the hooks of a
//! [`MessageStage`] without a commit, and a [`MessageRun`] what they gave. A [`HostRefusal`] says why a
//! command is refused. [`Command`] and [`Reply`] are the commands and their answers as values. A list of
//! [`StagingEdit`]s makes several changes of the staged files at once, and a [`StagingStop`] says which of
//! them is refused.
//!
//! The contracts cite `Step` of `specs/Steps.antt`: what each command may answer, and what it makes of the
//! repository. The other specs that they cite are:
//!
//! - `specs/Commands.antt`: the reply for the answer of a call;
//! - `specs/AnswerLimits.antt`: what a new limit makes of the cached results;
//! - `specs/Stops.antt`, `IsOneCommand` and `IsPlayedSafely`: what a stop leaves;
//! - `specs/EditSteps.antt`: several changes as steps, and at which of them they are refused;
//! - `specs/RunSteps.antt`, `IsRunStep` and `IsStoppedStep`, and `specs/CommitSteps.antt`, `IsCommitStep`: a
//!   run and a commit as steps, with what was cached and what children reported;
//! - `specs/Runs.antt`, `specs/Commits.antt` and `specs/CommitStages.antt`: the cases of runs and of commits,
//!   and the stages of a commit;
//! - `specs/MessageSteps.antt`, `IsMessageStep`, and `specs/MessageRuns.antt`: hooks about a message, without a
//!   commit;
//! - `specs/KeptByHooks.antt`: what runs and commits make of what is kept;
//! - `specs/Messages.antt`: how the message of a commit is cleaned;
//! - `specs/Refusals.antt`: the refusals;
//! - `specs/Plays.antt`, for [`Host::play`]: a list of commands as a run of the machine of `Step`, with the
//!   counts of the children and what is cached;
//! - `specs/StoppedPlays.antt`, for [`Host::play`]: what a stop leaves of the list.
//!
//! Definitions of the repository, its files and what is cached are those of `repo_store`, `hook_base` and
//! `result_book`. `specs/Preparations.antt`, `specs/CommitCalls.antt` and `specs/MessageCalls.antt` are used only by
//! private functions.
//! [`laws`] says that a step has at most one answer, and what follows for a list of commands, also if it is
//! stopped and goes on later.
#![tactic(auto)]

mod candidates;
mod command;
mod commit;
mod commit_begun;
mod commit_ending;
mod commit_staged;
mod commit_stages;
mod commit_state;
mod hooks;
mod host;
mod host_ask;
mod host_refusal;
pub mod laws;
mod message;
mod message_ask;
mod message_begun;
mod message_hooks;
mod message_run;
mod message_stage;
mod play;
mod prepared;
mod reply;
mod run;
mod staged_configuration;
mod staged_run;
mod staging_edits;
mod staging_stop;

pub use command::Command;
pub use commit_ending::CommitEnding;
pub use host::Host;
pub use host_ask::{AskStage, HostAsk, Which};
pub use host_refusal::HostRefusal;
pub use message::{begun_message, cleaned_message};
pub use message_ask::MessageAsk;
pub use message_run::MessageRun;
pub use message_stage::MessageStage;
pub use reply::{PostCommit, Reply};
pub use repo_store::StagingEdit;
pub use staged_run::StagedRun;
pub use staging_edits::StagingEdits;
pub use staging_stop::StagingStop;
