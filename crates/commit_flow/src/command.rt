//! The commands of a host, as values.

use crate::{HostAsk, MessageAsk, StagingEdits};
use hook_base::{Bytes, Items, Mode, Text};
use store_faults::AnswerLimit;

/// A command, with the arguments of its call.
#[derive(Debug, Drop)]
pub enum Command {
    /// [`Host::add`](crate::Host::add).
    Add {
        /// The path, as a text that needn't be one.
        path: Text,
        /// The file's bytes.
        bytes: Bytes,
        /// The mode. With `None` it is that of the staged file, or plain if none is staged.
        mode: Option<Mode>,
    },
    /// [`Host::remove`](crate::Host::remove).
    Remove {
        /// The path, as a text that needn't be one.
        path: Text,
    },
    /// [`Host::stage_all`](crate::Host::stage_all): several changes of the staged files, all or none.
    Stage {
        /// The changes, in order.
        edits: StagingEdits,
    },
    /// [`Host::accept`](crate::Host::accept).
    Accept,
    /// [`Host::run`](crate::Host::run).
    Run {
        /// What is asked of it.
        ask: HostAsk,
    },
    /// [`Host::message`](crate::Host::message): the hooks of a stage about a message, without a commit.
    Message {
        /// What is asked of them.
        ask: MessageAsk,
        /// The message that the hooks get.
        message: Bytes,
    },
    /// [`Host::commit`](crate::Host::commit).
    Commit {
        /// The message, before any hook has seen it.
        message: Bytes,
        /// Whether the hooks of `pre-commit` and `commit-msg` are bypassed (git-commit(1), "--no-verify").
        no_verify: bool,
        /// The ids and aliases of hooks that are skipped.
        skip: Items<Text>,
    },
    /// [`Host::forget`](crate::Host::forget).
    Forget,
    /// [`Host::set_limit`](crate::Host::set_limit).
    Limit {
        /// How many results are cached at most.
        most: AnswerLimit,
    },
}
