//! What the hooks of a stage about a message begin with.

ghost use Rattle.std.specs.Prelude.{◌≡◌, IfOk, IfErr};
ghost use Rattle.commit_flow.specs.MessageCalls.{IsMessageBegun, IsMessageUnbegun};
ghost use Rattle.commit_flow.specs.MessageRuns.{stage_of_message};

use crate::commit_state::CommitState;
use crate::staged_configuration::staged_config;
use crate::{HostRefusal, MessageStage};
use hook_base::{Bytes, Content};
use hook_config::{Config, Stage};
use repo_store::{MOST_CONTENT_BYTES, Store};
use run_options::{RunOptions, with_options};
use sqlite::Alter;
use std::alloc::Global;

/// What the hooks of a stage about a message begin with.
#[derive(Drop)]
pub(crate) struct MessageBegun {
    /// The staged configuration, changed by the options.
    pub(crate) config: Config,
    /// The staged files, and the message.
    pub(crate) course: CommitState,
}

/// Begins a stage about a message. First a message of more than 16 MiB is refused (`TooLarge`). Then comes
/// `NoConfig` if no configuration is staged, and `BadConfig` if it can't be read. `OutOfMemory` comes if
/// memory is refused.
pub(crate) fn begin_message<S: Alter>(
    alloc: Global,
    store: &Store<S>,
    options: RunOptions,
    message: &[u8],
) -> Result<MessageBegun, HostRefusal>
    ensures begun { IfOk result (IsMessageBegun store.now.kept.repo options message.now) }
    ensures refused { IfErr result (IsMessageUnbegun store.now.kept.repo message.now) }
{
    if message.len() > MOST_CONTENT_BYTES {
        return Err(HostRefusal::TooLarge);
    }
    let staged = staged_config(alloc, store)?;
    let config = with_options(alloc, staged, options)?;
    let tree = store.staged()?;
    let message = Bytes::copy_of(alloc, message)?;
    let course = CommitState {
        tree,
        message: Content::hashed(alloc, message)?,
    };
    Ok(MessageBegun { config, course })
}

/// The stage among all stages.
pub(crate) fn stage_of_message(stage: MessageStage) -> Stage
    ensures { result ≡ stage_of_message stage }
{
    match stage {
        MessageStage::PrepareCommitMsg => Stage::PrepareCommitMsg,
        MessageStage::CommitMsg => Stage::CommitMsg,
    }
}
