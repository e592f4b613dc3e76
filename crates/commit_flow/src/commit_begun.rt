//! What a commit begins with.

ghost use Rattle.std.specs.Prelude.{IfOk, IfErr, OnOk};
ghost use Rattle.commit_flow.specs.CommitCalls.{IsCommitBegun, IsUnbegun};
ghost use Rattle.commit_flow.specs.Commits.{IsCommittable};

use crate::HostRefusal;
use crate::candidates::changed_paths;
use crate::commit_state::CommitState;
use crate::message::begun_message;
use crate::staged_configuration::staged_config;
use hook_base::{Bytes, Content, Items, RepoPath};
use hook_config::Config;
use repo_store::{MOST_CONTENT_BYTES, Store};
use sqlite::Alter;
use std::alloc::Global;

/// What a commit begins with.
#[derive(Drop)]
pub(crate) struct CommitBegun {
    /// The staged configuration.
    pub(crate) config: Config,
    /// The paths of the staged files that differ from the last commit.
    pub(crate) changed: Items<RepoPath>,
    /// What the first stage gets.
    pub(crate) course: CommitState,
}

/// Begins a commit. First a message of more than 16 MiB is refused (`TooLarge`), then staged files that are
/// those of the last commit (`NothingStaged`). Then comes `NoConfig` if no configuration is staged, and
/// `BadConfig` if it can't be read. `OutOfMemory` comes if memory is refused.
pub(crate) fn begin_commit<S: Alter>(
    alloc: Global,
    store: &Store<S>,
    message: &[u8],
) -> Result<CommitBegun, HostRefusal>
    ensures begun { IfOk result (IsCommitBegun store.now.kept.repo message.now) }
    ensures refused { IfErr result (IsUnbegun store.now.kept.repo message.now) }
{
    check_committable(store, message)?;
    let config = staged_config(alloc, store)?;
    let staged = store.staged()?;
    let changed = changed_paths(alloc, store, &staged)?;
    let message = Bytes::from(begun_message(alloc, message)?);
    Ok(CommitBegun {
        config,
        changed,
        course: CommitState {
            tree: staged,
            message: Content::hashed(alloc, message)?,
        },
    })
}

fn check_committable<S: Alter>(store: &Store<S>, message: &[u8]) -> Result<(), HostRefusal>
    ensures committable { OnOk result (IsCommittable store.now.kept.repo message.now) }
    ensures refused { IfErr result (IsUnbegun store.now.kept.repo message.now) }
{
    if message.len() > MOST_CONTENT_BYTES {
        return Err(HostRefusal::TooLarge);
    }
    if !store.differs_from_head() {
        return Err(HostRefusal::NothingStaged);
    }
    Ok(())
}
