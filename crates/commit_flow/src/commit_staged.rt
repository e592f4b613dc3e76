//! The commit of the staged files, once the hooks before it are through.

ghost use Rattle.std.specs.Prelude.{◌≡◌, ◌+◌, [], length, IfOk, IfErr, OnOk};
ghost use Rattle.repo_store.specs.AllOrNothing.{IsAllOrNothing};
ghost use Rattle.repo_store.specs.Kept.{committing};
ghost use Rattle.commit_flow.specs.CommitCalls.{IsOneChange, IsUncommitted};
ghost use Rattle.commit_flow.specs.Commits.{MayCommit};
ghost use Rattle.commit_flow.specs.Messages.{cleaned_message};

use crate::HostRefusal;
use crate::message::cleaned_message;
use repo_store::{MOST_COMMITS, MOST_CONTENT_BYTES, Store, StoreFault};
use sqlite::Alter;
use std::alloc::Global;

/// Commits the staged files with the message, once this is cleaned, and answers the commit's number. It is
/// refused, in this order, if the cleaned message is empty (`EmptyMessage`) or has more than 16 MiB
/// (`Store`), and if there are 100,000 commits already (`TooMany`). The database is asked after these, and
/// `Store` comes if it refuses. `OutOfMemory` comes if memory is refused. A refusal leaves the store as it
/// was.
pub(crate) fn commit_staged<S: Alter>(
    alloc: Global,
    store: &mut Store<S>,
    message: &[u8],
) -> Result<u32, HostRefusal>
    ensures number { IfOk result (λ number. number ≡ length store.old.kept.repo.history + 1) }
    ensures able { OnOk result (MayCommit store.old.kept.repo (cleaned_message message.now)) }
    ensures refused { IfErr result (IsUncommitted store.old.kept.repo (cleaned_message message.now)) }
    ensures unasked { cleaned_message message.now ≡ [] → store.new ≡ store.old }
    ensures change { IsAllOrNothing store.old.kept store.new.kept result
        (committing (cleaned_message message.now) store.old.kept) }
    ensures one { IsOneChange S.Store store.old store.new result
        (committing (cleaned_message message.now) store.old.kept) }
{
    let cleaned = cleaned_message(alloc, message)?;
    check_cleaned(store, cleaned.as_slice())?;
    let number = store.commit(cleaned.as_slice())?;
    Ok(number)
}

// The store itself would refuse the last two, but its contract doesn't say that it does so before it asks the
// database.
fn check_cleaned<S: Alter>(store: &Store<S>, cleaned: &[u8]) -> Result<(), HostRefusal>
    ensures able { OnOk result (MayCommit store.now.kept.repo cleaned.now) }
    ensures refused { IfErr result (IsUncommitted store.now.kept.repo cleaned.now) }
{
    if cleaned.is_empty() {
        return Err(HostRefusal::EmptyMessage);
    }
    if cleaned.len() > MOST_CONTENT_BYTES {
        return Err(HostRefusal::Store(StoreFault::TooLarge));
    }
    if store.count_commits() as usize >= MOST_COMMITS {
        return Err(HostRefusal::TooMany);
    }
    Ok(())
}
