//! The fix that a line undoes by what it stages.
//!
//! The contracts cite `specs/UndoneFixes.antt`.

ghost use Rattle.std.specs.Prelude.{◌≡◌, IfOk, IfSome, Some};
ghost use Rattle.hookhost.specs.UndoneFixes.{undone_among, undone_at, undone_by_call, undone_by_command, undone_by_edit};

use crate::names::path_named;
use crate::store_call::StoreCall;
use commit_flow::{Command, StagingEdit};
use hook_base::{OutOfMemory, RepoPath, Text};
use repo_store::Store;
use sqlite::Alter;
use std::alloc::Global;

/// The path of the first file to which the call gives other bytes than its fix would, if there is one. It is
/// looked for before the call is made, since that drops the fixes. `None` also if memory is refused.
pub(crate) fn undone_fix<S: Alter>(
    alloc: Global,
    call: &StoreCall,
    store: &Store<S>,
) -> Option<RepoPath>
    ensures { IfSome result (λ path. undone_by_call store.now.kept.repo.fixes call.now ≡ Some path) }
{
    match undone_by_call(alloc, call, store) {
        Ok(undone) => undone,
        Err(OutOfMemory) => None,
    }
}

fn undone_by_call<S: Alter>(
    alloc: Global,
    call: &StoreCall,
    store: &Store<S>,
) -> Result<Option<RepoPath>, OutOfMemory>
    ensures { IfOk result (λ undone. undone ≡ undone_by_call store.now.kept.repo.fixes call.now) }
{
    match call {
        StoreCall::Command(command) => undone_by_command(alloc, command, store),
        StoreCall::LookUp(_)
        | StoreCall::HookCommand { .. }
        | StoreCall::MessageHooks { .. }
        | StoreCall::Unstage { .. }
        | StoreCall::Nothing => Ok(None),
    }
}

fn undone_by_command<S: Alter>(
    alloc: Global,
    command: &Command,
    store: &Store<S>,
) -> Result<Option<RepoPath>, OutOfMemory>
    ensures { IfOk result (λ undone. undone ≡ undone_by_command store.now.kept.repo.fixes command.now) }
{
    match command {
        Command::Add { path, bytes, .. } => undone_at(alloc, path, bytes.as_slice(), store),
        Command::Stage { edits } => undone_among(alloc, edits.as_slice(), store),
        Command::Remove { .. }
        | Command::Accept
        | Command::Run { .. }
        | Command::Message { .. }
        | Command::Commit { .. }
        | Command::Forget
        | Command::Limit { .. } => Ok(None),
    }
}

fn undone_among<S: Alter>(
    alloc: Global,
    edits: &[StagingEdit],
    store: &Store<S>,
) -> Result<Option<RepoPath>, OutOfMemory>
    ensures { IfOk result (λ undone. undone ≡ undone_among store.now.kept.repo.fixes edits.now) }
{
    'edits: for edit in edits {
        if let Some(path) = undone_by_edit(alloc, edit, store)? {
            return Ok(Some(path));
        }
    }
    Ok(None)
}

fn undone_by_edit<S: Alter>(
    alloc: Global,
    edit: &StagingEdit,
    store: &Store<S>,
) -> Result<Option<RepoPath>, OutOfMemory>
    ensures { IfOk result (λ undone. undone ≡ undone_by_edit store.now.kept.repo.fixes edit.now) }
{
    match edit {
        StagingEdit::Add { path, bytes, .. } => undone_at(alloc, path, bytes.as_slice(), store),
        StagingEdit::Remove { .. } => Ok(None),
    }
}

// The path, if its fix gives other bytes to it than these.
fn undone_at<S: Alter>(
    alloc: Global,
    path: &Text,
    bytes: &[u8],
    store: &Store<S>,
) -> Result<Option<RepoPath>, OutOfMemory>
    ensures { IfOk result (λ undone. undone ≡ undone_at store.now.kept.repo.fixes path.now bytes.now) }
{
    let Some(path) = path_named(alloc, path.as_str())? else {
        return Ok(None);
    };
    match store.fixed_bytes(&path) {
        Some(fixed) => {
            if fixed == bytes {
                Ok(None)
            } else {
                Ok(Some(path))
            }
        }
        None => Ok(None),
    }
}
