//! Trees, changes and the log, for callers.

ghost use Rattle.std.specs.Prelude.{◌≡◌, ◌≤◌, length, map, IfOk};
ghost use Rattle.hook_base.specs.Trees.{IsRising};
ghost use Rattle.store_faults.specs.Limits.{most_commits};
ghost use Rattle.repo_store.specs.Lists.{commit_of, file_of, fix_of};
ghost use Rattle.repo_store.specs.Log.{log_from};

use crate::LogEntry;
use crate::shared::{ListedFile, SharedCommit, SharedFix};
use hook_base::{Change, OutOfMemory, Tree};
use std::alloc::Global;

/// The files as a tree, which shares them.
pub(crate) fn tree_of(alloc: Global, files: &[ListedFile]) -> Result<Tree, OutOfMemory>
    requires { IsRising (map file_of files.now) }
    ensures { IfOk result (λ tree. tree ≡ map file_of files.now) }
{
    let mut tree = Tree::new(alloc);
    for file in files {
        tree.put_shared(file.shared().clone()?)?;
    }
    Ok(tree)
}

fn change_of(fix: &SharedFix) -> Result<Change, OutOfMemory>
    ensures { IfOk result (λ change. change ≡ fix_of fix.entry.now) }
{
    let path = fix.path.clone()?;
    let now = fix.now.clone()?;
    Ok(Change { path, now })
}

/// The fixes as changes, which share their contents.
pub(crate) fn changes_of(alloc: Global, fixes: &[SharedFix]) -> Result<Vec<Change>, OutOfMemory>
    ensures { IfOk result (λ changes. changes.items ≡ map fix_of fixes.now) }
{
    let mut changes = Vec::new(alloc);
    for fix in fixes {
        changes.push(change_of(fix)?)?;
    }
    Ok(changes)
}

/// The log of the commits, which are numbered from 1 on (docs/REFERENCE.md, "The store").
pub(crate) fn log_of(alloc: Global, history: &[SharedCommit]) -> Result<Vec<LogEntry>, OutOfMemory>
    requires { length history.now ≤ most_commits }
    ensures { IfOk result (λ log. log.items ≡ log_from 1 (map commit_of history.now)) }
{
    let mut log = Vec::new(alloc);
    let mut number = 1;
    for commit in history {
        let message = commit.message.clone()?;
        log.push(LogEntry { number, message })?;
        number += 1;
    }
    Ok(log)
}
