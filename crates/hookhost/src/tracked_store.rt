//! A store that Git tracks. It came with a checkout, so whoever wrote that may have written its cached
//! results. A few edits would make any hook be reported as passed.

ghost use Rattle.std.specs.Prelude.{◌≡◌};
ghost use Rattle.hookhost.specs.TrackedStores.{IsDistrust, lists_any};

use crate::stop::is_memory;
use commit_flow::{Host, HostRefusal};
use repository_files::{FOLDER, is_in_checkout};
use sqlite::Alter;
use std::alloc::{AllocError, Global};
use std::io;
use std::process::Command;

// What is said if something was cached.
const NOT_TRUSTED: &str =
    "hookhost: Git tracks .hookhost, or doesn't say: what is remembered there isn't used (git rm -r --cached .hookhost)";

/// Drops the cached results of a store that Git tracks, and says so; also if it can't be learned whether Git
/// does. A refusal leaves all as it was.
pub(crate) fn distrust<S: Alter + Drop>(
    rt: &HostRuntime,
    host: &mut Host<S>,
) -> Result<(), HostRefusal> {
    if host.remembered() > 0 && may_be_tracked(rt)? {
        let _count = host.forget()?;
        let _said = rt.eprintln(NOT_TRUSTED);
    }
    Ok(())
}

// Whether Git tracks the store, and true if that can't be learned.
fn may_be_tracked(rt: &HostRuntime) -> Result<bool, HostRefusal> {
    if or_distrusted(is_in_checkout(rt))? {
        or_distrusted(is_tracked(rt))
    } else {
        Ok(false)
    }
}

// What was learned, and true if it can't be learned. Want of memory is the refusal.
fn or_distrusted(learned: io::Result<bool>) -> Result<bool, HostRefusal>
    ensures { IsDistrust learned result }
{
    match learned {
        Ok(is_so) => Ok(is_so),
        Err(error) => {
            if is_memory(&error) {
                Err(HostRefusal::OutOfMemory)
            } else {
                Ok(true)
            }
        }
    }
}

// Whether Git tracks anything in the folder of the repository (git-ls-files(1), "--cached"), or fails.
fn is_tracked(rt: &HostRuntime) -> io::Result<bool> {
    let ended = command_of(rt.alloc())?.output(rt)?;
    Ok(lists_any(ended.status.success(), ended.stdout.as_slice()))
}

// Whether a list has names in it. One that couldn't be made counts as if it had.
fn lists_any(is_made: bool, list: &[u8]) -> bool
    ensures { result ≡ lists_any is_made list.now }
{
    !(is_made && list.is_empty())
}

fn command_of(alloc: Global) -> Result<Command, AllocError> {
    let mut command = Command::new(alloc, "git")?;
    for word in ["ls-files", "--cached", "--", FOLDER] {
        let _command = command.arg(word)?;
    }
    Ok(command)
}
