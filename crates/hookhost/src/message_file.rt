//! The file that holds the message of a commit, which hooks may change.
//!
//! The contracts cite `specs/MessageFiles.antt`.

ghost use Rattle.std.specs.Prelude.{◌≡◌, IfErr, option_map};
ghost use Rattle.hookhost.specs.MessageFiles.{changed_message};
ghost use Rattle.hookhost.specs.Stops.{IsStopOfItsFile, IsStopOfMessage};

use crate::files::read_regular;
use crate::stop::CommandStop;
use hook_base::{Bytes, Content, Text};
use hook_cli::{CommitHook, Update};
use std::fs::{OpenFile, OpenOptions, Permissions};
use std::io::Write;
use std::rt::Files;
use std::{fs, io};

// What the name of the new file has after that of the old one.
const NEW: &str = ".hookhost";

/// The file of a message.
#[derive(Drop)]
pub(crate) struct MessageFile {
    /// Its name.
    pub(crate) name: Text,
    /// The bytes that were read from it.
    pub(crate) bytes: Bytes,
}

/// What the file of a line's message holds, as `read_regular` reads it, and nothing for a line without a message.
/// A file that can't be read is `CommandStop::CannotUse`, and want of memory is `CommandStop::RefusedCommand`.
pub(crate) fn message_of(rt: &HostRuntime, update: &Update) -> Result<Bytes, CommandStop>
    ensures { IfErr result (IsStopOfItsFile update.now) }
{
    match update {
        Update::Hook {
            hook: CommitHook::PrepareCommitMsg(name),
            ..
        }
        | Update::Hook {
            hook: CommitHook::CommitMsg(name),
            ..
        } => match read_regular(rt, name) {
            Ok(bytes) => Ok(Bytes::from(bytes)),
            Err(stop) => Err(stop.of_command()),
        },
        Update::Hook { .. }
        | Update::Add { .. }
        | Update::Remove { .. }
        | Update::Run { .. }
        | Update::Accept
        | Update::Commit { .. }
        | Update::Forget
        | Update::Limit(_) => Ok(Bytes::from(Vec::new(rt.alloc()))),
    }
}

/// Replaces the file if hooks leave a message that differs from what it held. If the file can't be replaced, it stays
/// as it was: that is `CommandStop::CannotUse`, and want of memory is `CommandStop::RefusedCommand`.
pub(crate) fn keep_message<R: Files + AllocGlobal>(
    rt: &R,
    file: MessageFile,
    left: Option<Content>,
) -> Result<(), CommandStop>
    ensures { IfErr result (IsStopOfMessage file.name) }
{
    let MessageFile { name, bytes: held } = file;
    match changed_message(held.as_slice(), &left) {
        Some(bytes) => replace(rt, name, bytes),
        None => Ok(()),
    }
}

// The message that hooks leave, if they leave one that differs from what the file held.
fn changed_message<'l>(held: &[u8], left: &'l Option<Content>) -> Option<&'l [u8]>
    ensures { option_map (λ changed. changed.now) result ≡ changed_message held.now left.now }
{
    match left {
        Some(left) => {
            let left = left.as_slice();
            if left == held { None } else { Some(left) }
        }
        None => None,
    }
}

fn replace<R: Files + AllocGlobal>(rt: &R, name: Text, bytes: &[u8]) -> Result<(), CommandStop>
    ensures { IfErr result (IsStopOfMessage name) }
{
    match replace_named(rt, name.as_str(), bytes) {
        Ok(()) => Ok(()),
        Err(error) => Err(CommandStop::of_file(&error, name).of_command()),
    }
}

// Replaces the file of this name by one with these bytes and the same permissions, in one step. Of a link the file
// is replaced to which it leads. An error leaves the file as it was, and no other one.
fn replace_named<R: Files + AllocGlobal>(rt: &R, name: &str, bytes: &[u8]) -> io::Result<()> {
    if fs::symlink_metadata(rt, name)?.is_symlink() {
        let place = fs::canonicalize(rt, name)?;
        replace_file(rt, place.as_str(), bytes)
    } else {
        replace_file(rt, name, bytes)
    }
}

fn replace_file<R: Files + AllocGlobal>(rt: &R, name: &str, bytes: &[u8]) -> io::Result<()> {
    let permissions = fs::metadata(rt, name)?.permissions();
    let new = format!(in rt.alloc(); "{name}{NEW}")?;
    let new = new.as_str();
    // A command that was killed may have left one.
    let _gone = fs::remove_file(rt, new);
    let file = OpenOptions::new()
        .write(true)
        .create_new(true)
        .open(rt, new)?;
    let replaced = match fill(file, bytes, permissions) {
        Ok(()) => fs::rename(rt, new, name),
        Err(error) => Err(error),
    };
    if replaced.is_err() {
        let _gone = fs::remove_file(rt, new);
    }
    replaced
}

fn fill<F: Write + OpenFile + Drop>(
    file: F,
    bytes: &[u8],
    permissions: Permissions,
) -> io::Result<()> {
    // Before it holds anything, nobody else may read it who may not read the old one.
    file.set_permissions(permissions)?;
    let mut file = file;
    file.write_all(bytes)?;
    file.flush()
}
