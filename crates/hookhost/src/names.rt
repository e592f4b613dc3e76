//! Names of files: those that a file lists, and which are paths of a tree.
//!
//! The contracts cite `specs/Names.antt`.

ghost use Rattle.std.specs.Prelude.{◌≡◌, ◌⊎◌, IfErr, IfOk};
ghost use Rattle.configuration_run.specs.declared.try_fault.TryFault.TheVariants.{OutOfMemory as NoMemory};
ghost use Rattle.hookhost.specs.Names.{listed_names, path_named, with_last, without_empty_end};
ghost use Rattle.hookhost.specs.declared.stop.CommandStop.TheVariants.{NotText, Refused};
ghost use Rattle.hookhost.specs.Stops.{IsStopOfItsFile, IsStopOfNames};

use crate::files::read_word;
use crate::stop::CommandStop;
use hook_base::{Items, MOST_FILE_BYTES, OutOfMemory, PathFault, RepoPath, Text};
use hook_cli::{FileChoice, PathSource, Update};
use std::alloc::Global;

/// The names that the file of `--paths-from` lists, in their order, and none for an update without that
/// option. A file that can't be read, or has more than 16 MiB, is `CommandStop::CannotUse`. Names that aren't UTF-8
/// are `CommandStop::NotText`, and want of memory is `CommandStop::RefusedCommand`.
pub(crate) fn names_of(rt: &HostRuntime, update: &Update) -> Result<Items<Text>, CommandStop>
    ensures { IfErr result (IsStopOfItsFile update.now) }
{
    match update {
        Update::Add {
            paths: PathSource::Listed(from),
            ..
        }
        | Update::Remove {
            paths: PathSource::Listed(from),
        }
        | Update::Run {
            files: FileChoice::Listed(from),
            ..
        } => read_names(rt, from).map_err(CommandStop::of_command),
        Update::Add { .. }
        | Update::Remove { .. }
        | Update::Run { .. }
        | Update::Hook { .. }
        | Update::Accept
        | Update::Commit { .. }
        | Update::Forget
        | Update::Limit(_) => Ok(Items::new(rt.alloc())),
    }
}

fn read_names(rt: &HostRuntime, from: &Text) -> Result<Items<Text>, CommandStop>
    ensures { IfErr result (IsStopOfNames from.now) }
{
    let word = from.clone()?;
    match read_word(rt, word.as_str(), MOST_FILE_BYTES + 1) {
        Ok(bytes) if bytes.len() <= MOST_FILE_BYTES => names_of_bytes(rt.alloc(), bytes.as_slice()),
        Ok(_) => Err(CommandStop::CannotUse(word)),
        Err(error) => Err(CommandStop::of_file(&error, word)),
    }
}

fn names_of_bytes(alloc: Global, bytes: &[u8]) -> Result<Items<Text>, CommandStop>
    ensures names { IfOk result (λ names. names ≡ listed_names bytes.now) }
    ensures refused { IfErr result (λ stop. (stop ≡ NotText) ⊎ (stop ≡ Refused NoMemory)) }
{
    match str::from_utf8(bytes) {
        Ok(text) => Ok(names_in(alloc, text)?),
        Err(_) => Err(CommandStop::NotText),
    }
}

// The names in a text, each ended by a NUL byte. The last one may do without.
fn names_in(alloc: Global, text: &str) -> Result<Items<Text>, OutOfMemory>
    ensures { IfOk result (λ names. names ≡ listed_names text.now) }
{
    let mut names = Vec::new(alloc);
    'names: for name in text.split('\0') {
        names.push(Text::copy_of(alloc, name)?)?;
    }
    Ok(Items::from(without_empty_end(names)?))
}

// The names without the last one, if that is empty: after the last NUL there may be no name.
fn without_empty_end(names: Vec<Text>) -> Result<Vec<Text>, OutOfMemory>
    ensures { IfOk result (λ kept. kept.items ≡ without_empty_end names.items) }
{
    let mut kept = names;
    match kept.pop() {
        Some(last) => with_last(kept, last),
        None => Ok(kept),
    }
}

// The names, and then the last one unless it is empty.
fn with_last(names: Vec<Text>, last: Text) -> Result<Vec<Text>, OutOfMemory>
    ensures { IfOk result (λ kept. kept.items ≡ with_last names.items last) }
{
    let mut kept = names;
    if last.is_empty() {
        return Ok(kept);
    }
    kept.push(last)?;
    Ok(kept)
}

/// The path that a name is, or `None` if it is no path of a tree. It fails only for lack of memory.
pub(crate) fn path_named(alloc: Global, name: &str) -> Result<Option<RepoPath>, OutOfMemory>
    ensures { IfOk result (λ path. path ≡ path_named name.now) }
{
    match RepoPath::read(alloc, name) {
        Ok(path) => Ok(Some(path)),
        Err(PathFault::OutOfMemory) => Err(OutOfMemory),
        Err(_) => Ok(None),
    }
}
