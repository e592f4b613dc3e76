//! The commands that look something up in a repository, or in the cached results of its host, and print it.
//!
//! The contracts cite `specs/CommandOver.antt`.

ghost use Rattle.std.specs.Prelude.{◌≡◌, ◌⊎◌, ℕ, List, IfOk, IfErr, OnOk};
ghost use Rattle.std.specs.Option.{option_copied};
ghost use Rattle.commit_flow.specs.StagedPaths.{IsLegal};
ghost use Rattle.command_line.specs.declared.line.LookUp.TheVariants.{Status, Fixes, Cat, Log, Show, Memory};
ghost use Rattle.hook_cli.specs.declared.command_ending.CommandEnding.TheVariants as ends;
ghost use Rattle.hook_cli.specs.CommandOver.{IsLookUp, IsLookUpOver, IsMissingText, IsPathRefusal, bytes_in};
ghost use Rattle.hook_cli.specs.Printing.{IsPrintedOnStandardError};
ghost use Rattle.text_output.specs.Outputs.{output_of};

use crate::CommandEnding;
use crate::command_ending::status_of;
use crate::printing::{say, say_remembered, tell, tell_no_commit, tell_no_file, tell_no_fixed};
use command_line::{FileVersion, LookUp};
use commit_flow::{Host, HostRefusal};
use hook_base::{OutOfMemory, RepoPath};
use repo_store::Store;
use repository_text::{fixes_text, log_text, show_text, status_text};
use sqlite::Alter;
use std::alloc::Global;
use std::io::Write;

/// Prints what is looked up in a repository, or how many results its host has cached, and answers the exit
/// status.
///
/// It is 0 if `out` has the text. It is 3 if the look-up is refused. `err` then has
/// `hookhost: refused: NUMBER NAME`, with the inner number if the refusal has one, and `out` nothing. For a
/// commit that doesn't exist, `Show` says `hookhost: no commit N` instead, and `Cat` says what has no bytes of
/// the path. Want of memory is refused as `OutOfMemory`; `Memory` is never refused. It is 3 too if a writer
/// gives an error: what it took before is out. If it was `out`, `err` has
/// `hookhost: standard output was not taken`.
pub fn look_up_over<S: Alter, O: Write, E: Write>(
    alloc: Global,
    look_up: &LookUp,
    host: &Host<S>,
    out: &mut O,
    err: &mut E,
) -> u8
    ensures looked_up { IsLookUpOver host.now.store.kept look_up.now
        (output_of (O.contents out.old) (O.contents out.new))
        (output_of (E.contents err.old) (E.contents err.new)) result }
    ensures one_of { (result ≡ 0) ⊎ (result ≡ 1) ⊎ (result ≡ 3) }
{
    status_of(looked_up(alloc, look_up, host, out, err))
}

fn looked_up<S: Alter, O: Write, E: Write>(
    alloc: Global,
    look_up: &LookUp,
    host: &Host<S>,
    out: &mut O,
    err: &mut E,
) -> CommandEnding
    ensures { IsLookUp host.now.store.kept look_up.now (output_of (O.contents out.old) (O.contents out.new))
        (output_of (E.contents err.old) (E.contents err.new)) result }
{
    match look_up {
        LookUp::Status => status(alloc, host.store(), out, err),
        LookUp::Fixes => fixes(alloc, host.store(), out, err),
        LookUp::Cat { path, version } => {
            cat(alloc, path.as_str(), *version, host.store(), out, err)
        }
        LookUp::Log => log(alloc, host.store(), out, err),
        LookUp::Show { number } => show(alloc, *number, host.store(), out, err),
        LookUp::Memory => memory(host, out, err),
    }
}

// `status`: how the staged files differ from those of the last commit.
fn status<S: Alter, O: Write, E: Write>(
    alloc: Global,
    store: &Store<S>,
    out: &mut O,
    err: &mut E,
) -> CommandEnding
    ensures { IsLookUp store.now.kept Status (output_of (O.contents out.old) (O.contents out.new))
        (output_of (E.contents err.old) (E.contents err.new)) result }
{
    match status_text(alloc, store) {
        Ok(text) => say(out, err, text.as_slice()),
        Err(OutOfMemory) => tell(err, &HostRefusal::OutOfMemory),
    }
}

// `fixes`: what accepting the fixes would change.
fn fixes<S: Alter, O: Write, E: Write>(
    alloc: Global,
    store: &Store<S>,
    out: &mut O,
    err: &mut E,
) -> CommandEnding
    ensures { IsLookUp store.now.kept Fixes (output_of (O.contents out.old) (O.contents out.new))
        (output_of (E.contents err.old) (E.contents err.new)) result }
{
    match fixes_text(alloc, store) {
        Ok(text) => say(out, err, text.as_slice()),
        Err(OutOfMemory) => tell(err, &HostRefusal::OutOfMemory),
    }
}

// `cat`: the bytes that a version of a path has.
fn cat<S: Alter, O: Write, E: Write>(
    alloc: Global,
    path: &str,
    version: FileVersion,
    store: &Store<S>,
    out: &mut O,
    err: &mut E,
) -> CommandEnding
    ensures { IsLookUp store.now.kept (Cat path.now version) (output_of (O.contents out.old) (O.contents out.new))
        (output_of (E.contents err.old) (E.contents err.new)) result }
{
    match legal_path(alloc, path) {
        Ok(path) => cat_at(&path, version, store, out, err),
        Err(refusal) => tell(err, &refusal),
    }
}

// `log`: the commits, the newest first.
fn log<S: Alter, O: Write, E: Write>(
    alloc: Global,
    store: &Store<S>,
    out: &mut O,
    err: &mut E,
) -> CommandEnding
    ensures { IsLookUp store.now.kept Log (output_of (O.contents out.old) (O.contents out.new))
        (output_of (E.contents err.old) (E.contents err.new)) result }
{
    match log_text(alloc, store) {
        Ok(text) => say(out, err, text.as_slice()),
        Err(OutOfMemory) => tell(err, &HostRefusal::OutOfMemory),
    }
}

// `show`: a commit's message and its paths.
fn show<S: Alter, O: Write, E: Write>(
    alloc: Global,
    number: u32,
    store: &Store<S>,
    out: &mut O,
    err: &mut E,
) -> CommandEnding
    ensures { IsLookUp store.now.kept (Show number) (output_of (O.contents out.old) (O.contents out.new))
        (output_of (E.contents err.old) (E.contents err.new)) result }
{
    match show_text(alloc, store, number) {
        Ok(Some(text)) => say(out, err, text.as_slice()),
        Ok(None) => tell_no_commit(err, number),
        Err(OutOfMemory) => tell(err, &HostRefusal::OutOfMemory),
    }
}

// `memory`: how many results are cached.
fn memory<S: Alter, O: Write, E: Write>(host: &Host<S>, out: &mut O, err: &mut E) -> CommandEnding
    ensures { IsLookUp host.now.store.kept Memory (output_of (O.contents out.old) (O.contents out.new))
        (output_of (E.contents err.old) (E.contents err.new)) result }
{
    say_remembered(out, err, host.remembered())
}

// Reads a text as a path.
fn legal_path(alloc: Global, text: &str) -> Result<RepoPath, HostRefusal>
    ensures same { IfOk result (λ path. path ≡ text.now) }
    ensures legal { OnOk result (IsLegal text.now) }
    ensures refused { IfErr result (IsPathRefusal text.now) }
{
    let path = RepoPath::read(alloc, text)?;
    Ok(path)
}

// Prints the bytes that a version of the path has.
fn cat_at<S: Alter, O: Write, E: Write>(
    path: &RepoPath,
    version: FileVersion,
    store: &Store<S>,
    out: &mut O,
    err: &mut E,
) -> CommandEnding
    requires { IsLegal path.now }
    ensures { IsLookUp store.now.kept (Cat path.now version) (output_of (O.contents out.old) (O.contents out.new))
        (output_of (E.contents err.old) (E.contents err.new)) result }
{
    match bytes_of(path, version, store) {
        Some(bytes) => say(out, err, bytes),
        None => tell_missing(path, version, store, err),
    }
}

fn bytes_of<'a, S: Alter>(
    path: &RepoPath,
    version: FileVersion,
    store: &'a Store<S>,
) -> Option<&'a [u8]>
    ensures { option_copied result ≡ bytes_in store.now.kept.repo version path.now }
{
    match version {
        FileVersion::Staged => store.staged_bytes(path),
        FileVersion::Fixed => store.fixed_bytes(path),
        FileVersion::Committed(number) => store.committed_bytes(number, path),
    }
}

// Reports why a version has no bytes of the path.
fn tell_missing<S: Alter, E: Write>(
    path: &RepoPath,
    version: FileVersion,
    store: &Store<S>,
    err: &mut E,
) -> CommandEnding
    ensures { (text : List ℕ) × IsMissingText store.now.kept.repo version path.now text
        × IsPrintedOnStandardError ends.Refused (output_of (E.contents err.old) (E.contents err.new)) text result }
{
    match version {
        FileVersion::Staged => tell(err, &HostRefusal::NotStaged),
        FileVersion::Fixed => tell_no_fixed(err, path.as_str()),
        FileVersion::Committed(number) if store.message_of(number).is_none() => {
            tell_no_commit(err, number)
        }
        FileVersion::Committed(number) => tell_no_file(err, number, path.as_str()),
    }
}
