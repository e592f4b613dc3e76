//! The commands over a repository: each makes its call of the host, prints, and has an exit status.
//!
//! The contracts cite `specs/CommandOver.antt`.

ghost use Rattle.std.specs.Prelude.{◌≡◌, ◌⊎◌};
ghost use Rattle.child_port.specs.Telling.{SameTells};
ghost use Rattle.hook_cli.specs.CommandOver.{AreStagedOver, IsAcceptOver, IsAddOver, IsCalledBy, IsCommandOver, IsDoneOver, IsRemoveOver, counts_over};
ghost use Rattle.text_output.specs.Outputs.{IsSilent, Output, output_of};

use crate::CommandEnding;
use crate::command_ending::status_of;
use crate::over_answers::{forget, set_limit};
use crate::over_messages::run_message_hooks;
use crate::over_runs::{commit, run};
use crate::over_staging::staged;
use crate::printing::{say_accepted, tell};
use child_port::Children;
use commit_flow::{Command, Host, StagingEdits};
use hook_base::Mode;
use sqlite::Alter;
use std::alloc::Global;
use std::io::Write;

/// Makes the host's call for a command, prints what the call answers, and answers the exit status.
///
/// The exit status is 0 if the command is done. `out` then has its text, and nothing else:
///
/// - changes of the staged files print nothing;
/// - `Accept` prints how many fixes there were, and `Forget` how many cached results there were;
/// - `Limit` prints how many results are left in the cache;
/// - a run prints the report of its hooks, a line for each unsteady one, and if it is verbose how many
///   commands were answered from the cache;
/// - hooks about a message print what is reported of them;
/// - a commit prints the reports of its stages and its number. If the post-commit hooks are stopped, `err`
///   says why, and the status is 0 all the same.
///
/// It is 1 if a hook failed in a run, about a message or before a commit; `out` has what is reported.
///
/// It is 3 if the command is refused. `err` then has `hookhost: refused: NUMBER NAME`, with the inner number
/// if the refusal has one, and `out` nothing. If one of several changes is refused alone, the next line of
/// `err` is `hookhost: at PATH`, with the path of that change. A path whose bytes would end the line is in
/// double quotes, as Git writes it. Want of memory is refused as `OutOfMemory`.
///
/// It is 3 too if a writer gives an error: what it took before is out, and what the command changed remains.
/// If it was `out`, `err` has `hookhost: standard output was not taken`. For a commit
/// `hookhost: commit N was made` follows, and then why the post-commit hooks were stopped.
///
/// A refusal leaves the repository as it was. `Forget` and `Limit` change the cached results alone, and
/// nothing if they are refused. Only runs, hooks about a message and commits start children, and cache what
/// these answered.
pub fn command_over<S: Alter, C: Children, O: Write, E: Write>(
    alloc: Global,
    command: &Command,
    host: &mut Host<S>,
    children: &mut C,
    out: &mut O,
    err: &mut E,
) -> u8
    ensures done { IsCommandOver S.Store (C.tells children.old)
        (counts_over C.call_count C.fault_count children.old children.new) host.old host.new command.now
        (output_of (O.contents out.old) (O.contents out.new)) (output_of (E.contents err.old) (E.contents err.new))
        result }
    ensures same { SameTells (C.tells children.old) (C.tells children.new) }
    ensures one_of { (result ≡ 0) ⊎ (result ≡ 1) ⊎ (result ≡ 3) }
{
    status_of(end_of(alloc, command, host, children, out, err))
}

fn end_of<S: Alter, C: Children, O: Write, E: Write>(
    alloc: Global,
    command: &Command,
    host: &mut Host<S>,
    children: &mut C,
    out: &mut O,
    err: &mut E,
) -> CommandEnding
    ensures over { IsDoneOver S.Store (C.tells children.old)
        (counts_over C.call_count C.fault_count children.old children.new) host.old host.new command.now
        (output_of (O.contents out.old) (O.contents out.new)) (output_of (E.contents err.old) (E.contents err.new))
        result }
    ensures called { IsCalledBy command.now (counts_over C.call_count C.fault_count children.old children.new) }
    ensures same { SameTells (C.tells children.old) (C.tells children.new) }
{
    match command {
        Command::Add { path, bytes, mode } => {
            add(alloc, path.as_str(), bytes.as_slice(), *mode, host, err)
        }
        Command::Remove { path } => remove(alloc, path.as_str(), host, err),
        Command::Stage { edits } => stage(edits, host, err),
        Command::Accept => accept(host, out, err),
        Command::Run { ask } => run(alloc, ask, host, children, out, err),
        Command::Message { ask, message } => {
            run_message_hooks(alloc, ask, message.as_slice(), host, children, out, err)
        }
        Command::Commit {
            message,
            no_verify,
            skip,
        } => commit(
            alloc,
            message.as_slice(),
            *no_verify,
            skip.as_slice(),
            host,
            children,
            out,
            err,
        ),
        Command::Forget => forget(host, out, err),
        Command::Limit { most } => set_limit(most, host, out, err),
    }
}

// Stages the bytes at a path. It prints nothing on standard output.
fn add<S: Alter, E: Write>(
    alloc: Global,
    path: &str,
    bytes: &[u8],
    mode: Option<Mode>,
    host: &mut Host<S>,
    err: &mut E,
) -> CommandEnding
    ensures { (out : Output) → IsSilent out
        → IsAddOver S.Store host.old host.new path.now bytes.now mode out
        (output_of (E.contents err.old) (E.contents err.new)) result }
{
    match host.add(alloc, path, bytes, mode) {
        Ok(()) => CommandEnding::Done,
        Err(refusal) => tell(err, &refusal),
    }
}

// Removes a path from the staged files. It prints nothing on standard output.
fn remove<S: Alter, E: Write>(
    alloc: Global,
    path: &str,
    host: &mut Host<S>,
    err: &mut E,
) -> CommandEnding
    ensures { (out : Output) → IsSilent out
        → IsRemoveOver S.Store host.old host.new path.now out (output_of (E.contents err.old) (E.contents err.new))
        result }
{
    match host.remove(alloc, path) {
        Ok(()) => CommandEnding::Done,
        Err(refusal) => tell(err, &refusal),
    }
}

// Makes several changes of the staged files, all or none. It prints nothing on standard output.
fn stage<S: Alter, E: Write>(edits: &StagingEdits, host: &mut Host<S>, err: &mut E) -> CommandEnding
    ensures { (out : Output) → IsSilent out
        → AreStagedOver S.Store host.old host.new edits.now out (output_of (E.contents err.old) (E.contents err.new))
        result }
{
    staged(edits.as_slice(), host, err)
}

// Applies the fixes to the staged files. It prints how many there were.
fn accept<S: Alter, O: Write, E: Write>(
    host: &mut Host<S>,
    out: &mut O,
    err: &mut E,
) -> CommandEnding
    ensures { IsAcceptOver S.Store host.old host.new (output_of (O.contents out.old) (O.contents out.new))
        (output_of (E.contents err.old) (E.contents err.new)) result }
{
    match host.accept() {
        Ok(number) => say_accepted(out, err, number),
        Err(refusal) => tell(err, &refusal),
    }
}
