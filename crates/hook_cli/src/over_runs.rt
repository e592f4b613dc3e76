//! The commands over a repository that run hooks.
//!
//! The contracts cite `specs/CommandOver.antt`.

ghost use Rattle.child_port.specs.Telling.{SameTells};
ghost use Rattle.commit_flow.specs.Commands.{reply_of_ending};
ghost use Rattle.hook_cli.specs.CommandOver.{IsCommitOverHost, IsReplied, IsRunOverHost, counts_over};
ghost use Rattle.text_output.specs.Outputs.{output_of};

use crate::CommandEnding;
use crate::printing::tell;
use crate::run_printing::{say_commit, say_failure, say_run};
use child_port::Children;
use commit_flow::{CommitEnding, Host, HostAsk};
use hook_base::Text;
use sqlite::Alter;
use std::alloc::Global;
use std::io::Write;

/// A run of hooks on the staged files. It prints what is reported of the hooks, which of them are unsteady, and
/// if it is verbose how many commands were answered from the cache.
pub(crate) fn run<S: Alter, C: Children, O: Write, E: Write>(
    alloc: Global,
    ask: &HostAsk,
    host: &mut Host<S>,
    children: &mut C,
    out: &mut O,
    err: &mut E,
) -> CommandEnding
    ensures run { IsRunOverHost S.Store (C.tells children.old)
        (counts_over C.call_count C.fault_count children.old children.new) host.old host.new ask.now
        (output_of (O.contents out.old) (O.contents out.new)) (output_of (E.contents err.old) (E.contents err.new))
        result }
    ensures same { SameTells (C.tells children.old) (C.tells children.new) }
{
    match host.run(alloc, children, ask) {
        Ok(ran) => say_run(out, err, &ran, ask.options.verbose),
        Err(refusal) => tell(err, &refusal),
    }
}

/// A commit of the staged files through their hooks. It prints what is reported of the hooks, and the commit's
/// number if it was made.
pub(crate) fn commit<S: Alter, C: Children, O: Write, E: Write>(
    alloc: Global,
    message: &[u8],
    no_verify: bool,
    skip: &[Text],
    host: &mut Host<S>,
    children: &mut C,
    out: &mut O,
    err: &mut E,
) -> CommandEnding
    ensures commit { IsCommitOverHost S.Store (C.tells children.old)
        (counts_over C.call_count C.fault_count children.old children.new)
        host.old host.new message.now no_verify skip.now
        (output_of (O.contents out.old) (O.contents out.new)) (output_of (E.contents err.old) (E.contents err.new))
        result }
    ensures same { SameTells (C.tells children.old) (C.tells children.new) }
{
    match host.commit(alloc, children, message, no_verify, skip) {
        Ok(ending) => say_ending(out, err, &ending),
        Err(refusal) => tell(err, &refusal),
    }
}

fn say_ending<O: Write, E: Write>(out: &mut O, err: &mut E, ending: &CommitEnding) -> CommandEnding
    ensures { IsReplied (output_of (O.contents out.old) (O.contents out.new))
        (output_of (E.contents err.old) (E.contents err.new)) (reply_of_ending ending.now) result }
{
    match ending {
        CommitEnding::Committed {
            number,
            reports,
            post,
        } => say_commit(out, err, *number, reports.as_slice(), post),
        CommitEnding::HooksFailed { stage: _, reports } => say_failure(
            out,
            err,
            reports.as_slice(),
        ),
    }
}
