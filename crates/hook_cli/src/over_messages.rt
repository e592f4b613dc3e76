//! Hooks about a message, over a repository.
//!
//! The contracts cite `specs/CommandOver.antt`.

ghost use Rattle.std.specs.Prelude.{◌≡◌, ◌⊎◌};
ghost use Rattle.child_port.specs.Telling.{SameTells};
ghost use Rattle.hook_cli.specs.CommandOver.{IsDoneOver, IsMessageOver, IsMessageOverHost, counts_over, message_given};
ghost use Rattle.commit_flow.specs.declared.command.Command.TheVariants.{Message};
ghost use Rattle.text_output.specs.Outputs.{output_of};

use crate::CommandEnding;
use crate::command_ending::status_of;
use crate::printing::tell;
use crate::run_printing::say_message;
use child_port::Children;
use commit_flow::{Host, MessageAsk, MessageRun};
use hook_base::Content;
use sqlite::Alter;
use std::alloc::Global;
use std::io::Write;

/// How hooks about a message ended, with the message that they leave.
#[derive(Debug, Drop)]
pub struct MessageOver {
    /// The exit status: 0, 1 or 3.
    pub status: u8,
    /// The message that the hooks leave, if the status is 0. It has the bytes that they got, unless one changed
    /// them.
    pub message: Option<Content>,
}

// The same, by its ending.
#[derive(Drop)]
struct MessageAnswered {
    ending: CommandEnding,
    message: Option<Content>,
}

/// Makes the host's call for hooks about a message, prints what it answers as [`command_over`] does, and
/// answers the exit status and the message that the hooks leave.
///
/// The exit status is 0 if no hook failed and `out` took the report, 1 if one failed, and 3 if the call is
/// refused or a writer gave an error. Only with 0 there is a message. Nothing of the repository changes, but
/// answers of children are cached.
///
/// [`command_over`]: crate::command_over
pub fn message_over<S: Alter, C: Children, O: Write, E: Write>(
    alloc: Global,
    ask: &MessageAsk,
    message: &[u8],
    host: &mut Host<S>,
    children: &mut C,
    out: &mut O,
    err: &mut E,
) -> MessageOver
    ensures over { IsMessageOver S.Store (C.tells children.old)
        (counts_over C.call_count C.fault_count children.old children.new) host.old host.new ask.now message.now
        (output_of (O.contents out.old) (O.contents out.new)) (output_of (E.contents err.old) (E.contents err.new))
        result.message result.status }
    ensures same { SameTells (C.tells children.old) (C.tells children.new) }
    ensures one_of { (result.status ≡ 0) ⊎ (result.status ≡ 1) ⊎ (result.status ≡ 3) }
{
    let answered = hooks_of_message(alloc, ask, message, host, children, out, err);
    let MessageAnswered { ending, message } = answered;
    MessageOver {
        status: status_of(ending),
        message,
    }
}

/// The same as a command, without the message that the hooks leave.
pub(crate) fn run_message_hooks<S: Alter, C: Children, O: Write, E: Write>(
    alloc: Global,
    ask: &MessageAsk,
    message: &[u8],
    host: &mut Host<S>,
    children: &mut C,
    out: &mut O,
    err: &mut E,
) -> CommandEnding
    ensures over { IsDoneOver S.Store (C.tells children.old)
        (counts_over C.call_count C.fault_count children.old children.new)
        host.old host.new (Message ask.now message.now)
        (output_of (O.contents out.old) (O.contents out.new)) (output_of (E.contents err.old) (E.contents err.new))
        result }
    ensures same { SameTells (C.tells children.old) (C.tells children.new) }
{
    let answered = hooks_of_message(alloc, ask, message, host, children, out, err);
    let MessageAnswered { ending, message: _ } = answered;
    ending
}

fn hooks_of_message<S: Alter, C: Children, O: Write, E: Write>(
    alloc: Global,
    ask: &MessageAsk,
    message: &[u8],
    host: &mut Host<S>,
    children: &mut C,
    out: &mut O,
    err: &mut E,
) -> MessageAnswered
    ensures over { IsMessageOverHost S.Store (C.tells children.old)
        (counts_over C.call_count C.fault_count children.old children.new) host.old host.new ask.now message.now
        (output_of (O.contents out.old) (O.contents out.new)) (output_of (E.contents err.old) (E.contents err.new))
        result.message result.ending }
    ensures same { SameTells (C.tells children.old) (C.tells children.new) }
{
    match host.message(alloc, children, ask, message) {
        Ok(ran) => {
            let MessageRun {
                passed,
                report,
                message,
            } = ran;
            let ending = say_message(out, err, report.as_slice(), passed);
            MessageAnswered {
                ending,
                message: message_at(ending, message),
            }
        }
        Err(refusal) => MessageAnswered {
            ending: tell(err, &refusal),
            message: None,
        },
    }
}

// The message, if the hooks passed and their report is out.
fn message_at(ending: CommandEnding, message: Content) -> Option<Content>
    ensures { result ≡ message_given message ending }
{
    match ending {
        CommandEnding::Done => Some(message),
        CommandEnding::Failed
        | CommandEnding::Refused
        | CommandEnding::CutOff
        | CommandEnding::Untold => None,
    }
}
