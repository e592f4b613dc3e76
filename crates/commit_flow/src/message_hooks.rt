//! The hooks of a stage about a message, without a commit.

ghost use Rattle.child_port.specs.Telling.{SameTells};
ghost use Rattle.repo_store.specs.StoreBooks.{IsAtRest, remembered_by};
ghost use Rattle.hook_run.specs.Moments.{moment};
ghost use Rattle.commit_flow.specs.declared.command.Command.TheVariants.{Message};
ghost use Rattle.commit_flow.specs.Commands.{reply_of, reply_of_message};
ghost use Rattle.commit_flow.specs.MessageSteps.{IsMessageStep};
ghost use Rattle.commit_flow.specs.Stops.{IsPlayedSafely};

use crate::commit_stages::{StageEnd, run_stage};
use crate::commit_state::CommitState;
use crate::message_begun::{MessageBegun, begin_message, stage_of_message};
use crate::prepared::reuse_with;
use crate::{Host, HostRefusal, MessageAsk, MessageRun};
use child_port::Children;
use repo_store::Store;
use sqlite::Alter;
use std::alloc::Global;

impl<S: Alter> Host<S> {
    /// Runs the hooks of a stage about a message, without a commit, with what is cached and the children's
    /// outcomes. They get the staged files and this message as a commit gives them: in a file, which is the
    /// only one that they may get (githooks(5), "commit-msg"). Its bytes are these, with no line feed added.
    /// It answers what is reported and the message that is left, also if a hook failed. `fresh` and the options
    /// mean what they mean for a [`run`](Host::run).
    ///
    /// The commits, the staged files and the fixes stay: what hooks do to other files is dropped. Answers of
    /// children are cached in the store, each as soon as it is reported; one that changes files that its child
    /// hasn't seen isn't.
    ///
    /// Refusals come in this order:
    ///
    /// - before any child is started: a message of more than 16 MiB (`TooLarge`), no staged configuration
    ///   (`NoConfig`), and one that can't be read (`BadConfig`);
    /// - while hooks run: `Spent` if a child is needed and the children have reported as many outcomes as can
    ///   be counted; `Collision` or `Store` if the store can't cache an answer or look one up, which notes its
    ///   use.
    ///
    /// `OutOfMemory` comes if memory is refused. A refusal leaves the repository as it was too, the children
    /// with the outcomes that they have reported, and what was cached by then.
    pub fn message<C: Children>(
        &mut self,
        alloc: Global,
        children: &mut C,
        ask: &MessageAsk,
        message: &[u8],
    ) -> Result<MessageRun, HostRefusal>
        ensures step { IsMessageStep (C.tells children.old)
            (moment (C.call_count children.old) (C.fault_count children.old) (remembered_by self.old.store.kept))
            (moment (C.call_count children.new) (C.fault_count children.new) (remembered_by self.new.store.kept))
            self.old.store.kept.repo ask.now message.now (reply_of reply_of_message result)
            self.new.store.kept.repo }
        ensures rest { IsAtRest S.Store self.old.store self.new.store }
        ensures command { IsPlayedSafely S.Store (C.tells children.old)
            (moment (C.call_count children.old) (C.fault_count children.old) (remembered_by self.old.store.kept))
            (moment (C.call_count children.new) (C.fault_count children.new) (remembered_by self.new.store.kept))
            self.old.store self.new.store (Message ask.now message.now) (reply_of reply_of_message result) }
        ensures same { SameTells (C.tells children.old) (C.tells children.new) }
    {
        message_in(alloc, children, &mut self.store, ask, message)
    }
}

// The hooks, on the host's store.
fn message_in<C: Children, S: Alter>(
    alloc: Global,
    children: &mut C,
    store: &mut Store<S>,
    ask: &MessageAsk,
    message: &[u8],
) -> Result<MessageRun, HostRefusal>
    ensures step { IsMessageStep (C.tells children.old)
        (moment (C.call_count children.old) (C.fault_count children.old) (remembered_by store.old.kept))
        (moment (C.call_count children.new) (C.fault_count children.new) (remembered_by store.new.kept))
        store.old.kept.repo ask.now message.now (reply_of reply_of_message result) store.new.kept.repo }
    ensures rest { IsAtRest S.Store store.old store.new }
    ensures command { IsPlayedSafely S.Store (C.tells children.old)
        (moment (C.call_count children.old) (C.fault_count children.old) (remembered_by store.old.kept))
        (moment (C.call_count children.new) (C.fault_count children.new) (remembered_by store.new.kept)) store.old
        store.new (Message ask.now message.now) (reply_of reply_of_message result) }
    ensures same { SameTells (C.tells children.old) (C.tells children.new) }
{
    let begun = begin_message(alloc, store, ask.options, message)?;
    let MessageBegun { config, course } = begun;
    let stage = stage_of_message(ask.stage);
    let reuse = reuse_with(ask.fresh, ask.options);
    let skip = ask.skip.as_slice();
    let end = run_stage(
        alloc,
        children,
        store,
        &config,
        &[],
        skip,
        stage,
        reuse,
        course,
    )?;
    let StageEnd {
        passed,
        report,
        course: left,
    } = end;
    let CommitState { tree: _, message } = left;
    Ok(MessageRun {
        passed,
        report,
        message,
    })
}
