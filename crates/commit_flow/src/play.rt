//! A list of commands, made one after another.

ghost use Rattle.std.specs.Prelude.{◌≡◌, [], IfOk, OnErr};
ghost use Rattle.child_port.specs.Telling.{SameTells};
ghost use Rattle.hook_run.specs.Moments.{moment};
ghost use Rattle.repo_store.specs.Shown.{Stands};
ghost use Rattle.repo_store.specs.StoreBooks.{remembered_by};
ghost use Rattle.commit_flow.specs.declared.command.Command.TheVariants.{Add, Remove, Stage, Accept, Run, Message, Commit, Forget, Limit};
ghost use Rattle.commit_flow.specs.Commands.{reply_of_ending};
ghost use Rattle.commit_flow.specs.Plays.{HasForgotten, HasLimited, IsPlay};
ghost use Rattle.commit_flow.specs.StoppedPlays.{IsSafePlay};
ghost use Rattle.commit_flow.specs.Stops.{IsOneCommand, IsPlayedSafely};
ghost use Rattle.commit_flow.specs.Steps.{Step};

use crate::{
    Command, CommitEnding, Host, HostAsk, MessageAsk, MessageRun, Reply, StagedRun, StagingEdits,
};
use child_port::Children;
use hook_base::{Bytes, Items, Mode, OutOfMemory, Text};
use sqlite::Alter;
use std::alloc::Global;
use store_faults::AnswerLimit;

impl<S: Alter> Host<S> {
    /// Runs the commands in order, each on what the one before it left, cached results included, and answers
    /// their replies. A refused command has a reply like any other, and those after it are run too.
    ///
    /// `OutOfMemory` comes if there is no room for the replies. Then nothing is done.
    pub fn play<C: Children>(
        &mut self,
        alloc: Global,
        children: &mut C,
        commands: &[Command],
    ) -> Result<Vec<Reply>, OutOfMemory>
        ensures run { IfOk result (λ replies. IsPlay (C.tells children.old)
            (moment (C.call_count children.old) (C.fault_count children.old) (remembered_by self.old.store.kept))
            (moment (C.call_count children.new) (C.fault_count children.new) (remembered_by self.new.store.kept))
            self.old.store.kept.repo commands.now replies.items self.new.store.kept.repo) }
        ensures safe { IfOk result (λ replies. IsSafePlay S.Store (C.tells children.old)
            (moment (C.call_count children.old) (C.fault_count children.old) (remembered_by self.old.store.kept))
            (moment (C.call_count children.new) (C.fault_count children.new) (remembered_by self.new.store.kept))
            self.old.store self.new.store commands.now replies.items) }
        ensures stands { Stands S.Store self.old.store.conn self.old.store.kept
            → Stands S.Store self.new.store.conn self.new.store.kept }
        ensures refused { OnErr result (self.new ≡ self.old) }
        ensures uncalled { OnErr result (children.new ≡ children.old) }
        ensures same { SameTells (C.tells children.old) (C.tells children.new) }
    {
        let mut replies = Vec::with_capacity(alloc, commands.len())?;
        'commands: for command in commands {
            let reply = self.played(alloc, children, command);
            replies.push_reserved(reply);
        }
        Ok(replies)
    }

    // Runs a command.
    fn played<C: Children>(&mut self, alloc: Global, children: &mut C, command: &Command) -> Reply
        ensures played { IsPlayedSafely S.Store (C.tells children.old)
            (moment (C.call_count children.old) (C.fault_count children.old) (remembered_by self.old.store.kept))
            (moment (C.call_count children.new) (C.fault_count children.new) (remembered_by self.new.store.kept))
            self.old.store self.new.store command.now result }
        ensures same { SameTells (C.tells children.old) (C.tells children.new) }
    {
        match command {
            Command::Add { path, bytes, mode } => self.play_add(alloc, path, bytes, *mode),
            Command::Remove { path } => self.play_remove(alloc, path),
            Command::Stage { edits } => self.play_stage(edits),
            Command::Accept => self.play_accept(),
            Command::Run { ask } => self.play_run(alloc, children, ask),
            Command::Message { ask, message } => self.play_message(alloc, children, ask, message),
            Command::Commit {
                message,
                no_verify,
                skip,
            } => self.play_commit(alloc, children, message, *no_verify, skip),
            Command::Forget => self.play_forget(),
            Command::Limit { most } => self.play_limit(most),
        }
    }

    fn play_add(&mut self, alloc: Global, path: &Text, bytes: &Bytes, mode: Option<Mode>) -> Reply
        ensures step { Step self.old.store.kept.repo (Add path.now bytes.now mode) result [] self.new.store.kept.repo }
        ensures one { IsOneCommand S.Store self.old.store self.new.store (Add path.now bytes.now mode) result }
        ensures answers { self.new.store.kept.answers ≡ self.old.store.kept.answers }
        ensures limit { self.new.store.kept.limit ≡ self.old.store.kept.limit }
    {
        match self.add(alloc, path.as_str(), bytes.as_slice(), mode) {
            Ok(()) => Reply::Added,
            Err(refusal) => Reply::Refused(refusal),
        }
    }

    fn play_remove(&mut self, alloc: Global, path: &Text) -> Reply
        ensures step { Step self.old.store.kept.repo (Remove path.now) result [] self.new.store.kept.repo }
        ensures one { IsOneCommand S.Store self.old.store self.new.store (Remove path.now) result }
        ensures answers { self.new.store.kept.answers ≡ self.old.store.kept.answers }
        ensures limit { self.new.store.kept.limit ≡ self.old.store.kept.limit }
    {
        match self.remove(alloc, path.as_str()) {
            Ok(()) => Reply::Removed,
            Err(refusal) => Reply::Refused(refusal),
        }
    }

    fn play_stage(&mut self, edits: &StagingEdits) -> Reply
        ensures step { Step self.old.store.kept.repo (Stage edits.now) result [] self.new.store.kept.repo }
        ensures one { IsOneCommand S.Store self.old.store self.new.store (Stage edits.now) result }
        ensures remembered { remembered_by self.new.store.kept ≡ remembered_by self.old.store.kept }
    {
        match self.stage_all(edits.as_slice()) {
            Ok(()) => Reply::Staged,
            Err(stop) => Reply::EditRefused(stop),
        }
    }

    fn play_accept(&mut self) -> Reply
        ensures step { Step self.old.store.kept.repo Accept result [] self.new.store.kept.repo }
        ensures one { IsOneCommand S.Store self.old.store self.new.store Accept result }
        ensures answers { self.new.store.kept.answers ≡ self.old.store.kept.answers }
        ensures limit { self.new.store.kept.limit ≡ self.old.store.kept.limit }
    {
        match self.accept() {
            Ok(number) => Reply::Accepted(number),
            Err(refusal) => Reply::Refused(refusal),
        }
    }

    fn play_run<C: Children>(&mut self, alloc: Global, children: &mut C, ask: &HostAsk) -> Reply
        ensures played { IsPlayedSafely S.Store (C.tells children.old)
            (moment (C.call_count children.old) (C.fault_count children.old) (remembered_by self.old.store.kept))
            (moment (C.call_count children.new) (C.fault_count children.new) (remembered_by self.new.store.kept))
            self.old.store self.new.store (Run ask.now) result }
        ensures same { SameTells (C.tells children.old) (C.tells children.new) }
    {
        match self.run(alloc, children, ask) {
            Ok(
                StagedRun {
                    passed,
                    report,
                    changes,
                    unsteady,
                    reused: _,
                },
            ) => Reply::Ran {
                passed,
                report,
                changes,
                unsteady,
            },
            Err(refusal) => Reply::Refused(refusal),
        }
    }

    fn play_message<C: Children>(
        &mut self,
        alloc: Global,
        children: &mut C,
        ask: &MessageAsk,
        message: &Bytes,
    ) -> Reply
        ensures played { IsPlayedSafely S.Store (C.tells children.old)
            (moment (C.call_count children.old) (C.fault_count children.old) (remembered_by self.old.store.kept))
            (moment (C.call_count children.new) (C.fault_count children.new) (remembered_by self.new.store.kept))
            self.old.store self.new.store (Message ask.now message.now) result }
        ensures same { SameTells (C.tells children.old) (C.tells children.new) }
    {
        match self.message(alloc, children, ask, message.as_slice()) {
            Ok(
                MessageRun {
                    passed,
                    report,
                    message,
                },
            ) => Reply::MessageRan {
                passed,
                report,
                message,
            },
            Err(refusal) => Reply::Refused(refusal),
        }
    }

    fn play_commit<C: Children>(
        &mut self,
        alloc: Global,
        children: &mut C,
        message: &Bytes,
        no_verify: bool,
        skip: &Items<Text>,
    ) -> Reply
        ensures played { IsPlayedSafely S.Store (C.tells children.old)
            (moment (C.call_count children.old) (C.fault_count children.old) (remembered_by self.old.store.kept))
            (moment (C.call_count children.new) (C.fault_count children.new) (remembered_by self.new.store.kept))
            self.old.store self.new.store (Commit message.now no_verify skip.now) result }
        ensures same { SameTells (C.tells children.old) (C.tells children.new) }
    {
        match self.commit(
            alloc,
            children,
            message.as_slice(),
            no_verify,
            skip.as_slice(),
        ) {
            Ok(ending) => reply_of_ending(ending),
            Err(refusal) => Reply::Refused(refusal),
        }
    }

    fn play_forget(&mut self) -> Reply
        ensures step { Step self.old.store.kept.repo Forget result [] self.new.store.kept.repo }
        ensures one { IsOneCommand S.Store self.old.store self.new.store Forget result }
        ensures forgotten { HasForgotten (remembered_by self.old.store.kept) (remembered_by self.new.store.kept)
            result }
    {
        match self.forget() {
            Ok(number) => Reply::Forgot(number),
            Err(refusal) => Reply::Refused(refusal),
        }
    }

    fn play_limit(&mut self, most: &AnswerLimit) -> Reply
        ensures step { Step self.old.store.kept.repo (Limit most.now) result [] self.new.store.kept.repo }
        ensures one { IsOneCommand S.Store self.old.store self.new.store (Limit most.now) result }
        ensures limited { HasLimited most.now (remembered_by self.old.store.kept) (remembered_by self.new.store.kept)
            result }
    {
        match self.set_limit(most.number()) {
            Ok(number) => Reply::Limited(number),
            Err(refusal) => Reply::Refused(refusal),
        }
    }
}

fn reply_of_ending(ending: CommitEnding) -> Reply
    ensures { result ≡ reply_of_ending ending }
{
    match ending {
        CommitEnding::Committed {
            number,
            reports,
            post,
        } => Reply::Committed {
            number,
            reports,
            post,
        },
        CommitEnding::HooksFailed { stage, reports } => Reply::HooksFailed { stage, reports },
    }
}
