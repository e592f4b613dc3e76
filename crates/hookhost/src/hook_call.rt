//! What the hooks of a stage of a commit ask of the store.
//!
//! The contracts cite `specs/StoreCalls.antt`.

ghost use Rattle.std.specs.Prelude.{◌≡◌, IfErr, IfOk};
ghost use Rattle.hookhost.specs.Stops.{IsStopOfHooks};
ghost use Rattle.hookhost.specs.StoreCalls.{IsHookCall, IsMessageCall, IsStageCall, options_of_hook};

use crate::message_file::MessageFile;
use crate::runs::{RealChildren, hook_needs};
use crate::stop::CommandStop;
use crate::store_call::{ReportChoice, StoreCall};
use commit_flow::{AskStage, Command, HostAsk, MessageAsk, MessageStage, Which};
use hook_base::{Bytes, Items, Text};
use hook_cli::{CommitHook, HookChoice};
use run_options::RunOptions;

// How the hooks of a stage are run.
#[derive(Drop)]
struct StageRun {
    skip: Items<Text>,
    fresh: bool,
    choice: HookChoice,
    children: RealChildren,
}

/// What the hooks of a stage ask of the store. The message is what its file held. A variable that children depend
/// on and that can't be used is `CommandStop::CannotUse`. Want of memory is `CommandStop::RefusedCommand`.
pub(crate) fn hook_call(
    rt: &HostRuntime,
    hook: CommitHook,
    fresh: bool,
    choice: HookChoice,
    message: Bytes,
) -> Result<StoreCall, CommandStop>
    ensures call { IfOk result (IsHookCall hook fresh choice message) }
    ensures stopped { IfErr result IsStopOfHooks }
{
    let (skip, children) = hook_needs(rt, choice.jobs).map_err(CommandStop::of_command)?;
    let run = StageRun {
        skip,
        fresh,
        choice,
        children,
    };
    Ok(match hook {
        CommitHook::PreCommit => run.on_files(Which::Changed, AskStage::PreCommit),
        CommitHook::PostCommit => {
            let none = Which::Named(Items::new(rt.alloc()));
            run.on_files(none, AskStage::PostCommit)
        }
        CommitHook::PrepareCommitMsg(name) => {
            run.on_message(MessageStage::PrepareCommitMsg, name, message)
        }
        CommitHook::CommitMsg(name) => run.on_message(MessageStage::CommitMsg, name, message),
    })
}

impl StageRun {
    // The call that makes the run on these files.
    fn on_files(self, which: Which, stage: AskStage) -> StoreCall
        ensures { IsStageCall which stage self.fresh self.choice result }
    {
        let StageRun {
            skip,
            fresh,
            choice,
            children,
        } = self;
        StoreCall::HookCommand {
            command: Command::Run {
                ask: HostAsk {
                    which,
                    only: None,
                    stage,
                    skip,
                    fresh,
                    options: options_of_hook(choice),
                },
            },
            shown: ReportChoice {
                color: choice.color,
                has_durations: false,
            },
            children,
        }
    }

    // The call that runs the hooks on the message in the file of this name.
    fn on_message(self, stage: MessageStage, name: Text, message: Bytes) -> StoreCall
        ensures { IsMessageCall stage self.fresh self.choice name message result }
    {
        let StageRun {
            skip,
            fresh,
            choice,
            children,
        } = self;
        StoreCall::MessageHooks {
            ask: MessageAsk {
                stage,
                skip,
                fresh,
                options: options_of_hook(choice),
            },
            file: MessageFile {
                name,
                bytes: message,
            },
            color: choice.color,
            children,
        }
    }
}

fn options_of_hook(choice: HookChoice) -> RunOptions
    ensures { result ≡ options_of_hook choice }
{
    RunOptions {
        cautious: choice.cautious,
        verbose: false,
    }
}
