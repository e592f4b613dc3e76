//! What a line asks of the store, with all that it needs of the working folder.
//!
//! The contracts cite `specs/StoreCalls.antt`.

ghost use Rattle.std.specs.Prelude.{◌≡◌, IfErr, IfOk};
ghost use Rattle.command_line.specs.declared.line.PathSource.{PathSource};
ghost use Rattle.command_line.specs.declared.line.PathSource.TheVariants.{Words};
ghost use Rattle.hookhost.specs.Stops.{IsStopOfReading, IsStopOfCall};
ghost use Rattle.hookhost.specs.StoreCalls.{IsAddCall, IsCallOf, IsUnstageCall, ask_stage_of_choice, options_of, which_of};

use crate::hook_call::hook_call;
use crate::line_files::LineFiles;
use crate::message_file::MessageFile;
use crate::runs::{RealChildren, hook_needs};
use crate::staged_words::{bytes_of, folder_of, staged_by};
use crate::stop::CommandStop;
use commit_flow::{AskStage, Command, HostAsk, MessageAsk, StagingEdits, Which};
use hook_base::{Bytes, Items, Mode, Text};
use hook_cli::{ColorChoice, FileChoice, LookUp, PathSource, RunChoice, StageChoice, Update};
use run_options::RunOptions;
use std::rt::Files;

/// What is asked of the store.
#[derive(Drop)]
pub(crate) enum StoreCall {
    /// A look-up.
    LookUp(LookUp),
    /// A command that runs no hooks.
    Command(Command),
    /// A command that runs hooks.
    HookCommand {
        /// The command.
        command: Command,
        /// How its report is shown.
        shown: ReportChoice,
        /// The children that run the hooks' commands.
        children: RealChildren,
    },
    /// Hooks about a message.
    MessageHooks {
        /// What is asked of them.
        ask: MessageAsk,
        /// The file of the message.
        file: MessageFile,
        /// When the report has colors.
        color: ColorChoice,
        /// The children that run the hooks' commands.
        children: RealChildren,
    },
    /// Staged files to unstage, all or none.
    Unstage {
        /// What names them, or folders of them.
        words: Items<Text>,
        /// Whether a file lists these words.
        is_listed: bool,
    },
    /// No change: the words name folders without files.
    Nothing,
}

/// How the report of hooks is shown.
#[derive(Clone, Copy, Debug)]
pub(crate) struct ReportChoice {
    /// When it has colors.
    pub(crate) color: ColorChoice,
    /// Whether it says how long commands took.
    pub(crate) has_durations: bool,
}

/// What an update asks of the store, with what its files hold. What it stages is read, each file once and up to one
/// byte past the limit: the host refuses a longer one. A word that can't be used is `CommandStop::CannotUse`, and so
/// is a variable that children depend on. Want of memory is `CommandStop::RefusedCommand`, also for what runs of
/// hooks need.
pub(crate) fn call_of(
    rt: &HostRuntime,
    update: Update,
    files: LineFiles,
) -> Result<StoreCall, CommandStop>
    ensures call { IfOk result (IsCallOf update files.names files.message) }
    ensures stopped { IfErr result (IsStopOfCall update) }
{
    let LineFiles { names, message } = files;
    match update {
        Update::Add { paths, mode } => add_call(rt, paths, names, mode).map_err(
            CommandStop::of_command,
        ),
        Update::Remove { paths } => Ok(unstage_call(paths, names)),
        Update::Run {
            files,
            only,
            stage,
            fresh,
            options,
        } => {
            let (skip, children) = hook_needs(rt, options.jobs).map_err(CommandStop::of_command)?;
            let ask = HostAsk {
                which: which_of(files, names),
                only,
                stage: ask_stage_of_choice(stage),
                skip,
                fresh,
                options: options_of(options),
            };
            Ok(StoreCall::HookCommand {
                command: Command::Run { ask },
                shown: ReportChoice {
                    color: options.color,
                    has_durations: options.verbose,
                },
                children,
            })
        }
        Update::Hook {
            hook,
            fresh,
            options,
        } => hook_call(rt, hook, fresh, options, message),
        Update::Accept => Ok(StoreCall::Command(Command::Accept)),
        Update::Commit {
            message: text,
            no_verify,
            color,
            jobs,
        } => {
            let (skip, children) = hook_needs(rt, jobs).map_err(CommandStop::of_command)?;
            Ok(StoreCall::HookCommand {
                command: Command::Commit {
                    message: message_of(text),
                    no_verify,
                    skip,
                },
                shown: ReportChoice {
                    color,
                    has_durations: false,
                },
                children,
            })
        }
        Update::Forget => Ok(StoreCall::Command(Command::Forget)),
        Update::Limit(most) => Ok(StoreCall::Command(Command::Limit { most })),
    }
}

fn add_call<R: Files + AllocGlobal>(
    rt: &R,
    paths: PathSource,
    names: Items<Text>,
    mode: Option<Mode>,
) -> Result<StoreCall, CommandStop>
    ensures call { IfOk result (IsAddCall paths mode) }
    ensures stopped { IfErr result IsStopOfReading }
{
    let PathSource::Words(words) = paths else {
        return stage_call(rt, names.as_slice(), mode);
    };
    add_words(rt, words, mode)
}

// A single word that names no folder is a command of its own.
fn add_words<R: Files + AllocGlobal>(
    rt: &R,
    words: Items<Text>,
    mode: Option<Mode>,
) -> Result<StoreCall, CommandStop>
    ensures call { IfOk result (IsAddCall (Words words) mode) }
    ensures stopped { IfErr result IsStopOfReading }
{
    let [word] = words.as_slice() else {
        return stage_call(rt, words.as_slice(), mode);
    };
    if folder_of(rt, word.as_str())?.is_some() {
        return stage_call(rt, words.as_slice(), mode);
    }
    let bytes = bytes_of(rt, word)?;
    Ok(StoreCall::Command(Command::Add {
        path: word.clone()?,
        bytes: Bytes::from(bytes),
        mode,
    }))
}

// The changes that stage the files of the words, together.
fn stage_call<R: Files + AllocGlobal>(
    rt: &R,
    words: &[Text],
    mode: Option<Mode>,
) -> Result<StoreCall, CommandStop>
    ensures call { (paths : PathSource) → IfOk result (IsAddCall paths mode) }
    ensures stopped { IfErr result IsStopOfReading }
{
    let edits = staged_by(rt, words, mode)?;
    match StagingEdits::of(edits) {
        Some(edits) => Ok(StoreCall::Command(Command::Stage { edits })),
        None => Ok(StoreCall::Nothing),
    }
}

// The words that name what is unstaged: those of the line, or those that its file lists.
fn unstage_call(paths: PathSource, names: Items<Text>) -> StoreCall
    ensures { IsUnstageCall paths names result }
{
    match paths {
        PathSource::Words(words) => StoreCall::Unstage {
            words,
            is_listed: false,
        },
        PathSource::Listed(_from) => StoreCall::Unstage {
            words: names,
            is_listed: true,
        },
    }
}

// The files of a run, of which those that a file lists are given by their names.
fn which_of(files: FileChoice, names: Items<Text>) -> Which
    ensures { result ≡ which_of files names }
{
    match files {
        FileChoice::Changed => Which::Changed,
        FileChoice::All => Which::All,
        FileChoice::Named(paths) => Which::Named(paths),
        FileChoice::Listed(_from) => Which::Named(names),
    }
}

fn ask_stage_of_choice(stage: StageChoice) -> AskStage
    ensures { result ≡ ask_stage_of_choice stage }
{
    match stage {
        StageChoice::PreCommit => AskStage::PreCommit,
        StageChoice::Manual => AskStage::Manual,
    }
}

fn options_of(choice: RunChoice) -> RunOptions
    ensures { result ≡ options_of choice }
{
    RunOptions {
        cautious: choice.cautious,
        verbose: choice.verbose,
    }
}

// The bytes of a message. It takes no memory.
fn message_of(message: Text) -> Bytes
    ensures { result ≡ message }
{
    Bytes::from(message.into_string().into_bytes())
}
