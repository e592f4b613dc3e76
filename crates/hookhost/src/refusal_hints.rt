//! The next step after a command on the repository.

ghost use Rattle.std.specs.Prelude.{◌≡◌};
ghost use Rattle.hookhost.specs.StoreNeeds.{call_needs, command_needs};

use crate::files::read_up_to;
use crate::hint::{hint_step, hint_undone, is_heard};
use crate::stop_hints::{CONFIGURATION, is_missing};
use crate::store_call::StoreCall;
use commit_flow::Command;
use hook_base::RepoPath;
use hook_cli::MOST_CONFIGURATION_BYTES;
use hook_config::{ConfigKind, read_config};
use next_steps::{
    Advice, CommandEnd, ConfigurationState, Requirement, advice_after, configuration_step,
};
use repo_store::Store;
use sqlite::Alter;

/// What a call needs of the repository.
pub(crate) fn need_of(call: &StoreCall) -> Requirement
    ensures { result ≡ call_needs call.now }
{
    match call {
        StoreCall::HookCommand { .. } | StoreCall::MessageHooks { .. } => {
            Requirement::Configuration
        }
        StoreCall::Command(command) => need_of_command(command),
        StoreCall::LookUp(_) | StoreCall::Unstage { .. } | StoreCall::Nothing => {
            Requirement::Nothing
        }
    }
}

// What a command that runs no hooks needs.
fn need_of_command(command: &Command) -> Requirement
    ensures { result ≡ command_needs command.now }
{
    match command {
        Command::Accept => Requirement::Fixes,
        Command::Add { .. }
        | Command::Remove { .. }
        | Command::Stage { .. }
        | Command::Run { .. }
        | Command::Message { .. }
        | Command::Commit { .. }
        | Command::Forget
        | Command::Limit { .. } => Requirement::Nothing,
    }
}

/// Says the next step after a command that ended with this exit status, if there is one. `undone` is the path
/// whose fix it undid.
pub(crate) fn hint_after<S: Alter>(
    rt: &HostRuntime,
    status: u8,
    undone: Option<RepoPath>,
    needs: Requirement,
    store: &Store<S>,
) {
    if !is_heard(rt) {
        return;
    }
    let advice = advice_after(CommandEnd {
        status,
        is_undoing: undone.is_some(),
        has_fixes: store.count_fixes() > 0,
        needs,
    });
    match (advice, undone) {
        (Advice::UndoneFix, Some(path)) => hint_undone(rt, &path),
        (Advice::Step(step), _) => hint_step(rt, step),
        (Advice::OfConfiguration, _) => hint_configuration(rt, store),
        _ => {}
    }
}

fn hint_configuration<S: Alter>(rt: &HostRuntime, store: &Store<S>) {
    if let Some(step) = configuration_step(configuration_of(rt, store)) {
        hint_step(rt, step);
    }
}

// How the configuration of the repository is.
fn configuration_of<S: Alter>(rt: &HostRuntime, store: &Store<S>) -> ConfigurationState {
    // It can't be learned without memory, and then there is no hint.
    let Ok(path) = RepoPath::read(rt.alloc(), CONFIGURATION) else {
        return ConfigurationState::Taken;
    };
    match store.staged_bytes(&path) {
        None => ConfigurationState::NotStaged {
            is_written: !is_missing(rt, CONFIGURATION),
        },
        Some(bytes) if is_refused(rt, bytes) => ConfigurationState::Refused {
            is_same: is_of_folder(rt, bytes),
        },
        Some(_) => ConfigurationState::Taken,
    }
}

fn is_refused(rt: &HostRuntime, bytes: &[u8]) -> bool {
    match read_config(rt.alloc(), bytes) {
        Ok(_) => false,
        Err(fault) => fault.kind != ConfigKind::OutOfMemory,
    }
}

// Whether the working folder's configuration, which `explain` reads, has these bytes.
fn is_of_folder(rt: &HostRuntime, staged: &[u8]) -> bool {
    match read_up_to(rt, CONFIGURATION, MOST_CONFIGURATION_BYTES + 1) {
        Ok(bytes) => bytes.as_slice() == staged,
        Err(_error) => false,
    }
}
