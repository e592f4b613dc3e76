//! The next step after a stop.
//!
//! The contracts cite `specs/Remedies.antt`.

ghost use Rattle.std.specs.Prelude.{◌≡◌};
ghost use Rattle.hookhost.specs.Remedies.{if_store, remedy_for, remedy_for_kind, remedy_for_word};

use crate::hint::{hint, hint_step};
use crate::stop::CommandStop;
use hook_config::ConfigKind;
use next_steps::{NextStep, explain_hint, folder_hint};
use repository_files::{RepositoryFault, STORE};
use std::fs;
use std::io::ErrorKind;
use std::rt::Files;

/// The file that `check` reads, and `explain` if it is given none, and that is staged for the hooks of a
/// repository.
pub(crate) const CONFIGURATION: &str = ".pre-commit-config.yaml";

// The most folders above the working folder in which a repository is looked for.
const MOST_FOLDERS: usize = 40;

// What helps after a stop.
#[derive(Clone, Copy, Debug)]
enum Remedy {
    // To find the repository or to make one, if there is no store.
    FindRepository,
    // To go on with the repository, if there is a store.
    UseRepository,
    // To learn what is wrong with the configuration.
    ExplainConfiguration,
    // To write the configuration, if there is none.
    WriteConfiguration,
    Nothing,
}

/// Says the remedy for a stop, if there is one.
pub(crate) fn hint_at(rt: &HostRuntime, stop: &CommandStop) {
    match remedy_for(stop) {
        Remedy::FindRepository => {
            if is_missing(rt, STORE) {
                hint_repository(rt);
            }
        }
        Remedy::UseRepository => {
            if is_file(rt, STORE) {
                hint_step(rt, NextStep::UseRepository);
            }
        }
        Remedy::ExplainConfiguration => hint_step(rt, NextStep::ExplainConfiguration),
        Remedy::WriteConfiguration => {
            if is_missing(rt, CONFIGURATION) {
                hint_step(rt, NextStep::WriteConfiguration);
            }
        }
        Remedy::Nothing => {}
    }
}

fn remedy_for(stop: &CommandStop) -> Remedy
    ensures { result ≡ remedy_for stop.now }
{
    match stop {
        CommandStop::NoRepository(fault) => if_store(fault, Remedy::FindRepository),
        CommandStop::NoNewRepository(fault) => if_store(fault, Remedy::UseRepository),
        CommandStop::NoConfiguration(fault) => remedy_for_kind(&fault.kind),
        CommandStop::CannotUse(word) => remedy_for_word(word.as_str()),
        CommandStop::Usage(_)
        | CommandStop::NotText
        | CommandStop::Refused(_)
        | CommandStop::RefusedCommand(_) => Remedy::Nothing,
    }
}

// The remedy, if the fault is that the store can't be used.
fn if_store(fault: &RepositoryFault, remedy: Remedy) -> Remedy
    ensures { result ≡ if_store fault.now remedy }
{
    match fault {
        RepositoryFault::CannotUseStore => remedy,
        RepositoryFault::CannotUseLock | RepositoryFault::NoStore(_) => Remedy::Nothing,
    }
}

fn remedy_for_kind(kind: &ConfigKind) -> Remedy
    ensures { result ≡ remedy_for_kind kind.now }
{
    match kind {
        ConfigKind::OutOfMemory => Remedy::Nothing,
        ConfigKind::Yaml(_)
        | ConfigKind::Shape
        | ConfigKind::MissingKey
        | ConfigKind::BadStage
        | ConfigKind::BadLanguage
        | ConfigKind::RemoteRepo
        | ConfigKind::BadPattern
        | ConfigKind::BadEntry
        | ConfigKind::BadArgs
        | ConfigKind::Unsupported
        | ConfigKind::TooMany => Remedy::ExplainConfiguration,
    }
}

fn remedy_for_word(word: &str) -> Remedy
    ensures { result ≡ remedy_for_word word.now }
{
    if word == CONFIGURATION {
        Remedy::WriteConfiguration
    } else {
        Remedy::Nothing
    }
}

// Says where the repository is, if it is in a folder above, and otherwise how one is made.
fn hint_repository(rt: &HostRuntime) {
    let mut folder = String::new(rt.alloc());
    'folders: for _ in 0..MOST_FOLDERS {
        if folder.push_str("../").is_err() {
            return;
        }
        let Ok(store) = format!(in rt.alloc(); "{folder}{STORE}") else {
            return;
        };
        if is_file(rt, store.as_str()) {
            hint_folder(rt, folder.as_str().trim_end_matches('/'));
            return;
        }
    }
    hint_step(rt, NextStep::MakeRepository);
}

fn hint_folder(rt: &HostRuntime, folder: &str) {
    if let Ok(text) = folder_hint(rt.alloc(), folder) {
        hint(rt, text.as_str());
    }
}

/// Says how to learn more of a configuration that `try` refused. Only a regular file has a hint, since it is
/// there to be read again.
pub(crate) fn hint_refused_file(rt: &HostRuntime, file: &str) {
    if file == CONFIGURATION {
        hint_step(rt, NextStep::ExplainConfiguration);
        return;
    }
    if !is_file(rt, file) {
        return;
    }
    if let Ok(text) = explain_hint(rt.alloc(), file) {
        hint(rt, text.as_str());
    }
}

/// Whether nothing is at a name.
pub(crate) fn is_missing<R: Files>(rt: &R, name: &str) -> bool {
    match fs::symlink_metadata(rt, name) {
        Ok(_) => false,
        Err(error) => error.kind() == ErrorKind::NotFound,
    }
}

fn is_file<R: Files>(rt: &R, name: &str) -> bool {
    match fs::symlink_metadata(rt, name) {
        Ok(found) => found.is_file(),
        Err(_) => false,
    }
}
