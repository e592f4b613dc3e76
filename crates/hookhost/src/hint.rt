//! Hints at the next step, for a user at a terminal.

use hook_base::RepoPath;
use next_steps::{NextStep, undone_hint};
use std::env::{self, VarError};
use std::io::IsTerminal;

/// The variable of the environment that Git's hook sets to the top of the working tree. That hook says itself
/// what comes next, in Git's commands.
pub(crate) const TOP: &str = "HOOKHOST_TOP";

/// Says a step on standard error, as `hint` does.
pub(crate) fn hint_step(rt: &HostRuntime, step: NextStep) {
    hint(rt, step.text());
}

/// Says a hint on standard error, if that is a terminal and the program doesn't run within Git's hook.
pub(crate) fn hint(rt: &HostRuntime, text: &str) {
    if is_heard(rt) && !is_within_git_hook(rt) {
        let _said = rt.eprintln(text);
    }
}

/// Whether a user sees what is said on standard error alone.
pub(crate) fn is_heard(rt: &HostRuntime) -> bool {
    rt.stderr().is_terminal()
}

fn is_within_git_hook(rt: &HostRuntime) -> bool {
    !matches!(env::var(rt, TOP), Err(VarError::NotPresent))
}

/// Says that the fix of this path is undone, and how to get its bytes nevertheless: the fix is dropped by
/// now.
pub(crate) fn hint_undone(rt: &HostRuntime, path: &RepoPath) {
    if let Ok(text) = undone_hint(rt.alloc(), path.as_str()) {
        hint(rt, text.as_str());
    }
}
