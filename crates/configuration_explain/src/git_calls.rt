//! The commands that call Git, and the `x_reads` that names Git's state.

use crate::escaped_texts::{is_shown_whole, push_all};
use crate::patterns::finds;
use crate::selected::NO_PATH;
use hook_config::{Hook, Language};
use std::alloc::{AllocError, Global};

// The path by which Git's state is named, and the pattern that finds only this path.
const GIT_STATE: &str = ".git-state";

const OF_GIT_STATE: &str = "^\\.git-state$";

/// Whether a word of the hook's command names Git.
pub(crate) fn calls_git(hook: &Hook) -> bool {
    match &hook.language {
        Language::System(words) => { words.as_slice().iter().any(|word| names_git(word.as_str())) }
        _ => false,
    }
}

// Whether a piece of the word between blanks and signs of a shell is `git`.
fn names_git(word: &str) -> bool {
    word.split(is_between).any(|piece| piece == "git")
}

fn is_between(c: char) -> bool {
    !(c.is_alphanumeric() || matches!(c, '-' | '_' | '.' | '/' | '=' | '~'))
}

/// Whether the hook's `x_reads` is found in the path of Git's state. `AllocError` if memory is refused.
pub(crate) fn names_git_state(alloc: Global, hook: &Hook) -> Result<bool, AllocError> {
    finds(alloc, hook.x_reads.as_pattern(), GIT_STATE).map_err(|_refused| AllocError)
}

/// Puts the line of YAML that adds Git's state to a hook whose `x_reads` is this. If that isn't shown whole,
/// or may end in a comment, it only says what to put before it. `AllocError` if memory is refused.
pub(crate) fn push_git_reads(text: &mut String, own: &str) -> Result<(), AllocError> {
    if own == NO_PATH {
        // With the bar the pattern is found in every path, so a cautious run has every file in the key, as
        // without `x_reads`.
        return push_all(text, &["x_reads: '", OF_GIT_STATE, "|'"]);
    }
    let has_groups = own.contains("(?");
    if !is_shown_whole(own) || (has_groups && own.contains('#')) {
        return push_all(text, &["put `", OF_GIT_STATE, "|` before its pattern"]);
    }

    // A pattern's flags hold only within the group that it is put in.
    push_all(text, &["x_reads: '", if has_groups { "(?:" } else { "" }])?;
    push_doubled(text, own)?;
    push_all(
        text,
        &[if has_groups { ")|" } else { "|" }, OF_GIT_STATE, "'"],
    )
}

// The text as it is written between single quotes in YAML: each quote is doubled (YAML 1.2.2, section 7.3.2).
fn push_doubled(text: &mut String, own: &str) -> Result<(), AllocError> {
    for c in own.chars() {
        if c == '\'' {
            text.push(c)?;
        }
        text.push(c)?;
    }
    Ok(())
}
