//! Whether a text is a path inside a repository: one test for each rule of docs/REFERENCE.md, "Paths".

ghost use Rattle.std.specs.Prelude.{◌≡◌};
ghost use Rattle.std.specs.List.{list_any};
ghost use Rattle.hook_base.specs.Paths.{begins_with_slash, is_control_byte, is_dot_part, is_empty_part, is_under_git, parts_of, path_fault};

use crate::{MOST_PATH_BYTES, PathFault};

/// The first reason, in the order that `PathFault` gives, why a text isn't a path inside a repository. It is
/// never `OutOfMemory`.
#[tactic(auto, unfolding(crate::specs::Paths::path_fault))]
pub(crate) fn fault_of(text: &str) -> Option<PathFault>
    ensures { result ≡ path_fault text.now }
{
    if text.is_empty() {
        return Some(PathFault::Empty);
    }
    if text.len() > MOST_PATH_BYTES {
        return Some(PathFault::TooLong);
    }
    if has_control_byte(text.as_bytes()) {
        return Some(PathFault::ControlByte);
    }
    if begins_with_slash(text.as_bytes()) {
        return Some(PathFault::Absolute);
    }
    if has_empty_part(text) {
        return Some(PathFault::EmptyPart);
    }
    if has_dot_part(text) {
        return Some(PathFault::DotPart);
    }
    if is_under_git(text) {
        return Some(PathFault::UnderGit);
    }
    None
}

fn has_control_byte(bytes: &[u8]) -> bool
    ensures { result ≡ list_any is_control_byte bytes.now }
{
    bytes.iter().any(|byte| *byte < 32 || *byte == 127)
}

fn begins_with_slash(bytes: &[u8]) -> bool
    ensures { result ≡ begins_with_slash bytes.now }
{
    match bytes {
        [first, ..] => *first == b'/',
        [] => false,
    }
}

fn has_empty_part(text: &str) -> bool
    ensures { result ≡ list_any is_empty_part (parts_of text.now) }
{
    text.split('/').any(|part| part.len() == 0)
}

fn has_dot_part(text: &str) -> bool
    ensures { result ≡ list_any is_dot_part (parts_of text.now) }
{
    text.split('/').any(|part| part == "." || part == "..")
}

fn is_under_git(text: &str) -> bool
    ensures { result ≡ is_under_git text.now }
{
    text == ".git" || text.starts_with(".git/")
}
