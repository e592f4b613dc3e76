//! Words of a command line, as names of folders.
//!
//! The contracts cite `specs/Words.antt`.

ghost use Rattle.std.specs.Prelude.{◌≡◌, IfOk, string_bytes};
ghost use Rattle.named_files.specs.Words.{beginning_below, is_working_folder, path_begins_with, without_slashes};

use std::alloc::{AllocError, Global};

/// The word without the slashes at its end, which may follow the name of a folder.
pub fn without_slashes(word: &str) -> &str
    ensures { result.now ≡ without_slashes word.now }
{
    let mut rest = word;
    'slashes: while let Some(before) = rest.strip_suffix('/') {
        rest = before;
    }
    rest
}

/// Whether a word names the working folder: a dot, which slashes may follow.
pub fn is_working_folder(word: &str) -> bool
    ensures { result ≡ is_working_folder word.now }
{
    without_slashes(word) == "."
}

/// How the paths below a folder begin that a word names.
pub fn beginning_below(alloc: Global, word: &str) -> Result<String, AllocError>
    ensures { IfOk result (λ text. string_bytes text ≡ beginning_below word.now) }
{
    if is_working_folder(word) {
        return Ok(String::new(alloc));
    }
    let mut text = String::from_str(alloc, without_slashes(word))?;
    text.push('/')?;
    Ok(text)
}

/// Whether the path begins with the text.
pub fn begins_with(path: &str, text: &str) -> bool
    ensures { result ≡ path_begins_with text.now path.now }
{
    path.starts_with(text)
}
