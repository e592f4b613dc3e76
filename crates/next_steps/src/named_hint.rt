//! Hints that name a file or a folder.
//!
//! The contracts cite `specs/NamedHints.antt`.

ghost use Rattle.std.specs.Prelude.{◌≡◌, ◌++◌, IfOk, string_bytes};
ghost use Rattle.next_steps.specs.NamedHints.{explain_hint, folder_hint, undone_hint};

use crate::word_or;
use std::alloc::{AllocError, Global};

/// The line that says in which folder the repository is. It fails only for lack of memory.
pub fn folder_hint(alloc: Global, folder: &str) -> Result<String, AllocError>
    ensures { IfOk result (λ text. string_bytes text ≡ folder_hint folder.now) }
{
    joined(
        alloc,
        "hint: the repository is in ",
        folder,
        ": cd ",
        folder,
    )
}

/// The line that says how to learn what is wrong with the configuration in a file. It fails only for lack of
/// memory.
pub fn explain_hint(alloc: Global, file: &str) -> Result<String, AllocError>
    ensures { IfOk result (λ text. string_bytes text ≡ explain_hint file.now) }
{
    let mut text = String::from_str(alloc, "hint: hookhost explain ")?;
    text.push_str(word_or(file, "CONFIG"))?;
    text.push_str(" says what is wrong and where")?;
    Ok(text)
}

/// The line that says that the fix of this path is undone, and how to get its bytes nevertheless. It fails
/// only for lack of memory.
pub fn undone_hint(alloc: Global, path: &str) -> Result<String, AllocError>
    ensures { IfOk result (λ text. string_bytes text ≡ undone_hint path.now) }
{
    let word = word_or(path, "PATH");
    let mut text = joined(
        alloc,
        "hint: this undoes the fix of ",
        path,
        ": to take it over, hookhost run, then hookhost cat --fixed ",
        word,
    )?;
    text.push_str(" > ")?;
    text.push_str(word)?;
    Ok(text)
}

// Four texts, one after another.
fn joined(
    alloc: Global,
    first: &str,
    second: &str,
    third: &str,
    fourth: &str,
) -> Result<String, AllocError>
    ensures { IfOk result (λ text. string_bytes text ≡ first.now ++ second.now ++ third.now ++ fourth.now) }
{
    let mut text = String::from_str(alloc, first)?;
    text.push_str(second)?;
    text.push_str(third)?;
    text.push_str(fourth)?;
    Ok(text)
}
