//! Adds bytes after those of an output.

ghost use Rattle.std.specs.Prelude.{◌≡◌, ◌++◌, OnOk};
ghost use Rattle.builtin_hooks.specs.GrepAnswer.{place_text};

use hook_base::{OutOfMemory, RepoPath};
use std::alloc::Global;

/// Adds the bytes as they are.
pub fn push(output: &mut Vec<u8>, bytes: &[u8]) -> Result<(), OutOfMemory>
    ensures { OnOk result (output.new.items ≡ output.old.items ++ bytes.now) }
{
    output.extend_from_slice(bytes)?;
    Ok(())
}

/// Adds the path and the line's number, a colon after each.
pub fn push_place(
    alloc: Global,
    output: &mut Vec<u8>,
    path: &RepoPath,
    number: usize,
) -> Result<(), OutOfMemory>
    ensures { OnOk result (output.new.items ≡ output.old.items ++ place_text path.now number) }
{
    push(output, path.as_str().as_bytes())?;
    push(output, b":")?;
    push(output, number.to_string(alloc)?.as_bytes())?;
    push(output, b":")
}
