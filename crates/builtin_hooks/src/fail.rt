//! What a hook of the language `fail` answers.

ghost use Rattle.std.specs.Prelude.{◌≡◌, ◌++◌, IfOk, OnOk};
ghost use Rattle.std.specs.List.{join_with_byte};
ghost use Rattle.builtin_hooks.specs.FailAnswer.{fail_answer, fail_output};

use crate::written::push;
use child_port::Answer;
use hook_base::{Bytes, Changes, OutOfMemory, RepoPath};
use std::alloc::Global;

/// What a hook of the language `fail` answers for these files: status 1, and as output its entry, an empty
/// line, and the files, a line each (pre-commit.com, "fail"). It changes nothing. `OutOfMemory` if memory is
/// refused.
pub fn fail_answer(alloc: Global, entry: &str, files: &[RepoPath]) -> Result<Answer, OutOfMemory>
    ensures { IfOk result (λ answer. answer ≡ fail_answer entry.now files.now) }
{
    Ok(Answer {
        status: 1,
        output: Bytes::from(fail_output(alloc, entry, files)?),
        changes: Changes::new(alloc),
    })
}

fn fail_output(alloc: Global, entry: &str, files: &[RepoPath]) -> Result<Vec<u8>, OutOfMemory>
    ensures { IfOk result (λ output. output.items ≡ fail_output entry.now files.now) }
{
    let mut output = Vec::new(alloc);
    push(&mut output, entry.as_bytes())?;
    push(&mut output, b"\n\n")?;
    push_joined(&mut output, files)?;
    push(&mut output, b"\n")?;
    Ok(output)
}

// The paths with line feeds between them.
fn push_joined(output: &mut Vec<u8>, files: &[RepoPath]) -> Result<(), OutOfMemory>
    ensures { OnOk result (output.new.items ≡ output.old.items ++ join_with_byte 10 files.now) }
{
    let [first, others @ ..] = files else {
        return Ok(());
    };
    push(output, first.as_str().as_bytes())?;
    'others: for path in others {
        push(output, b"\n")?;
        push(output, path.as_str().as_bytes())?;
    }
    Ok(())
}
