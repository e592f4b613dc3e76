//! The message of a commit: what its hooks begin with, and how it is cleaned after them.

ghost use Rattle.std.specs.Prelude.{◌≡◌, ◌≢◌, ◌++◌, ◌&&◌, ◌||◌, not, if◌then◌else◌, [], IfOk, OnOk};
ghost use Rattle.commit_flow.specs.Messages.{begun_message, cleaned_message, is_message_blank, ended_line, is_filled, lacks_line_end, without_trailing_blanks};

use hook_base::OutOfMemory;
use std::alloc::Global;

/// The message with which the hooks of a commit begin: a line feed ends it, unless it is empty. It fails only
/// for lack of memory.
pub fn begun_message(alloc: Global, message: &[u8]) -> Result<Vec<u8>, OutOfMemory>
    ensures { IfOk result (λ begun. begun.items ≡ begun_message message.now) }
{
    let mut begun = message.to_vec(alloc)?;
    if lacks_line_end(message) {
        begun.push(b'\n')?;
    }
    Ok(begun)
}

#[tactic(auto, using(crate::proofs::MessageLemmas::lacks_by_last))]
fn lacks_line_end(message: &[u8]) -> bool
    ensures { result ≡ lacks_line_end message.now }
{
    match message {
        [.., last] => *last != b'\n',
        [] => false,
    }
}

/// The message without carriage returns, tabs and spaces at the ends of its lines. Empty lines at its start
/// and end are left out, and of several empty lines one stays. A line feed ends each line that is left. This
/// is the mode `whitespace` of git-commit(1), "--cleanup". It fails only for lack of memory.
pub fn cleaned_message(alloc: Global, message: &[u8]) -> Result<Vec<u8>, OutOfMemory>
    ensures { IfOk result (λ cleaned. cleaned.items ≡ cleaned_message message.now) }
{
    let mut cleaned = Vec::new(alloc);
    let mut before: &[u8] = &[];
    let mut waits = false;
    'lines: for line in message.split(|byte| *byte == b'\n') {
        let line = without_blanks_after(line);
        push_line(&mut cleaned, waits, line)?;
        waits = waits_behind(waits, before, line);
        before = line;
    }
    Ok(cleaned)
}

// An empty line adds nothing, but waits for one that isn't empty, which it then precedes.
fn push_line(output: &mut Vec<u8>, waits: bool, line: &[u8]) -> Result<(), OutOfMemory>
    ensures empty { OnOk result (line.now ≡ [] → output.new.items ≡ output.old.items) }
    ensures filled { OnOk result (line.now ≢ []
        → output.new.items ≡ output.old.items ++ ((if waits then ended_line [] else []) ++ ended_line line.now)) }
{
    if line.is_empty() {
        return Ok(());
    }
    if waits {
        output.push(b'\n')?;
    }
    output.extend_from_slice(line)?;
    output.push(b'\n')?;
    Ok(())
}

// Whether, after this line, an empty line waits for one that isn't empty.
fn waits_behind(waits: bool, before: &[u8], line: &[u8]) -> bool
    ensures { result ≡ (not (is_filled line.now) && (waits || is_filled before.now)) }
{
    line.is_empty() && (waits || !before.is_empty())
}

// The bytes without the blanks at their end.
#[tactic(auto, using(crate::proofs::MessageLemmas::last_is_blank, crate::proofs::MessageLemmas::last_is_other))]
fn without_blanks_after(line: &[u8]) -> &[u8]
    ensures { result.now ≡ without_trailing_blanks line.now }
{
    let mut rest = line;
    'blanks: while let [others @ .., last] = rest {
        if !is_blank(*last) {
            break;
        }
        rest = others;
    }
    rest
}

fn is_blank(byte: u8) -> bool
    ensures { result ≡ is_message_blank byte }
{
    byte == b'\r' || byte == b'\t' || byte == b' '
}
