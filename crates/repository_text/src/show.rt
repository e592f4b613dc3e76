//! The text that `show` prints (docs/REFERENCE.md, "The command line").
//!
//! The contracts cite `specs/ShowText.antt`.

ghost use Rattle.std.specs.Prelude.{◌≡◌, ◌++◌, [], IfOk, IsSome, OnErr, OnOk, option_map};
ghost use Rattle.std.specs.List.{flat_map};
ghost use Rattle.report_text.specs.Report.{line};
ghost use Rattle.repo_store.specs.Repository.{commit_at, tree_at};
ghost use Rattle.repository_text.specs.ShowText.{with_line_feed_at_end, path_line, show_text};

use hook_base::{Bytes, OutOfMemory};
use repo_store::Store;
use report_text::{push, push_line};
use sqlite::Alter;
use std::alloc::Global;

/// The message of a commit, an empty line and its paths, or `None` if no commit has the number.
pub fn show_text<S: Alter>(
    alloc: Global,
    store: &Store<S>,
    number: u32,
) -> Result<Option<Bytes>, OutOfMemory>
    ensures text { IfOk result (λ text. text ≡ option_map show_text (commit_at number store.now.kept.repo.history)) }
    ensures refused { OnErr result (IsSome (commit_at number store.now.kept.repo.history)) }
{
    let Some(message) = store.message_of(number) else {
        return Ok(None);
    };
    let mut text = Vec::new(alloc);
    push_message(&mut text, message)?;
    push_line(&mut text, b"")?;
    push_paths(&mut text, store, number)?;
    Ok(Some(Bytes::from(text)))
}

// Appends the message, and a line feed unless the message is empty or ends with one.
fn push_message(text: &mut Vec<u8>, message: &[u8]) -> Result<(), OutOfMemory>
    ensures { OnOk result (text.new.items ≡ text.old.items ++ with_line_feed_at_end message.now) }
{
    let Some(last) = message.last() else {
        return push(text, message);
    };
    if *last == b'\n' {
        return push(text, message);
    }
    push_line(text, message)
}

fn push_paths<S: Alter>(
    text: &mut Vec<u8>,
    store: &Store<S>,
    number: u32,
) -> Result<(), OutOfMemory>
    ensures { OnOk result (text.new.items ≡ text.old.items ++ flat_map path_line
        (tree_at number store.now.kept.repo.history)) }
{
    'files: for index in 0..usize::MAX {
        let Some(file) = store.commit_file(number, index) else {
            return Ok(());
        };
        push_line(text, file.path.as_str().as_bytes())?;
    }
    // No memory holds so many files.
    Err(OutOfMemory)
}
