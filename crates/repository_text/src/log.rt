//! The text that `log` prints (docs/REFERENCE.md, "The command line").
//!
//! The contracts cite `specs/LogText.antt`.

ghost use Rattle.std.specs.Prelude.{◌≡◌, ◌++◌, IfOk, OnOk};
ghost use Rattle.repository_text.specs.LogText.{first_line_of, log_line, log_text};

use hook_base::OutOfMemory;
use itoa::Buffer;
use memchr::memchr;
use repo_store::Store;
use report_text::{push, push_line};
use sqlite::Alter;
use std::alloc::Global;

/// The commits of a store, a line for each, the newest first.
pub fn log_text<S: Alter>(alloc: Global, store: &Store<S>) -> Result<Vec<u8>, OutOfMemory>
    ensures { IfOk result (λ text. text.items ≡ log_text store.now.kept.repo.history) }
{
    let mut text = Vec::new(alloc);
    push_log_lines(&mut text, store)?;
    Ok(text)
}

fn push_log_lines<S: Alter>(text: &mut Vec<u8>, store: &Store<S>) -> Result<(), OutOfMemory>
    ensures { OnOk result (text.new.items ≡ text.old.items ++ log_text store.now.kept.repo.history) }
{
    let mut number = store.count_commits();
    // Commits are numbered from 1, so the walk ends at 0.
    'commits: while let Some(message) = store.message_of(number) {
        push_log_line(text, number, message)?;
        number -= 1;
    }
    Ok(())
}

fn push_log_line(text: &mut Vec<u8>, number: u32, message: &[u8]) -> Result<(), OutOfMemory>
    ensures { OnOk result (text.new.items ≡ text.old.items ++ log_line number message.now) }
{
    let mut digits = Buffer::new();
    push(text, digits.format(number).as_bytes())?;
    push(text, b" ")?;
    push_line(text, first_line_of(message))
}

fn first_line_of(message: &[u8]) -> &[u8]
    ensures { result.now ≡ first_line_of message.now }
{
    match memchr(b'\n', message) {
        Some(end) => &message[..end],
        None => message,
    }
}
