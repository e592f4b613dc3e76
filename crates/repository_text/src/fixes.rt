//! The text that `fixes` prints (docs/REFERENCE.md, "The command line").
//!
//! The contracts cite `specs/FixesText.antt`.

ghost use Rattle.std.specs.Prelude.{◌≡◌, ◌++◌, IfOk, OnOk};
ghost use Rattle.repository_text.specs.FixesText.{fix_line, fix_mark, fixes_text};

use hook_base::{Change, OutOfMemory};
use repo_store::Store;
use report_text::{push, push_line};
use sqlite::Alter;
use std::alloc::Global;

/// The fixes of a store, a line for each, in the order of their paths.
pub fn fixes_text<S: Alter>(alloc: Global, store: &Store<S>) -> Result<Vec<u8>, OutOfMemory>
    ensures { IfOk result (λ text. text.items ≡ fixes_text store.now.kept.repo.fixes) }
{
    let fixes = store.fixes()?;
    let mut text = Vec::new(alloc);
    push_fix_lines(&mut text, fixes.as_slice())?;
    Ok(text)
}

fn push_fix_lines(text: &mut Vec<u8>, fixes: &[Change]) -> Result<(), OutOfMemory>
    ensures { OnOk result (text.new.items ≡ text.old.items ++ fixes_text fixes.now) }
{
    'fixes: for fix in fixes {
        push_fix_line(text, fix)?;
    }
    Ok(())
}

fn push_fix_line(text: &mut Vec<u8>, fix: &Change) -> Result<(), OutOfMemory>
    ensures { OnOk result (text.new.items ≡ text.old.items ++ fix_line fix.entry.now) }
{
    push(text, mark_of(fix))?;
    push_line(text, fix.path.as_str().as_bytes())
}

// The mark that a fix's line begins with.
fn mark_of(fix: &Change) -> &'static [u8]
    ensures { result.now ≡ fix_mark fix.entry.now.now }
{
    match &fix.now {
        Some(_) => b"M ",
        None => b"D ",
    }
}
