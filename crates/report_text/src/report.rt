//! The text of a report. A hook's text is its first line, and also its details if it failed or is verbose.
//!
//! The contracts cite `specs/Report.antt`.

ghost use Rattle.std.specs.Prelude.{◌≡◌, ◌+◌, ◌≤◌, ◌++◌, IfOk, OnOk, All, length, map};
ghost use Rattle.std.specs.List.{flat_map};
ghost use Rattle.report_text.specs.Report.{columns_of, details_of, first_line, hook_text, is_failed, width_of};
ghost use Rattle.report_text.specs.Limits.{most_name_bytes};

use crate::first_line::push_first_line;
use crate::hook_result::HookResult;
use crate::lines::{push_ending_lines, push_id_line};
use hook_base::OutOfMemory;
use std::alloc::Global;
use unicode_width::UnicodeWidthStr;

/// The number of columns of a report: 80, or if that is more, 30 more than the widest name. The rule is that
/// of pre-commit's `pre_commit.commands.run._compute_cols`. The names are those of all hooks of the run, also
/// of skipped ones and of those after a stop. `unicode_width` gives their widths in a terminal. It allocates
/// nothing. Each name must have at most [`MOST_NAME_BYTES`](crate::MOST_NAME_BYTES) bytes.
pub fn columns(names: &[&str]) -> usize
    requires { All (λ name. length name.now ≤ most_name_bytes) names.now }
    ensures { result ≡ columns_of (map (λ name. name.now) names.now) }
{
    let mut widest = 0;
    for name in names {
        widest = widest.max(name.width());
    }
    80.max(widest + 30)
}

/// What a report says of one hook: its first line, and its details if it failed or is verbose. `columns` must
/// be at least 30 more than the width of the hook's name. `OutOfMemory` if memory is refused.
pub fn hook_text(alloc: Global, columns: usize, hook: &HookResult) -> Result<Vec<u8>, OutOfMemory>
    requires { width_of hook.now.name + 30 ≤ columns }
    ensures { IfOk result (λ text. text.items ≡ hook_text columns hook.now) }
{
    let mut text = Vec::new(alloc);
    push_hook_text(alloc, &mut text, columns, hook)?;
    Ok(text)
}

/// What a report says of the hooks, one after another, each as in [`hook_text`].
pub fn hook_texts(
    alloc: Global,
    columns: usize,
    hooks: &[HookResult],
) -> Result<Vec<u8>, OutOfMemory>
    requires { All (λ hook. width_of hook.name + 30 ≤ columns) hooks.now }
    ensures { IfOk result (λ texts. texts.items ≡ flat_map (hook_text columns) hooks.now) }
{
    let mut texts = Vec::new(alloc);
    for hook in hooks {
        push_hook_text(alloc, &mut texts, columns, hook)?;
    }
    Ok(texts)
}

fn push_hook_text(
    alloc: Global,
    report: &mut Vec<u8>,
    columns: usize,
    hook: &HookResult,
) -> Result<(), OutOfMemory>
    requires { width_of hook.now.name + 30 ≤ columns }
    ensures { OnOk result (report.new.items ≡ report.old.items ++ hook_text columns hook.now) }
{
    push_first_line(report, columns, hook)?;
    push_details(alloc, report, hook)
}

fn push_details(alloc: Global, report: &mut Vec<u8>, hook: &HookResult) -> Result<(), OutOfMemory>
    ensures { OnOk result (report.new.items ≡ report.old.items ++ details_of hook.now) }
{
    if hook.ending.is_failed() || hook.verbose {
        push_id_line(report, hook.id.as_str())?;
        push_ending_lines(alloc, report, &hook.ending)?;
    }
    Ok(())
}
