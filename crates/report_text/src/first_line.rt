//! The first line of a hook's text.

ghost use Rattle.std.specs.Prelude.{◌≡◌, ◌+◌, ◌≤◌, ◌++◌, OnOk, length, replicate};
ghost use Rattle.report_text.specs.Report.{dots_of, first_line, postfix_of, width_of, word_of};

use crate::hook_result::{Ending, HookResult};
use crate::lines::{push, push_line};
use hook_base::OutOfMemory;
use unicode_width::UnicodeWidthStr;

/// The name, dots up to the last column but one, and how the hook ended, as pre-commit's
/// `pre_commit.commands.run._full_msg` writes it.
pub(crate) fn push_first_line(
    report: &mut Vec<u8>,
    columns: usize,
    hook: &HookResult,
) -> Result<(), OutOfMemory>
    requires { width_of hook.now.name + 30 ≤ columns }
    ensures { OnOk result (report.new.items ≡ report.old.items ++ first_line columns hook.now) }
{
    let postfix = postfix_of(&hook.ending);
    let word = word_of(&hook.ending);
    push(report, hook.name.as_str().as_bytes())?;
    push_dots(
        report,
        columns - hook.name.as_str().width() - postfix.len() - word.len() - 1,
    )?;
    push(report, postfix.as_bytes())?;
    push_line(report, word.as_bytes())
}

fn postfix_of(ending: &Ending) -> &'static str
    ensures same { result.now ≡ postfix_of ending.now }
    ensures within { length result.now ≤ 19 }
{
    match ending {
        Ending::SkippedNoFiles => "(no files to check)",
        Ending::SkippedAsked | Ending::Ran { .. } => "",
    }
}

fn word_of(ending: &Ending) -> &'static str
    ensures same { result.now ≡ word_of ending.now }
    ensures within { length result.now ≤ 7 }
{
    match ending {
        Ending::SkippedAsked | Ending::SkippedNoFiles => "Skipped",
        Ending::Ran { .. } if ending.is_failed() => "Failed",
        Ending::Ran { .. } => "Passed",
    }
}

fn push_dots(report: &mut Vec<u8>, count: usize) -> Result<(), OutOfMemory>
    ensures { OnOk result (report.new.items ≡ report.old.items ++ replicate count 46) }
{
    for _ in 0..count {
        report.push(b'.')?;
    }
    Ok(())
}
