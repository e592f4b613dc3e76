//! The lines after a hook's first line: its id, and how it ended. They are those of pre-commit's
//! `pre_commit.commands.run._run_single_hook`, without a duration and with the faults.

ghost use Rattle.std.specs.Prelude.{◌≡◌, ◌++◌, OnErr, OnOk};
ghost use Rattle.report_text.specs.Report.{block_of, child_fault_text, ending_lines, fault_lines, fault_text, id_line, line, modified_line, status_line, trimmed};

use crate::hook_result::{Ending, LineFault};
use crate::trim::trimmed;
use child_port::Fault;
use hook_base::OutOfMemory;
use std::alloc::Global;

/// The line with the hook's id.
pub(crate) fn push_id_line(report: &mut Vec<u8>, id: &str) -> Result<(), OutOfMemory>
    ensures { OnOk result (report.new.items ≡ report.old.items ++ id_line id.now) }
{
    push(report, b"- hook id: ")?;
    push_line(report, id.as_bytes())
}

/// The lines that say how the hook ended: its exit code, its faults, whether it modified files, and its
/// output.
pub(crate) fn push_ending_lines(
    alloc: Global,
    report: &mut Vec<u8>,
    ending: &Ending,
) -> Result<(), OutOfMemory>
    ensures { OnOk result (report.new.items ≡ report.old.items ++ ending_lines ending.now) }
{
    match ending {
        Ending::SkippedAsked | Ending::SkippedNoFiles => Ok(()),
        Ending::Ran {
            status,
            faults,
            modified,
            output,
        } => {
            push_status_line(alloc, report, *status)?;
            push_fault_lines(report, faults.as_slice())?;
            push_modified_line(report, *modified)?;
            push_block(report, trimmed(output.as_slice()))
        }
    }
}

fn push_status_line(alloc: Global, report: &mut Vec<u8>, status: u8) -> Result<(), OutOfMemory>
    ensures { OnOk result (report.new.items ≡ report.old.items ++ status_line status) }
{
    if status != 0 {
        push(report, b"- exit code: ")?;
        push_line(report, status.to_string(alloc)?.as_bytes())?;
    }
    Ok(())
}

fn push_fault_lines(report: &mut Vec<u8>, faults: &[LineFault]) -> Result<(), OutOfMemory>
    ensures { OnOk result (report.new.items ≡ report.old.items ++ fault_lines faults.now) }
{
    for fault in faults {
        push_line(report, fault_text(*fault).as_bytes())?;
    }
    Ok(())
}

fn fault_text(fault: LineFault) -> &'static str
    ensures { result.now ≡ fault_text fault }
{
    match fault {
        LineFault::Child(fault) => child_fault_text(fault),
        LineFault::Misfit => "- fault: a name does not fit the command",
    }
}

fn child_fault_text(fault: Fault) -> &'static str
    ensures { result.now ≡ child_fault_text fault }
{
    match fault {
        Fault::NotStarted => "- fault: could not be started",
        Fault::WaitFailed => "- fault: could not be waited for",
        Fault::Signal => "- fault: ended by a signal",
        Fault::OutputTooLong => "- fault: output is longer than 1048576 bytes",
        Fault::ScratchFailed => "- fault: files could not be written or read back",
    }
}

fn push_modified_line(report: &mut Vec<u8>, modified: bool) -> Result<(), OutOfMemory>
    ensures { OnOk result (report.new.items ≡ report.old.items ++ modified_line modified) }
{
    if modified {
        push_line(report, b"- files were modified by this hook")?;
    }
    Ok(())
}

// The text between empty lines, or nothing if it is empty.
fn push_block(report: &mut Vec<u8>, text: &[u8]) -> Result<(), OutOfMemory>
    ensures { OnOk result (report.new.items ≡ report.old.items ++ block_of text.now) }
{
    if !text.is_empty() {
        push_line(report, b"")?;
        push_line(report, text)?;
        push_line(report, b"")?;
    }
    Ok(())
}

/// Adds the text and a line feed to the end of the report. `OutOfMemory` may come for any text, and leaves
/// the report as it was.
pub fn push_line(report: &mut Vec<u8>, text: &[u8]) -> Result<(), OutOfMemory>
    ensures put { OnOk result (report.new.items ≡ report.old.items ++ line text.now) }
    ensures refused { OnErr result (report.new.items ≡ report.old.items) }
{
    // Reserve room for both first, so that a refusal leaves no part of the line.
    report.reserve(text.len() + 1)?;
    report.extend_from_slice(text)?;
    report.push(b'\n')?;
    Ok(())
}

/// Adds the bytes as they are to the end of the report. `OutOfMemory` may come for any bytes, and leaves the
/// report as it was.
pub fn push(report: &mut Vec<u8>, bytes: &[u8]) -> Result<(), OutOfMemory>
    ensures put { OnOk result (report.new.items ≡ report.old.items ++ bytes.now) }
    ensures refused { OnErr result (report.new.items ≡ report.old.items) }
{
    report.extend_from_slice(bytes)?;
    Ok(())
}
