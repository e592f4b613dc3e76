//! The run of a configuration over a tree, and the writing of its report.
//!
//! The contract of [`try_over`] cites `specs/TryOver.antt`.

ghost use Rattle.std.specs.Prelude.{◌≡◌, ◌≢◌, ◌≤◌, ◌+◌, IfOk, IfErr, OnOk, OnErr};
ghost use Rattle.child_port.specs.Telling.{SameTells};
ghost use Rattle.text_output.specs.Outputs.{Has, HasBeginning, output_of};
ghost use Rattle.configuration_run.specs.TryOver.{IsRefusedBy, IsRefusedRun, IsRunOnAll, IsTriedOver, ReadsWithin, most_bytes};
ghost use Rattle.configuration_run.specs.declared.try_fault.TryFault.TheVariants as fault;

use crate::TryFault;
use crate::configuration_bytes::read_bytes;
use crate::run_ask::ask_for_all;
use child_port::Children;
use hook_base::Tree;
use hook_config::{Config, read_config};
use hook_run::{RunOut, RunRefusal, run_hooks};
use result_book::ListBook;
use std::alloc::Global;
use std::io::{Read, Write};
use store_faults::FIRST_LIMIT;
use text_output::{Unwritten, write_out};

/// Reads a configuration, runs the hooks of the stage `pre-commit` on the tree with all its files as
/// candidates, and writes the report and nothing else. The answer says whether every hook passed.
///
/// A read that gives no bytes ends the input. From an input of more than 1,048,576 bytes one more than that
/// is read. The refusals are, in the order in which they may come:
///
/// - `Read` if the reader gives an error, and `Config` if the bytes are no configuration, or `regex` refuses
///   one of its patterns: no child was called;
/// - `Spent` if a further child is needed, and the children have given as many outcomes as can be counted;
/// - `Write` if the writer gives an error: the run has ended, and the report is written up to some byte,
///   maybe to its last;
/// - `OutOfMemory` at any time before the report is written.
///
/// After a refusal other than `Write` nothing was written. The outcomes that the children gave until then
/// stay counted: after `Spent`, and after `OutOfMemory` if a child was called, a run of the configuration
/// begins with them.
pub fn try_over<R: Read, W: Write, C: Children>(
    alloc: Global,
    reader: &mut R,
    writer: &mut W,
    tree: &Tree,
    children: &mut C,
) -> Result<bool, TryFault>
    ensures tried { IfOk result (IsTriedOver (R.remaining reader.old) (R.remaining reader.new)
        (output_of (W.contents writer.old) (W.contents writer.new)) (C.tells children.old)
        (C.call_count children.old) (C.call_count children.new)
        (C.fault_count children.old) (C.fault_count children.new) tree.now) }
    ensures refused { IfErr result (IsRefusedBy (R.remaining reader.old) (R.remaining reader.new)
        (output_of (W.contents writer.old) (W.contents writer.new)) (C.tells children.old)
        (C.call_count children.old) (C.call_count children.new)
        (C.fault_count children.old) (C.fault_count children.new) tree.now) }
    ensures unwritten { IfErr result (λ e. e ≢ fault.Write → writer.new ≡ writer.old) }
    ensures within { ReadsWithin (most_bytes + 1) (R.remaining reader.old) (R.remaining reader.new) }
    ensures same { SameTells (C.tells children.old) (C.tells children.new) }
    ensures calls { C.call_count children.old ≤ C.call_count children.new }
    ensures faults { C.fault_count children.old ≤ C.fault_count children.new }

    // No more faults than calls were added.
    ensures faults_are_calls { C.fault_count children.new + C.call_count children.old
        ≤ C.fault_count children.old + C.call_count children.new }
{
    let bytes = read_bytes(alloc, reader)?;
    let config = read_config(alloc, bytes.as_slice())?;
    let out = run_on_all(alloc, children, &config, tree)?;
    write_report(writer, out.report.as_slice())?;
    Ok(out.passed)
}

// The run of the stage `pre-commit` with all files of the tree as candidates, over a book of its own.
fn run_on_all<C: Children>(
    alloc: Global,
    children: &mut C,
    config: &Config,
    tree: &Tree,
) -> Result<RunOut, TryFault>
    ensures run { IfOk result (IsRunOnAll (C.tells children.old) (C.call_count children.old) (C.call_count children.new)
        (C.fault_count children.old) (C.fault_count children.new) config.now tree.now) }
    ensures refused { IfErr result (IsRefusedRun (C.tells children.old) (C.call_count children.old)
        (C.call_count children.new)
        (C.fault_count children.old) (C.fault_count children.new) config.now tree.now) }
    ensures same { SameTells (C.tells children.old) (C.tells children.new) }
    ensures calls { C.call_count children.old ≤ C.call_count children.new }
    ensures faults { C.fault_count children.old ≤ C.fault_count children.new }
    ensures faults_are_calls { C.fault_count children.new + C.call_count children.old
        ≤ C.fault_count children.old + C.call_count children.new }
{
    let ask = ask_for_all(alloc, tree)?;
    let mut book = ListBook::new(alloc, FIRST_LIMIT);
    match run_hooks(alloc, children, &mut book, config, &ask, tree) {
        Ok(ran) => Ok(ran.out),
        Err(RunRefusal::OutOfMemory) => Err(TryFault::OutOfMemory),
        Err(RunRefusal::Spent) => Err(TryFault::Spent),
        // `ask_for_all` names no hook, and a book in memory refuses only for want of memory.
        Err(RunRefusal::NoSuchHook | RunRefusal::Book(_)) => unreachable!(),
    }
}

fn write_report<W: Write>(writer: &mut W, report: &[u8]) -> Result<(), TryFault>
    ensures ok { OnOk result (Has (output_of (W.contents writer.old) (W.contents writer.new)) report.now) }
    ensures err { IfErr result (λ e. e ≡ fault.Write) }
    ensures begun { OnErr result (HasBeginning (output_of (W.contents writer.old) (W.contents writer.new)) report.now) }
{
    match write_out(writer, report) {
        Ok(()) => Ok(()),
        Err(Unwritten) => Err(TryFault::Write),
    }
}
