//! What the finished parts of a hook give together.

ghost use Rattle.std.specs.Prelude.{◌≡◌, IfOk, max};
ghost use Rattle.hook_run.specs.Plans.{gathered_with, nothing_gathered};

use child_port::Outcome;
use hook_base::{Bytes, Items, OutOfMemory};
use report_text::LineFault;
use std::alloc::Global;

/// What the finished parts of a hook give together: the greatest status and the joined outputs, as in
/// `pre_commit.xargs.xargs`, and their faults.
#[derive(Drop)]
pub(crate) struct PartTotals {
    /// The greatest status of the parts that completed, or 0 if none did.
    pub(crate) status: u8,
    /// The faults of the other parts, in the order of the parts.
    pub(crate) faults: Items<LineFault>,
    /// The outputs of the parts that completed, joined.
    pub(crate) output: Bytes,
    /// Whether a part gave another answer than the cached one.
    pub(crate) unsteady: bool,
}

/// What is gathered before any part has an outcome.
pub(crate) fn nothing_gathered(alloc: Global) -> PartTotals
    ensures { result ≡ nothing_gathered }
{
    PartTotals {
        status: 0,
        faults: Items::new(alloc),
        output: Bytes::new(alloc),
        unsteady: false,
    }
}

/// What is gathered with the outcome of one more part. `unsteady` says whether that outcome is another answer
/// than the cached one.
pub(crate) fn gathered_with(
    so_far: PartTotals,
    outcome: &Outcome,
    unsteady: bool,
) -> Result<PartTotals, OutOfMemory>
    ensures { IfOk result (λ all. all ≡ gathered_with so_far outcome.now unsteady) }
{
    let PartTotals {
        status,
        faults,
        output,
        unsteady: before,
    } = so_far;
    let unsteady = before || unsteady;
    match outcome {
        Outcome::Done(answer) => {
            let mut output = output.into_vec();
            output.extend_from_slice(answer.output.as_slice())?;
            Ok(PartTotals {
                status: greatest(status, answer.status),
                faults,
                output: Bytes::from(output),
                unsteady,
            })
        }
        Outcome::Failed(fault) => {
            let mut faults = faults.into_vec();
            faults.push(LineFault::Child(*fault))?;
            Ok(PartTotals {
                status,
                faults: Items::from(faults),
                output,
                unsteady,
            })
        }
    }
}

fn greatest(first: u8, second: u8) -> u8
    ensures { result ≡ max first second }
{
    if first < second { second } else { first }
}
