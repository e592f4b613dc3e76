//! A run of hooks over children and their cached results.

ghost use Rattle.hook_run.specs.Moments.{moment};
ghost use Rattle.commit_flow.specs.Preparations.{HaveRun, HaveRunCounted, HaveStopped, LeavesTold};
ghost use Rattle.child_port.specs.Telling.{SameTells};
ghost use Rattle.std.specs.Prelude.{IfOk, IfErr};

use child_port::Children;
use hook_base::Tree;
use hook_config::Config;
use hook_run::{HooksRun, RunAsk, RunOut, RunRefusal, run_hooks};
use result_book::Book;
use std::alloc::Global;

/// Runs hooks on the files of the tree, with the results that the book caches and the children's outcomes, as
/// [`run_hooks`] does. A refusal leaves the children with the outcomes that they have reported, and the book
/// with what was put and used by then.
pub(crate) fn run_counted<C: Children, B: Book>(
    alloc: Global,
    children: &mut C,
    book: &mut B,
    config: &Config,
    ask: &RunAsk,
    tree: &Tree,
) -> Result<HooksRun, RunRefusal>
    ensures run { IfOk result (HaveRunCounted (C.tells children.old)
        (moment (C.call_count children.old) (C.fault_count children.old) (B.contents book.old))
        (moment (C.call_count children.new) (C.fault_count children.new) (B.contents book.new)) config.now ask.now
        tree.now) }
    ensures stopped { IfErr result (HaveStopped B.refuses (C.tells children.old)
        (moment (C.call_count children.old) (C.fault_count children.old) (B.contents book.old))
        (moment (C.call_count children.new) (C.fault_count children.new) (B.contents book.new)) config.now ask.now
        tree.now) }
    ensures left { LeavesTold (C.tells children.old) (B.contents book.old) (B.leaves book.old) (B.leaves book.new) }
    ensures rest { B.rests book.old book.new }
    ensures same { SameTells (C.tells children.old) (C.tells children.new) }
{
    run_hooks(alloc, children, book, config, ask, tree)
}

/// The same, without the number of commands that used a cached result.
pub(crate) fn run_with_book<C: Children, B: Book>(
    alloc: Global,
    children: &mut C,
    book: &mut B,
    config: &Config,
    ask: &RunAsk,
    tree: &Tree,
) -> Result<RunOut, RunRefusal>
    ensures run { IfOk result (HaveRun (C.tells children.old)
        (moment (C.call_count children.old) (C.fault_count children.old) (B.contents book.old))
        (moment (C.call_count children.new) (C.fault_count children.new) (B.contents book.new)) config.now ask.now
        tree.now) }
    ensures stopped { IfErr result (HaveStopped B.refuses (C.tells children.old)
        (moment (C.call_count children.old) (C.fault_count children.old) (B.contents book.old))
        (moment (C.call_count children.new) (C.fault_count children.new) (B.contents book.new)) config.now ask.now
        tree.now) }
    ensures left { LeavesTold (C.tells children.old) (B.contents book.old) (B.leaves book.old) (B.leaves book.new) }
    ensures rest { B.rests book.old book.new }
    ensures same { SameTells (C.tells children.old) (C.tells children.new) }
{
    match run_counted(alloc, children, book, config, ask, tree) {
        Ok(ran) => Ok(ran.out),
        Err(refusal) => Err(refusal),
    }
}
