//! A run over children and their cached results.

ghost use Rattle.std.specs.Prelude.{◌≡◌, ◌↔◌, ◌⊎◌, ◌+◌, ◌-◌, ◌^◌, ◌∷◌, [], min, IfOk, IfErr, true};
ghost use Rattle.child_port.specs.Telling.{SameTells};
ghost use Rattle.result_book.specs.Contents.{Contents};
ghost use Rattle.result_book.specs.Told.{AddsTold};
ghost use Rattle.hook_run.specs.Answers.{AreAnswered};
ghost use Rattle.hook_run.specs.Asks.{names_no_hook};
ghost use Rattle.hook_run.specs.ChildFaults.{child_faults};
ghost use Rattle.hook_run.specs.Moments.{moment};
ghost use Rattle.hook_run.specs.PlanRuns.{IsPartStopped, IsPlanRun, IsPlanStopped, one_if, part_of};
ghost use Rattle.hook_run.specs.Plans.{need_of};
ghost use Rattle.hook_run.specs.Refusals.{IsOfBook};
ghost use Rattle.hook_run.specs.RunOuts.{IsCountedRun, IsRunOver, IsStoppedRun};

use crate::look_ahead::{Outlook, look_ahead, runs_alone};
use crate::news::tell_news;
use crate::part_answer::answer_part;
use crate::part_outcome::PartOutcome;
use crate::{HooksRun, Need, Reuse, RunAsk, RunPlan, RunRefusal};
use child_port::Children;
use hook_base::Tree;
use hook_config::Config;
use result_book::Book;
use std::alloc::Global;

/// Runs the configuration's hooks on the files of the tree, as [`RunPlan::begin`] says. The words and the
/// seen files of each part are looked up in the book, even if the run may use no cached result. If the run
/// may use the result that is found, the part has it, changes included, and no child is started. Otherwise a
/// child is started.
///
/// A completed answer that changes only seen files is put in the book, in place of an earlier one. A fault
/// never is. A hook is unsteady if a child was started for it although a result was cached at that moment,
/// and the child answered otherwise.
///
/// `NoSuchHook` exactly if `only` has a name that no hook of the stage has. Then come `OutOfMemory` if memory
/// is refused, and `Book` if the book refuses. `Spent` comes if a child is needed and the children have
/// reported as many outcomes as can be counted, 2^64 - 1.
///
/// A refusal leaves the children with the outcomes that they have reported; a run begins with these. It
/// leaves the book with the rows that were found and the answers that were put by then, each in front of
/// those before it.
pub fn run_hooks<C: Children, B: Book>(
    alloc: Global,
    children: &mut C,
    book: &mut B,
    config: &Config,
    ask: &RunAsk,
    tree: &Tree,
) -> Result<HooksRun, RunRefusal>
    ensures run { IfOk result (λ ran. IsRunOver (C.tells children.old)
        (moment (C.call_count children.old) (C.fault_count children.old) (B.contents book.old))
        (moment (C.call_count children.new) (C.fault_count children.new) (B.contents book.new)) config.now ask.now
        tree.now ran.out) }
    ensures reused { IfOk result (IsCountedRun (C.tells children.old)
        (moment (C.call_count children.old) (C.fault_count children.old) (B.contents book.old))
        (moment (C.call_count children.new) (C.fault_count children.new) (B.contents book.new)) config.now ask.now
        tree.now) }
    ensures stopped { IfErr result (IsStoppedRun (C.tells children.old)
        (moment (C.call_count children.old) (C.fault_count children.old) (B.contents book.old))
        (moment (C.call_count children.new) (C.fault_count children.new) (B.contents book.new)) config.now ask.now
        tree.now) }
    ensures reported { IfOk result (λ ran. C.fault_count children.new
        ≡ C.fault_count children.old + child_faults ran.out.results) }
    ensures no_hook { (result ≡ Err RunRefusal.NoSuchHook) ↔ (names_no_hook config.now ask.now ≡ true) }
    ensures refused { IfErr result (IsOfBook B.refuses) }

    // What the book caches afterwards was cached before or was reported, even after a refusal. The same holds
    // for what a crash leaves.
    ensures told { AddsTold (C.tells children.old) (B.contents book.old) (B.contents book.new) }
    ensures left { (left : Contents) → B.leaves book.new left
        → B.leaves book.old left ⊎ AddsTold (C.tells children.old) (B.contents book.old) left }
    ensures rest { B.rests book.old book.new }
    ensures same { SameTells (C.tells children.old) (C.tells children.new) }
{
    let plan = RunPlan::begin(alloc, config, ask, tree)?;
    run_plan(children, book, ask.reuse, plan)
}

// Completes the plan with the outcomes of its parts.
fn run_plan<C: Children, B: Book>(
    children: &mut C,
    book: &mut B,
    reuse: Reuse,
    plan: RunPlan,
) -> Result<HooksRun, RunRefusal>
    ensures run { IfOk result (IsPlanRun (C.tells children.old) reuse
        (moment (C.call_count children.old) (C.fault_count children.old) (B.contents book.old))
        (moment (C.call_count children.new) (C.fault_count children.new) (B.contents book.new)) plan.entry) }
    ensures stopped { IfErr result (IsPlanStopped (C.tells children.old) reuse
        (moment (C.call_count children.old) (C.fault_count children.old) (B.contents book.old))
        (moment (C.call_count children.new) (C.fault_count children.new) (B.contents book.new)) plan.entry) }
    ensures refused { IfErr result (IsOfBook B.refuses) }
    ensures left { (left : Contents) → B.leaves book.new left
        → B.leaves book.old left ⊎ AddsTold (C.tells children.old) (B.contents book.old) left }
    ensures rest { B.rests book.old book.new }
    ensures same { SameTells (C.tells children.old) (C.tells children.new) }
{
    let mut outlook = Outlook::at_start();
    let begun = look_ahead(children, book, reuse, plan, &mut outlook);
    let mut plan = begun;
    let mut reused = 0;
    let mut ended = 0;
    'parts: while plan.next() == Need::Child {
        let is_alone = runs_alone(&plan);
        let came = answer_told(children, book, reuse, &plan, &mut ended)?;
        reused = reused_with(reused, came.reused);
        outlook = outlook.after(&came, is_alone);
        let told = plan.tell_marked(came.outcome, came.unsteady)?;
        plan = look_ahead(children, book, reuse, told, &mut outlook);
    }
    let _all = tell_news(children, &plan, ended);
    Ok(HooksRun {
        out: plan.finish(),
        reused,
    })
}

// The outcome of the part that the plan needs, as `answer_part` says. The progress of the run is reported
// first, and `ended` is set to how many hooks have ended.
fn answer_told<C: Children, B: Book>(
    children: &mut C,
    book: &mut B,
    reuse: Reuse,
    plan: &RunPlan,
    ended: &mut usize,
) -> Result<PartOutcome, RunRefusal>
    requires { need_of plan.now ≡ Need.Child }
    ensures answered { IfOk result (λ came. AreAnswered (C.tells children.old) reuse
        (moment (C.call_count children.old) (C.fault_count children.old) (B.contents book.old))
        (moment (C.call_count children.new) (C.fault_count children.new) (B.contents book.new))
        (part_of plan.now came ∷ [])) }
    ensures reused { IfOk result (λ came. C.call_count children.new + one_if came.reused
        ≡ C.call_count children.old + 1) }
    ensures stopped { IfErr result (IsPartStopped (C.tells children.old) reuse
        (moment (C.call_count children.old) (C.fault_count children.old) (B.contents book.old))
        (moment (C.call_count children.new) (C.fault_count children.new) (B.contents book.new)) plan.now) }
    ensures refused { IfErr result (IsOfBook B.refuses) }
    ensures left { (left : Contents) → B.leaves book.new left
        → B.leaves book.old left ⊎ AddsTold (C.tells children.old) (B.contents book.old) left }
    ensures rest { B.rests book.old book.new }
    ensures same { SameTells (C.tells children.old) (C.tells children.new) }
{
    *ended = tell_news(children, plan, *ended);
    match answer_part(children, book, reuse, plan) {
        Ok(came) => Ok(came),
        Err(refusal) => Err(refusal),
    }
}

// How many parts used a cached result, with one more part that did or didn't.
fn reused_with(reused: u64, is_reused: bool) -> u64
    ensures { result ≡ min (reused + one_if is_reused) (2 ^ 64 - 1) }
{
    if is_reused {
        reused.saturating_add(1)
    } else {
        reused
    }
}
