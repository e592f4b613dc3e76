//! How a part of a run gets its outcome: from a child, or from the cache. (docs/REFERENCE.md, "Cached
//! results".)

ghost use Rattle.std.specs.Prelude.{◌≡◌, ◌≢◌, ◌⊎◌, ◌+◌, ◌-◌, ◌^◌, ◌<◌, ◌∷◌, [], IfOk, IfErr, OnOk, OnErr, false};
ghost use Rattle.child_port.specs.Outcomes.{faults_in};
ghost use Rattle.child_port.specs.Telling.{SameTells};
ghost use Rattle.result_book.specs.Contents.{Contents};
ghost use Rattle.result_book.specs.Told.{AddsTold};
ghost use Rattle.hook_run.specs.Answers.{AreAnswered};
ghost use Rattle.hook_run.specs.Moments.{moment};
ghost use Rattle.hook_run.specs.PlanRuns.{IsPartStarted, IsPartStopped, IsPartUnput, one_if, part_of};
ghost use Rattle.hook_run.specs.Plans.{need_of, seen_of_plan, words_of_plan};
ghost use Rattle.hook_run.specs.Refusals.{IsOfBook, is_of_book};
ghost use Rattle.hook_run.specs.Starts.{AfterOutcome, IsUnsteadyMark};

use crate::part_outcome::PartOutcome;
use crate::{Need, Reuse, RunPlan, RunRefusal};
use child_port::{Answer, Children, Outcome, is_stray};
use hook_base::{Text, Tree};
use result_book::{Book, BookFault};

/// The outcome of the part that the plan needs. The part is looked up first. A cached result is its outcome
/// if the run may use it; otherwise a child is started.
pub(crate) fn answer_part<C: Children, B: Book>(
    children: &mut C,
    book: &mut B,
    reuse: Reuse,
    plan: &RunPlan,
) -> Result<PartOutcome, RunRefusal>
    requires { need_of plan.now ≡ Need.Child }
    ensures answered { IfOk result (λ came. AreAnswered (C.tells children.old) reuse
        (moment (C.call_count children.old) (C.fault_count children.old) (B.contents book.old))
        (moment (C.call_count children.new) (C.fault_count children.new) (B.contents book.new))
        (part_of plan.now came ∷ [])) }
    ensures reused { IfOk result (λ came. C.call_count children.new + one_if came.reused
        ≡ C.call_count children.old + 1) }
    ensures stopped { IfErr result (IsPartStopped (C.tells children.old) reuse
        (moment (C.call_count children.old) (C.fault_count children.old) (B.contents book.old))
        (moment (C.call_count children.new) (C.fault_count children.new) (B.contents book.new)) plan.now) }
    ensures refused { IfErr result (IsOfBook B.refuses) }
    ensures left { (left : Contents) → B.leaves book.new left
        → B.leaves book.old left ⊎ AddsTold (C.tells children.old) (B.contents book.old) left }
    ensures rest { B.rests book.old book.new }
    ensures same { SameTells (C.tells children.old) (C.tells children.new) }
{
    let found = book.find(plan.words(), plan.seen())?;
    let Some(answer) = found else {
        return start_part(children, book, plan, &None);
    };
    if !reuse.serves(&answer) {
        return start_part(children, book, plan, &Some(answer));
    }
    Ok(PartOutcome {
        outcome: Outcome::Done(answer),
        unsteady: false,
        reused: true,
    })
}

// Starts a child for the part that the plan needs, and caches its answer. `found` is what the look-up gave.
fn start_part<C: Children, B: Book>(
    children: &mut C,
    book: &mut B,
    plan: &RunPlan,
    found: &Option<Answer>,
) -> Result<PartOutcome, RunRefusal>
    requires { need_of plan.now ≡ Need.Child }
    ensures started { IfOk result (λ came. IsPartStarted (C.tells children.old) found.now
        (moment (C.call_count children.old) (C.fault_count children.old) (B.contents book.old))
        (moment (C.call_count children.new) (C.fault_count children.new) (B.contents book.new))
        (part_of plan.now came)) }
    ensures reused { IfOk result (λ came. C.call_count children.new + one_if came.reused
        ≡ C.call_count children.old + 1) }
    ensures unput { IfErr result (IsPartUnput (C.tells children.old)
        (moment (C.call_count children.old) (C.fault_count children.old) (B.contents book.old))
        (moment (C.call_count children.new) (C.fault_count children.new) (B.contents book.new)) plan.now) }
    ensures refused { IfErr result (IsOfBook B.refuses) }
    ensures left { (left : Contents) → B.leaves book.new left
        → B.leaves book.old left ⊎ AddsTold (C.tells children.old) (B.contents book.old) left }
    ensures rest { B.rests book.old book.new }
    ensures same { SameTells (C.tells children.old) (C.tells children.new) }
{
    let outcome = outcome_of(children, plan)?;
    put_outcome(book, plan.words(), plan.seen(), &outcome)?;
    Ok(PartOutcome {
        unsteady: is_other(found, &outcome),
        outcome,
        reused: false,
    })
}

// The outcome of the child that the plan needs.
fn outcome_of<C: Children>(children: &mut C, plan: &RunPlan) -> Result<Outcome, RunRefusal>
    requires { need_of plan.now ≡ Need.Child }
    ensures told { IfOk result (λ outcome. C.tells children.old (words_of_plan plan.now) (seen_of_plan plan.now)
        outcome) }
    ensures calls { OnOk result (C.call_count children.new ≡ C.call_count children.old + 1) }
    ensures faults { IfOk result (λ outcome. C.fault_count children.new
        ≡ C.fault_count children.old + faults_in outcome) }
    ensures refused_calls { OnErr result (C.call_count children.new ≡ C.call_count children.old) }
    ensures refused_faults { OnErr result (C.fault_count children.new ≡ C.fault_count children.old) }
    ensures asked { IfErr result (λ refusal. refusal ≢ RunRefusal.NoSuchHook) }
    ensures not_book { IfErr result (λ refusal. is_of_book refusal ≡ false) }
    ensures spent { IfErr result (λ refusal. refusal ≡ RunRefusal.Spent → C.call_count children.new ≡ 2 ^ 64 - 1) }
    ensures same { SameTells (C.tells children.old) (C.tells children.new) }
{
    if children.calls() == u64::MAX {
        return Err(RunRefusal::Spent);
    }
    let outcome = children.run(plan.words(), plan.tree(), plan.seen())?;
    Ok(outcome)
}

// Caches a completed answer that changes only seen files. Nothing else is cached.
fn put_outcome<B: Book>(
    book: &mut B,
    words: &[Text],
    seen: &Tree,
    outcome: &Outcome,
) -> Result<(), BookFault>
    ensures after { OnOk result (AfterOutcome words.now seen.now outcome.now (B.contents book.old)
        (B.contents book.new)) }
    ensures kept { OnErr result (B.contents book.new ≡ B.contents book.old) }
    ensures refused { IfErr result (λ fault. B.refuses fault) }
    ensures left { (left : Contents) → B.leaves book.new left
        → B.leaves book.old left ⊎ AfterOutcome words.now seen.now outcome.now (B.contents book.old) left }
    ensures rest { B.rests book.old book.new }
{
    match outcome {
        Outcome::Done(answer) => {
            if is_stray(answer, seen) {
                return Ok(());
            }
            book.put(words, seen, answer)
        }
        Outcome::Failed(_) => Ok(()),
    }
}

// Whether a completed answer differs from the one that was found.
fn is_other(found: &Option<Answer>, outcome: &Outcome) -> bool
    ensures { IsUnsteadyMark found.now outcome.now result }
{
    match (found, outcome) {
        (Some(found), Outcome::Done(answer)) => answer != found,
        _ => false,
    }
}
