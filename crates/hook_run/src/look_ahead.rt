//! Looks ahead in a run: which children it may need next, if none of them changes a file.

ghost use Rattle.std.specs.Prelude.{◌≡◌};
ghost use Rattle.child_port.specs.Telling.{SameTells};

use crate::hook_state::HookState;
use crate::hooks_ahead::may_be_last;
use crate::part_outcome::PartOutcome;
use crate::pending_part::PendingPart;
use crate::plan_state::PlanState;
use crate::running_hook::ask_of_part;
use crate::{Reuse, RunPlan};
use child_port::{ChildAsk, Children, Outcome};
use hook_base::{Items, OutOfMemory, Text, Tree, copy_texts};
use hook_config::Stage;
use result_book::Book;
use std::alloc::Global;

// How many children are asked ahead at most. The answer of each is kept until its turn.
const MOST_ASKS: usize = 64;

/// What is known of the children that come next.
#[derive(Clone, Copy)]
pub(crate) struct Outlook {
    // How many were asked ahead, and haven't come yet.
    asked: usize,
    // Whether the answer of the last part was cached. Then that of the next one is expected to be.
    is_cached: bool,
}

impl Outlook {
    /// At the start of a run.
    pub(crate) fn at_start() -> Outlook {
        Outlook {
            asked: 0,
            is_cached: false,
        }
    }

    /// After this part, whose child may have been asked unless it runs alone. If it changes files, no child
    /// that was asked comes on the same tree.
    pub(crate) fn after(self, came: &PartOutcome, is_alone: bool) -> Outlook {
        let asked = match &came.outcome {
            Outcome::Done(answer) if !answer.changes.is_empty() => 0,
            _ if came.reused || is_alone => self.asked,
            _ => self.asked.saturating_sub(1),
        };
        Outlook {
            asked,
            is_cached: came.reused,
        }
    }
}

/// Reports to the starter of the children which may come next, if it starts several at once, and if none is
/// still to come. A child whose answer is cached isn't among them. If memory is refused, or the book refuses,
/// nothing is reported.
pub(crate) fn look_ahead<'a, C: Children, B: Book>(
    children: &mut C,
    book: &B,
    reuse: Reuse,
    plan: RunPlan<'a>,
    outlook: &mut Outlook,
) -> RunPlan<'a>
    ensures plan { result ≡ plan.entry }
    ensures calls { C.call_count children.new ≡ C.call_count children.old }
    ensures faults { C.fault_count children.new ≡ C.fault_count children.old }
    ensures same { SameTells (C.tells children.old) (C.tells children.new) }
{
    let is_idle = outlook.asked > 0 || outlook.is_cached || children.at_once() < 2;
    if is_idle || !needs_child(book, reuse, &plan) {
        return plan;
    }
    let plan = plan.with_hooks_begun();
    if let Ok(asks) = asks_of(book, reuse, &plan) {
        if asks.len() > 1 {
            outlook.asked = asks.len();
            children.start_ahead(asks, &plan.done.tree);
        }
    }
    plan
}

// Whether a child of the part that waits has to be started, and others may run at the same time.
fn needs_child<B: Book>(book: &B, reuse: Reuse, plan: &RunPlan) -> bool {
    match &plan.standing {
        PlanState::Waits(waiting) => {
            !runs_alone(plan) && !is_held(book, reuse, waiting.command.as_slice(), &waiting.seen)
        }
        PlanState::Over(_) => false,
    }
}

/// Whether the child of the part that waits runs alone.
pub(crate) fn runs_alone(plan: &RunPlan) -> bool {
    match &plan.standing {
        PlanState::Waits(waiting) => {
            waiting.work.hook.require_serial || !has_batches(plan.course.ask.stage)
        }
        PlanState::Over(_) => true,
    }
}

// Whether children of this stage may run at the same time. Those of messages and those after a commit may not.
fn has_batches(stage: Stage) -> bool {
    matches!(stage, Stage::PreCommit | Stage::Manual)
}

// Whether the run may find an answer cached. So it is if the book can't say: then nothing is started ahead.
fn is_held<B: Book>(book: &B, reuse: Reuse, words: &[Text], seen: &Tree) -> bool {
    reuse != Reuse::Nothing && book.holds(words, seen).unwrap_or(true)
}

// What the children that may come next are asked: that of the part which waits, then those of the parts and
// hooks after it.
fn asks_of<'b, B: Book>(
    book: &'b B,
    reuse: Reuse,
    plan: &'b RunPlan,
) -> Result<Vec<ChildAsk>, OutOfMemory> {
    let alloc = *plan.course.hooks.allocator();
    let mut asking = Asking {
        alloc,
        book,
        reuse,
        tree: &plan.done.tree,
        asks: Vec::new(alloc),
    };
    if let PlanState::Waits(waiting) = &plan.standing {
        asking.asks.push(ask_of(alloc, waiting)?)?;
        asking.add_parts(waiting)?;
        if !may_be_last(plan.course.config, waiting.work.hook) {
            asking.add_hooks(plan.ahead.as_slice())?;
        }
    }
    Ok(asking.asks)
}

// What the child of the part that waits is asked.
fn ask_of(alloc: Global, waiting: &PendingPart) -> Result<ChildAsk, OutOfMemory> {
    Ok(ChildAsk {
        words: Items::from(copy_texts(alloc, waiting.command.as_slice())?),
        seen: waiting.seen.copy()?,
    })
}

// The children that may come next, as far as they are known.
#[derive(Drop)]
struct Asking<'b, B: Book> {
    alloc: Global,
    book: &'b B,
    reuse: Reuse,
    tree: &'b Tree,
    asks: Vec<ChildAsk>,
}

impl<'b, B: Book> Asking<'b, B> {
    // Adds the children of hooks that have begun.
    fn add_hooks(&mut self, hooks: &[HookState]) -> Result<(), OutOfMemory> {
        for state in hooks {
            if let HookState::Waits(waiting) = state {
                self.add_hook(waiting)?;
            }
        }
        Ok(())
    }

    // Adds the children of a hook, unless they run alone.
    fn add_hook(&mut self, waiting: &PendingPart) -> Result<(), OutOfMemory> {
        if waiting.work.hook.require_serial {
            return Ok(());
        }
        self.add(ask_of(self.alloc, waiting)?)?;
        self.add_parts(waiting)
    }

    // Adds the children of the parts after the one that waits.
    fn add_parts(&mut self, waiting: &PendingPart) -> Result<(), OutOfMemory> {
        let work = &waiting.work;
        for index in work.begun..work.cuts.len() {
            if self.asks.len() >= MOST_ASKS {
                break;
            }
            let cut = work.cuts.as_slice()[index];
            self.add(ask_of_part(self.alloc, work, cut, self.tree)?)?;
        }
        Ok(())
    }

    fn add(&mut self, ask: ChildAsk) -> Result<(), OutOfMemory> {
        let is_left_out = self.asks.len() >= MOST_ASKS
            || is_held(self.book, self.reuse, ask.words.as_slice(), &ask.seen);
        if !is_left_out {
            self.asks.push(ask)?;
        }
        Ok(())
    }
}
