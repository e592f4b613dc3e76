//! What is reported of a run while it goes on.

ghost use Rattle.std.specs.Prelude.{◌≡◌};
ghost use Rattle.child_port.specs.Telling.{SameTells};

use crate::RunPlan;
use crate::pending_part::PendingPart;
use crate::plan_state::PlanState;
use child_port::{Children, News};
use hook_base::OutOfMemory;
use report_text::hook_texts;

/// Reports to the starter of the children, if it listens, how the run goes on. It reports the texts of the
/// hooks that have ended, but for the first `ended` of them, and the hook of the next child. The answer is
/// how many hooks have ended, or `ended` if the starter doesn't listen. If memory is refused, their texts
/// aren't reported.
pub(crate) fn tell_news<C: Children>(children: &mut C, plan: &RunPlan, ended: usize) -> usize
    ensures calls { C.call_count children.new ≡ C.call_count children.old }
    ensures faults { C.fault_count children.new ≡ C.fault_count children.old }
    ensures same { SameTells (C.tells children.old) (C.tells children.new) }
{
    if !children.hears() {
        return ended;
    }
    if let Ok(text) = report_from(plan, ended) {
        children.hear(News::Report(text.as_slice()));
    }
    if let PlanState::Waits(waiting) = &plan.standing {
        children.hear(hook_news(plan, waiting));
    }
    plan.done.results.len()
}

// The report's texts of the hooks that have ended, but for the first `ended` of them.
fn report_from(plan: &RunPlan, ended: usize) -> Result<Vec<u8>, OutOfMemory> {
    let results = plan.done.results.as_slice();
    let alloc = *plan.course.hooks.allocator();
    hook_texts(
        alloc,
        plan.course.columns,
        &results[ended.min(results.len())..],
    )
}

// Says that the next child belongs to the hook that waits.
fn hook_news<'n>(plan: &RunPlan, waiting: &'n PendingPart) -> News<'n> {
    News::Hook {
        place: plan.place,
        hooks: plan.course.hooks.len(),
        id: waiting.work.hook.id.as_str(),
        name: waiting.work.hook.name.as_str(),
    }
}
