//! A hook with children that has begun.

ghost use Rattle.std.specs.Prelude.{◌≡◌, ◌≤◌, ◌<◌, ◌++◌, IfOk, length};
ghost use Rattle.arg_partition.specs.Parts.{names_of};
ghost use Rattle.child_port.specs.Seen.{seen_of};
ghost use Rattle.hook_run.specs.HookRun.{further_of, sees_whole};
ghost use Rattle.hook_run.specs.Plans.{gathered_with};
ghost use Rattle.hook_run.specs.PlanStates.{AreFurther, HasGoneOn, at_work, with_gathered};

use crate::hook_state::HookState;
use crate::modified::is_modified;
use crate::part_totals::{PartTotals, gathered_with};
use crate::pending_part::PendingPart;
use arg_partition::Cut;
use child_port::{ChildAsk, Outcome, seen_of};
use hook_base::{Items, OutOfMemory, RepoPath, Text, Tree};
use hook_config::Hook;
use report_text::Ending;
use std::alloc::Global;

/// A hook with children that has begun.
#[derive(Drop)]
pub(crate) struct RunningHook<'a> {
    pub(crate) hook: &'a Hook,
    /// The tree on which the hook began.
    pub(crate) before: Tree,
    /// The paths of the further files that its children see, of that tree. They aren't looked for again for
    /// each part, since parts add no files.
    pub(crate) further: Items<RepoPath>,
    /// The words of its command, without names.
    pub(crate) words: Items<Text>,
    /// The names of all its parts.
    pub(crate) names: Items<RepoPath>,
    /// The cuts of those names, one for each part.
    pub(crate) cuts: Items<Cut>,
    /// How many of the parts have begun.
    pub(crate) begun: usize,
    /// What is gathered of the parts with an outcome.
    pub(crate) gathered: PartTotals,
}

/// How the hook goes on from this tree: its next part waits, or it has ended if no part is left.
pub(crate) fn go_on<'a>(
    alloc: Global,
    work: RunningHook<'a>,
    tree: &Tree,
) -> Result<HookState<'a>, OutOfMemory>
    requires further { AreFurther work.hook.now work.further tree.now }
    ensures { IfOk result (HasGoneOn (at_work work.entry) tree.now) }
{
    if work.begun < work.cuts.len() {
        waits(alloc, work, tree)
    } else {
        Ok(ended(work, tree))
    }
}

// The next part of the hook waits. It hasn't begun.
fn waits<'a>(
    alloc: Global,
    work: RunningHook<'a>,
    tree: &Tree,
) -> Result<HookState<'a>, OutOfMemory>
    requires left { work.begun < length work.cuts }
    requires further { AreFurther work.hook.now work.further tree.now }
    ensures { IfOk result (HasGoneOn (at_work work.entry) tree.now) }
{
    let mut work = work;
    let cut = work.cuts.as_slice()[work.begun];
    let names = names_of(work.names.as_slice(), cut);
    let command = command_with(alloc, work.words.as_slice(), names)?;
    let seen = seen_by(alloc, &work, command.as_slice(), tree)?;
    work.begun += 1;
    Ok(HookState::Waits(PendingPart {
        work,
        command,
        seen,
    }))
}

// The files of the tree that a child of this command of the hook sees.
#[tactic(auto, using(crate::proofs::FurtherLemmas::seen_further))]
fn seen_by(
    alloc: Global,
    work: &RunningHook,
    command: &[Text],
    tree: &Tree,
) -> Result<Tree, OutOfMemory>
    requires { AreFurther work.now.hook.now work.now.further tree.now }
    ensures { IfOk result (λ seen. seen ≡ seen_of command.now (further_of work.now.hook.now tree.now)
        (sees_whole work.now.hook.now) tree.now) }
{
    let further = work.further.as_slice();
    let whole = !work.hook.pass_filenames;
    seen_of(alloc, command, further, whole, tree)
}

// The hook has ended, with what its parts gathered.
fn ended<'a>(work: RunningHook<'a>, tree: &Tree) -> HookState<'a>
    requires { length work.cuts ≤ work.begun }
    ensures { HasGoneOn (at_work work.entry) tree.now result }
{
    let RunningHook {
        before,
        gathered,
        ..
    } = work;
    let PartTotals {
        status,
        faults,
        output,
        unsteady,
    } = gathered;
    let ending = Ending::Ran {
        status,
        faults,
        modified: is_modified(&before, tree),
        output,
    };
    HookState::Ended(ending, unsteady)
}

// The names of a part.
fn names_of(names: &[RepoPath], cut: Cut) -> &[RepoPath]
    ensures { result.now ≡ names_of names.now cut }
{
    let end = if cut.end < names.len() {
        cut.end
    } else {
        names.len()
    };
    if cut.start < end {
        &names[cut.start..end]
    } else {
        &names[..0]
    }
}

// The words, followed by the names.
fn command_with(
    alloc: Global,
    words: &[Text],
    names: &[RepoPath],
) -> Result<Items<Text>, OutOfMemory>
    ensures { IfOk result (λ command. command ≡ words.now ++ names.now) }
{
    let mut command = words.to_vec(alloc)?;
    'names: for name in names {
        command.push(Text::copy_of(alloc, name.as_str())?)?;
    }
    Ok(Items::from(command))
}

/// What the child of the hook's part with these names is asked on this tree.
pub(crate) fn ask_of_part(
    alloc: Global,
    work: &RunningHook,
    cut: Cut,
    tree: &Tree,
) -> Result<ChildAsk, OutOfMemory> {
    let names = names_of(work.names.as_slice(), cut);
    let words = command_with(alloc, work.words.as_slice(), names)?;
    let further = work.further.as_slice();
    let whole = !work.hook.pass_filenames;
    let seen = seen_of(alloc, words.as_slice(), further, whole, tree)?;
    Ok(ChildAsk { words, seen })
}

/// The hook after one of its parts with this outcome. `unsteady` says whether that is another answer than the
/// cached one.
pub(crate) fn work_with<'a>(
    work: RunningHook<'a>,
    outcome: &Outcome,
    unsteady: bool,
) -> Result<RunningHook<'a>, OutOfMemory>
    ensures work { IfOk result (λ after. at_work after
        ≡ with_gathered (at_work work.entry) (gathered_with work.entry.gathered outcome.now unsteady)) }
    ensures hook { IfOk result (λ after. after.hook.now ≡ work.entry.hook.now) }
    ensures further { IfOk result (λ after. after.further ≡ work.entry.further) }
{
    let RunningHook {
        hook,
        before,
        further,
        words,
        names,
        cuts,
        begun,
        gathered,
    } = work;
    let gathered = gathered_with(gathered, outcome, unsteady)?;
    Ok(RunningHook {
        hook,
        before,
        further,
        words,
        names,
        cuts,
        begun,
        gathered,
    })
}
