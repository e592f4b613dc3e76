//! A run of hooks on the staged files.

ghost use Rattle.std.specs.Prelude.{◌≡◌, IfOk, IfErr};
ghost use Rattle.child_port.specs.Telling.{SameTells};
ghost use Rattle.repo_store.specs.StoreBooks.{IsAtRest, MayRemember, remembered_by};
ghost use Rattle.hook_run.specs.Moments.{moment};
ghost use Rattle.commit_flow.specs.declared.command.Command.TheVariants.{Run};
ghost use Rattle.commit_flow.specs.Commands.{reply_of};
ghost use Rattle.commit_flow.specs.KeptByHooks.{KeepsForRun};
ghost use Rattle.commit_flow.specs.Preparations.{HasRunOnStaged, HasRunReady, HasStoppedReady, LeavesTold};
ghost use Rattle.commit_flow.specs.RunSteps.{IsRunStep, IsStoppedStep, reply_of_run};
ghost use Rattle.commit_flow.specs.Stops.{IsPlayedSafely};

use crate::hooks::run_counted;
use crate::prepared::{Prepared, prepare};
use crate::{Host, HostAsk, HostRefusal, StagedRun};
use child_port::Children;
use hook_run::{HooksRun, RunOut};
use repo_store::Store;
use result_book::Book;
use sqlite::Alter;
use std::alloc::Global;

impl<S: Alter> Host<S> {
    /// Runs hooks on the staged files, with what is cached and the children's outcomes, as
    /// [`run_hooks`](hook_run::run_hooks) says. It sets the fixes to what the hooks did to the staged files;
    /// if they did nothing, earlier fixes are removed. The staged files stay. Answers of children are cached
    /// in the store, each as soon as it is reported; one that changes files that its child hasn't seen isn't.
    /// The hooks are those of the staged configuration, changed by the options of the run. `fresh` and the
    /// options say which cached results the run may use.
    ///
    /// Refusals come in this order:
    ///
    /// - before any child is started: no staged configuration (`NoConfig`), one that can't be read
    ///   (`BadConfig`), the first name that is no path (`BadPath`) or isn't staged (`NotStaged`), and a name
    ///   that no hook of the stage has (`NoSuchHook`);
    /// - while hooks run: `Spent` if a child is needed and the children have reported as many outcomes as can
    ///   be counted;
    /// - for an answer to be cached while hooks run, and for a fix after the last child: `Collision` if its
    ///   contents have the digest of others, and `Store` if it has more than 16 MiB.
    ///
    /// `Store` comes also if the database refuses, even a look-up, which notes that an answer was used.
    /// `OutOfMemory` comes if memory is refused. A refusal leaves the repository as it was, the children with
    /// the outcomes that they have reported, and what was cached by then.
    pub fn run<C: Children>(
        &mut self,
        alloc: Global,
        children: &mut C,
        ask: &HostAsk,
    ) -> Result<StagedRun, HostRefusal>
        ensures step { IfOk result (λ ran. IsRunStep (C.tells children.old)
            (moment (C.call_count children.old) (C.fault_count children.old) (remembered_by self.old.store.kept))
            (moment (C.call_count children.new) (C.fault_count children.new) (remembered_by self.new.store.kept))
            self.old.store.kept.repo ask.now ran self.new.store.kept.repo) }
        ensures stopped { IfErr result (IsStoppedStep (C.tells children.old)
            (moment (C.call_count children.old) (C.fault_count children.old) (remembered_by self.old.store.kept))
            (moment (C.call_count children.new) (C.fault_count children.new) (remembered_by self.new.store.kept))
            self.old.store.kept.repo ask.now self.new.store.kept) }
        ensures fixed { IfOk result (λ ran. self.new.store.kept.repo.fixes ≡ ran.changes) }
        ensures kept { KeepsForRun self.old.store.kept self.new.store.kept result }
        ensures command { IsPlayedSafely S.Store (C.tells children.old)
            (moment (C.call_count children.old) (C.fault_count children.old) (remembered_by self.old.store.kept))
            (moment (C.call_count children.new) (C.fault_count children.new) (remembered_by self.new.store.kept))
            self.old.store self.new.store (Run ask.now) (reply_of reply_of_run result) }
        ensures same { SameTells (C.tells children.old) (C.tells children.new) }
    {
        run_in(alloc, children, &mut self.store, ask)
    }
}

// The run, on the host's store.
fn run_in<C: Children, S: Alter>(
    alloc: Global,
    children: &mut C,
    store: &mut Store<S>,
    ask: &HostAsk,
) -> Result<StagedRun, HostRefusal>
    ensures step { IfOk result (λ ran. IsRunStep (C.tells children.old)
        (moment (C.call_count children.old) (C.fault_count children.old) (remembered_by store.old.kept))
        (moment (C.call_count children.new) (C.fault_count children.new) (remembered_by store.new.kept))
        store.old.kept.repo ask.now ran store.new.kept.repo) }
    ensures stopped { IfErr result (IsStoppedStep (C.tells children.old)
        (moment (C.call_count children.old) (C.fault_count children.old) (remembered_by store.old.kept))
        (moment (C.call_count children.new) (C.fault_count children.new) (remembered_by store.new.kept))
        store.old.kept.repo ask.now store.new.kept) }
    ensures fixed { IfOk result (λ ran. store.new.kept.repo.fixes ≡ ran.changes) }
    ensures kept { KeepsForRun store.old.kept store.new.kept result }
    ensures command { IsPlayedSafely S.Store (C.tells children.old)
        (moment (C.call_count children.old) (C.fault_count children.old) (remembered_by store.old.kept))
        (moment (C.call_count children.new) (C.fault_count children.new) (remembered_by store.new.kept)) store.old
        store.new (Run ask.now) (reply_of reply_of_run result) }
    ensures same { SameTells (C.tells children.old) (C.tells children.new) }
{
    let ran = run_on_staged(alloc, children, store, ask)?;
    store.set_fixes(ran.changes.as_slice())?;
    Ok(ran)
}

// Runs hooks on the staged files, and sets no fixes.
fn run_on_staged<C: Children, S: Alter>(
    alloc: Global,
    children: &mut C,
    store: &mut Store<S>,
    ask: &HostAsk,
) -> Result<StagedRun, HostRefusal>
    ensures run { IfOk result (HasRunOnStaged (C.tells children.old)
        (moment (C.call_count children.old) (C.fault_count children.old) (remembered_by store.old.kept))
        (moment (C.call_count children.new) (C.fault_count children.new) (remembered_by store.new.kept))
        store.old.kept.repo ask.now) }
    ensures stopped { IfErr result (IsStoppedStep (C.tells children.old)
        (moment (C.call_count children.old) (C.fault_count children.old) (remembered_by store.old.kept))
        (moment (C.call_count children.new) (C.fault_count children.new) (remembered_by store.new.kept))
        store.old.kept.repo ask.now store.new.kept) }
    ensures left { LeavesTold (C.tells children.old) (remembered_by store.old.kept) (MayRemember S.Store store.old)
        (MayRemember S.Store store.new) }
    ensures rest { IsAtRest S.Store store.old store.new }
    ensures same { SameTells (C.tells children.old) (C.tells children.new) }
{
    let prepared = prepare(alloc, store, ask)?;
    run_prepared(alloc, children, store, &prepared)
}

// Runs the hooks that were prepared.
fn run_prepared<C: Children, B: Book>(
    alloc: Global,
    children: &mut C,
    book: &mut B,
    prepared: &Prepared,
) -> Result<StagedRun, HostRefusal>
    ensures run { IfOk result (HasRunReady (C.tells children.old)
        (moment (C.call_count children.old) (C.fault_count children.old) (B.contents book.old))
        (moment (C.call_count children.new) (C.fault_count children.new) (B.contents book.new)) prepared.now) }
    ensures stopped { IfErr result (HasStoppedReady B.refuses (C.tells children.old)
        (moment (C.call_count children.old) (C.fault_count children.old) (B.contents book.old))
        (moment (C.call_count children.new) (C.fault_count children.new) (B.contents book.new)) prepared.now) }
    ensures left { LeavesTold (C.tells children.old) (B.contents book.old) (B.leaves book.old) (B.leaves book.new) }
    ensures rest { B.rests book.old book.new }
    ensures same { SameTells (C.tells children.old) (C.tells children.new) }
{
    let Prepared { config, ask, tree } = prepared;
    let ran = run_counted(alloc, children, book, config, ask, tree)?;
    let changes = tree.changes_to(&ran.out.tree)?;
    let HooksRun { out, reused } = ran;
    let RunOut {
        passed,
        report,
        results: _,
        tree: _,
        unsteady,
    } = out;
    Ok(StagedRun {
        passed,
        report,
        changes,
        unsteady,
        reused,
    })
}
