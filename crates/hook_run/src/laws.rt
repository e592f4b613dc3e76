//! Laws of the definitions that the contracts cite. Each is a function that returns nothing: what it ensures
//! is a theorem.

ghost use Rattle.std.specs.Prelude.{◌≡◌, ◌++◌, ℕ, List, [], None, map};
ghost use Rattle.child_port.specs.declared.answer.Outcome.{Outcome};
ghost use Rattle.child_port.specs.Telling.{SameTells};
ghost use Rattle.hook_base.specs.declared.file.File.{File};
ghost use Rattle.hook_base.specs.Trees.{entry_of, path_of};
ghost use Rattle.hook_config.specs.declared.configuration.Config.{Config};
ghost use Rattle.hook_config.specs.declared.configuration.Hook.{Hook};
ghost use Rattle.path_select.specs.Selection.{rules_of_pattern, selected};
ghost use Rattle.result_book.specs.Told.{IsTold};
ghost use Rattle.hook_run.specs.declared.run_ask.RunAsk.{RunAsk};
ghost use Rattle.hook_run.specs.declared.run_out.RunOut.{RunOut};
ghost use Rattle.hook_run.specs.ChildFaults.{child_faults};
ghost use Rattle.hook_run.specs.HookRun.{further_of};
ghost use Rattle.hook_run.specs.Limits.{most_command_bytes};
ghost use Rattle.hook_run.specs.Moments.{Moment};
ghost use Rattle.hook_run.specs.OneAnswer.{AreSameRuns, IsFaultless, OneAnswer};
ghost use Rattle.hook_run.specs.Parts.{AllTold, Part, all_parts, faults_of};
ghost use Rattle.hook_run.specs.ReusedRuns.{AreServedOrStarted};
ghost use Rattle.hook_run.specs.RunOuts.{IsRunOut, IsRunOver};
ghost use Rattle.hook_run.specs.SameRuns.{IsNextOf, outcomes_of, without_marks};
ghost use Rattle.hook_run.specs.UnseenEdits.{EndAlike, HasRunAlike, HoldsAll, IsUnseenEdit, reusing_all};

use crate::MOST_COMMAND_BYTES;
use child_port::Children;

/// The limit of the code is that of the definitions.
pub fn the_limits_are_those_defined()
    ensures { MOST_COMMAND_BYTES ≡ most_command_bytes }
{}

/// Whatever is asked of a configuration on a tree, and whatever outcomes its children give for their words
/// and what they see, there is a run with these outcomes.
pub fn there_is_a_run()
    ensures { (config : Config) (ask : RunAsk) (tree : List File) (answers : List (List ℕ) → List File → Outcome)
        → (trace : List (List Part)) × (out : RunOut) × IsRunOut config ask tree trace out
        × AllTold (λ words seen outcome. outcome ≡ answers words seen) (all_parts trace) }
{}

/// The results of a run report as many faults of children as its parts have. A name that doesn't fit is no
/// such fault. A hook that was skipped, or that starts no child, has none.
pub fn each_fault_is_reported()
    ensures { (config : Config) (ask : RunAsk) (tree : List File) (trace : List (List Part)) (out : RunOut)
        → IsRunOut config ask tree trace out → child_faults out.results ≡ faults_of (all_parts trace) }
{}

/// Take two runs of one configuration, asked the same, on one tree. The outcomes so far decide the words of
/// each child so far and what it saw. They also decide what comes next: the words of the next part and what
/// its child sees, or the end with what the run gives. Only the ids of unsteady hooks aren't decided.
pub fn outcomes_decide_a_run()
    ensures { (config : Config) (ask : RunAsk) (tree : List File) (trace others : List (List Part))
        (first second : RunOut) (front begun rest more : List Part) → IsRunOut config ask tree trace first
        → IsRunOut config ask tree others second → all_parts trace ≡ front ++ rest → all_parts others ≡ begun ++ more
        → outcomes_of front ≡ outcomes_of begun
        → (without_marks front ≡ without_marks begun) × IsNextOf first second rest more }
{}

/// The parts of a run, with their `unsteady` marks, decide all that it gives.
pub fn parts_decide_what_is_given()
    ensures { (config : Config) (ask : RunAsk) (tree : List File) (trace others : List (List Part))
        (first second : RunOut) → IsRunOut config ask tree trace first → IsRunOut config ask tree others second
        → all_parts trace ≡ all_parts others → first ≡ second }
{}

/// The further files that a hook's children see are those that its pattern `x_reads` selects alone. All paths are
/// candidates, all other patterns are the default ones of a configuration, and no tags are asked for. The premise
/// is that no file's path is empty.
pub fn further_files_are_those_that_a_pattern_selects()
    ensures { (hook : Hook) (tree : List File) → entry_of [] tree ≡ None
        → further_of hook tree ≡ selected (rules_of_pattern hook.x_reads) (map path_of tree) tree }
{}

/// Each part of a run has an answer that the run may take from the cache, or a child was started for it. If
/// only results that passed may be used, a child of this run reported each outcome that is a failure or a
/// fault. If none may be used, a child of this run reported each outcome.
pub fn each_part_is_served_or_started<C: Children>(children: &C)
    ensures { (from to : Moment) (config : Config) (ask : RunAsk) (tree : List File) (out : RunOut)
        → (over : IsRunOver (C.tells children.now) from to config ask tree out)
        → AreServedOrStarted ask.reuse (all_parts over.trace) over.answered.started }
{}

/// Children that give one answer to the same words on the same seen files leave no choice. Take two runs of
/// one configuration, asked the same, on one tree, over children that may report the same outcomes. If each
/// outcome of both may be reported and none is a fault, they have the same parts and give the same. The marks
/// of the parts, and so the ids of unsteady hooks, are left out: they depend on what was cached.
pub fn one_answer_makes_one_run<C: Children, D: Children>(children: &C, others: &D)
    ensures { SameTells (C.tells children.now) (D.tells others.now) → OneAnswer (C.tells children.now)
        → (config : Config) (ask : RunAsk) (tree : List File) (trace theirs : List (List Part)) (first second : RunOut)
        → IsFaultless (C.tells children.now) config ask tree trace first
        → IsFaultless (D.tells others.now) config ask tree theirs second → AreSameRuns trace theirs first second }
{}

/// Over such children no hook of a run is unsteady, if the children may report each result that was cached
/// before.
pub fn one_answer_leaves_no_hook_unsteady<C: Children>(children: &C)
    ensures { OneAnswer (C.tells children.now)
        → (from to : Moment) (config : Config) (ask : RunAsk) (tree : List File) (out : RunOut)
        → IsTold (C.tells children.now) from.remembered → IsRunOver (C.tells children.now) from to config ask tree out
        → out.unsteady ≡ [] }
{}

/// An edit of files that a run doesn't look at changes none of its results. Let two trees hold the same paths
/// and differ only in the files at some paths. None of these paths is a candidate or that of a hook's script,
/// and no child of a run on the first tree sees one.
///
/// If no answer of that run strays, there is a run on the second tree with the same parts and the same
/// results. So its outcomes may be reported if those of the first run may. The trees that the two runs leave
/// differ only in those files, and each leaves them as they were when it began.
pub fn an_unseen_edit_changes_no_result()
    ensures { (config : Config) (ask : RunAsk) (paths : List (List ℕ)) (tree other : List File)
        (trace : List (List Part)) (out : RunOut) → IsUnseenEdit config ask paths tree other trace out
        → HasRunAlike config ask paths tree other trace out }
{}

/// It starts no child either. Let the answer of each part of the run on the first tree be cached, and let a
/// run on the second tree use every cached result. That run ends in the same way, whatever children it is
/// over, and calls none of them.
pub fn an_unseen_edit_starts_no_child<C: Children>(children: &C)
    ensures alike { (config : Config) (ask : RunAsk) (paths : List (List ℕ)) (tree other : List File)
        (trace : List (List Part)) (out there : RunOut) (from to : Moment)
        → IsUnseenEdit config ask paths tree other trace out → HoldsAll (all_parts trace) from.remembered
        → IsRunOver (C.tells children.now) from to config (reusing_all ask) other there
        → EndAlike paths tree other out there }
    ensures unstarted { (config : Config) (ask : RunAsk) (paths : List (List ℕ)) (tree other : List File)
        (trace : List (List Part)) (out there : RunOut) (from to : Moment)
        → IsUnseenEdit config ask paths tree other trace out → HoldsAll (all_parts trace) from.remembered
        → (over : IsRunOver (C.tells children.now) from to config (reusing_all ask) other there)
        → (over.answered.started ≡ []) × (to.calls ≡ from.calls) }
{}
