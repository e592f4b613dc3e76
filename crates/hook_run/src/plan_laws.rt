//! Laws of plans. Each is a function that returns nothing: what it ensures is a theorem.

ghost use Rattle.std.specs.Prelude.{◌≡◌, Bool, List, [], ◌∷◌};
ghost use Rattle.child_port.specs.declared.answer.Outcome.{Outcome};
ghost use Rattle.hook_base.specs.declared.file.File.{File};
ghost use Rattle.hook_config.specs.declared.configuration.Config.{Config};
ghost use Rattle.hook_run.specs.declared.need.Need.TheVariants.{Child};
ghost use Rattle.hook_run.specs.declared.run_ask.RunAsk.{RunAsk};
ghost use Rattle.hook_run.specs.Parts.{Part};
ghost use Rattle.hook_run.specs.PlanLaws.{HasTold, IsPlanBehind, IsWhatComesNext};
ghost use Rattle.hook_run.specs.Plans.{CanComplete, IsPlanOf, Plan, need_of, part_with};

/// Each plan can be completed.
pub fn each_plan_can_be_completed()
    ensures { (plan : Plan) → CanComplete plan [] }
{}

/// Whatever becomes of the child that a plan needs, the plan can be completed after it.
pub fn any_outcome_may_come_next()
    ensures { (plan : Plan) (outcome : Outcome) (unsteady : Bool) → need_of plan ≡ Child
        → CanComplete plan (part_with plan outcome unsteady ∷ []) }
{}

/// Take a plan such that some parts, followed by whatever completes the plan, are always a run. This plan is
/// what comes next after these parts. If it needs a part, that part is on the tree that they leave, whatever
/// becomes of its child. If it is over, it gives what a run with just these parts gives.
pub fn a_plan_is_what_comes_next()
    ensures { (config : Config) (ask : RunAsk) (tree : List File) (parts : List Part) (plan : Plan)
        → IsPlanBehind config ask tree parts plan → IsWhatComesNext config ask tree parts plan }
{}

/// The same holds for each plan of a run that was given outcomes, after the parts with these outcomes.
pub fn a_told_plan_is_what_comes_next()
    ensures { (config : Config) (ask : RunAsk) (tree : List File) (first last : Plan) (parts : List Part)
        → IsPlanOf config ask tree first → HasTold first parts last → IsWhatComesNext config ask tree parts last }
{}
