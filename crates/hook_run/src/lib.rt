//! The plan of a run: which hooks of a configuration are run on the files of a tree, how each ends, and the
//! report.
//!
//! A [`RunAsk`] says what is asked of a run. [`RunPlan::begin`] makes its plan, or a [`RunRefusal`] says why
//! there is none. [`RunPlan::next`] says whether the plan needs a child; [`RunPlan::words`],
//! [`RunPlan::seen`] and [`RunPlan::tree`] say which one. [`RunPlan::tell`] takes the child's outcome, and
//! [`RunPlan::finish`] gives the [`RunOut`].
//!
//! [`run_hooks`] does all of this with children and with a book that caches their answers, and gives a
//! [`HooksRun`]. [`Reuse`] says which cached results it may use.
//!
//! The contracts cite `Completes` of `specs/Plans.antt`, `most_left` of `specs/PlanBounds.antt`, and
//! `IsRunOver`, `IsCountedRun` and `IsStoppedRun` of `specs/RunOuts.antt`. They also cite `Moment` of
//! `specs/Moments.antt`, `AreAnswered` and `AreReused` of `specs/Answers.antt`, `Starts` of
//! `specs/Starts.antt`, and `serves` of `specs/Reuses.antt`.
//!
//! These build on `specs/StageRun.antt` (the hooks of a run one after another), `specs/HookRun.antt` (one of
//! them) and `specs/Commands.antt` (its command). The children of a hook are in `specs/Parts.antt`, and how
//! they end the hook in `specs/PartsEnding.antt`. `specs/Asks.antt` says which hooks a run goes through, and
//! has `names_no_hook`; `specs/Limits.antt` has the limits, `specs/Refusals.antt` the numbers.
//! `specs/PlanStates.antt`, `specs/CandidateFiles.antt` and `specs/PlanRuns.antt` are used only by private
//! functions.
//!
//! [`laws`] says that the outcomes decide everything else of a run (`specs/SameRuns.antt`). So there is only
//! one run over children that give one answer (`specs/OneAnswer.antt`). An edit of files that no hook looks
//! at changes no result and starts no child (`specs/UnseenEdits.antt`). Each part has an answer that the run
//! may take from the cache, or a child was started for it (`specs/ReusedRuns.antt`). [`plan_laws`] says that
//! each plan can be completed and hands out what comes next in a run, in the words of `specs/PlanLaws.antt`.
//!
//! Other crates cite lemmas too. Those of `specs/CountLemmas.antt` and `specs/AnswerLemmas.antt` are about
//! the counts, about parts one after another and about what is cached. Those of `specs/OneAnswerLemmas.antt`,
//! which use `specs/OneRunLemmas.antt` and `specs/AgreeLemmas.antt`, are about two runs.
#![tactic(auto)]

mod advance;
mod begin;
mod candidate_files;
mod command;
mod further_files;
mod hook_choice;
mod hook_state;
mod hooks_ahead;
mod hooks_run;
pub mod laws;
mod limits;
mod look_ahead;
mod modified;
mod need;
mod news;
mod part_answer;
mod part_outcome;
mod part_totals;
mod pending_part;
mod plan;
pub mod plan_laws;
mod plan_state;
mod progress;
mod report;
mod reuse;
mod run_ask;
mod run_context;
mod run_out;
mod run_over;
mod run_refusal;
mod running_hook;

pub use hooks_run::HooksRun;
pub use limits::MOST_COMMAND_BYTES;
pub use need::Need;
pub use plan::RunPlan;
pub use reuse::Reuse;
pub use run_ask::RunAsk;
pub use run_out::RunOut;
pub use run_over::run_hooks;
pub use run_refusal::RunRefusal;
