//! How a hook begins.

ghost use Rattle.std.specs.Prelude.{◌≡◌, ◌≤◌, IfOk, IsSome, MatchOption, None};
ghost use Rattle.arg_partition.specs.Parts.{AreParts, fits, too_long_at};
ghost use Rattle.path_select.specs.Selection.{texts_of_rules};
ghost use Rattle.hook_run.specs.CandidateFiles.{files_at};
ghost use Rattle.hook_run.specs.HookRun.{IsCommandRun, IsEnding, IsHookRun, IsLanguageRun, ending_of_answer, ending_of_misfit, most_names_of, names_for, rules_of};
ghost use Rattle.hook_run.specs.Limits.{most_command_bytes};
ghost use Rattle.hook_run.specs.PlanStates.{HasBegun, IsCourse};

use crate::candidate_files::CandidateFiles;
use crate::command::command_of;
use crate::further_files::further_of;
use crate::hook_choice::is_skipped;
use crate::hook_state::HookState;
use crate::limits::MOST_COMMAND_BYTES;
use crate::part_totals::nothing_gathered;
use crate::run_context::RunContext;
use crate::running_hook::{RunningHook, go_on};
use arg_partition::{Cut, PartsFault, parts};
use builtin_hooks::fail_answer;
use child_port::Answer;
use hook_base::{Bytes, Items, OutOfMemory, RepoPath, Text, Tree};
use hook_config::{Config, Hook, Language};
use path_select::Rules;
use report_text::{Ending, LineFault};
use std::alloc::Global;

/// How the hook begins on the tree: it has ended if it needs no child, otherwise the first of its parts
/// waits. The cases are in the order of `pre_commit.commands.run._run_single_hook`. A hook that is to be
/// skipped comes first, and nothing is selected for it.
pub(crate) fn begin_hook<'a>(
    alloc: Global,
    course: &RunContext<'a>,
    hook: &'a Hook,
    tree: &Tree,
    files: &CandidateFiles,
) -> Result<HookState<'a>, OutOfMemory>
    requires course { IsCourse course.now }
    requires held { files.now ≡ files_at course.now.ask.now.candidates tree.now }
    ensures begun { IfOk result (HasBegun (IsEnding course.now.config.now course.now.ask.now tree.now hook.now) hook.now
        tree.now) }
{
    if is_skipped(course.ask, hook) {
        return Ok(HookState::Ended(Ending::SkippedAsked, false));
    }
    let rules = rules_of(course.config, hook);
    let chosen = files.select(alloc, &rules, &course.among)?;
    begin_with(alloc, hook, chosen, tree)
}

// What decides which files the hook gets (`pre_commit.commands.run.Classifier.filenames_for_hook`).
fn rules_of<'a>(config: &'a Config, hook: &'a Hook) -> Rules<'a>
    ensures { texts_of_rules result ≡ rules_of config.now hook.now }
{
    Rules {
        top_files: config.files.as_pattern(),
        top_exclude: config.exclude.as_pattern(),
        files: hook.files.as_pattern(),
        exclude: hook.exclude.as_pattern(),
        types: hook.types.as_slice(),
        types_or: hook.types_or.as_slice(),
        exclude_types: hook.exclude_types.as_slice(),
    }
}

// How the hook begins if these files are selected for it.
fn begin_with<'a>(
    alloc: Global,
    hook: &'a Hook,
    files: Items<RepoPath>,
    tree: &Tree,
) -> Result<HookState<'a>, OutOfMemory>
    ensures { IfOk result (HasBegun (IsHookRun hook.now files tree.now) hook.now tree.now) }
{
    if files.is_empty() && !hook.always_run {
        return Ok(HookState::Ended(Ending::SkippedNoFiles, false));
    }
    let names = names_for(alloc, hook, files);
    begin_language(alloc, hook, names, tree)
}

// The names that the hook gets if these files are selected for it.
fn names_for(alloc: Global, hook: &Hook, files: Items<RepoPath>) -> Items<RepoPath>
    ensures { result ≡ names_for hook.now files }
{
    if hook.pass_filenames {
        files
    } else {
        Items::new(alloc)
    }
}

// How the hook begins with these names.
fn begin_language<'a>(
    alloc: Global,
    hook: &'a Hook,
    names: Items<RepoPath>,
    tree: &Tree,
) -> Result<HookState<'a>, OutOfMemory>
    ensures { IfOk result (HasBegun (IsLanguageRun hook.now.language hook.now names tree.now) hook.now tree.now) }
{
    match &hook.language {
        Language::Fail => {
            let answer = fail_answer(alloc, hook.entry.as_str(), names.as_slice())?;
            Ok(HookState::Ended(ending_of_answer(alloc, answer), false))
        }
        Language::Pygrep(grep) => {
            let answer = grep.answer(alloc, names.as_slice(), tree)?;
            Ok(HookState::Ended(ending_of_answer(alloc, answer), false))
        }
        Language::System(words) => {
            let command = command_of(alloc, false, words.as_slice(), tree)?;
            begin_command(alloc, hook, command, names, tree)
        }
        Language::Script(words) => {
            let command = command_of(alloc, true, words.as_slice(), tree)?;
            begin_command(alloc, hook, command, names, tree)
        }
    }
}

fn ending_of_answer(alloc: Global, answer: Answer) -> Ending
    ensures { result ≡ ending_of_answer answer }
{
    Ending::Ran {
        status: answer.status,
        faults: Items::new(alloc),
        modified: false,
        output: answer.output,
    }
}

// How a hook begins whose command has these words, followed by these names.
fn begin_command<'a>(
    alloc: Global,
    hook: &'a Hook,
    words: Items<Text>,
    names: Items<RepoPath>,
    tree: &Tree,
) -> Result<HookState<'a>, OutOfMemory>
    ensures { IfOk result (HasBegun (IsCommandRun hook.now words names tree.now) hook.now tree.now) }
{
    let Some(cuts) = cuts_of(alloc, hook, &words, &names)? else {
        return Ok(HookState::Ended(ending_of_misfit(alloc)?, false));
    };
    let before = tree.copy()?;
    let further = further_of(alloc, hook, tree)?;
    let gathered = nothing_gathered(alloc);
    let work = RunningHook {
        hook,
        before,
        further,
        words,
        names,
        cuts,
        begun: 0,
        gathered,
    };
    go_on(alloc, work, tree)
}

// The parts of the command. `None` if a name doesn't fit even with the words alone, or if there are no names
// and the words don't fit.
fn cuts_of(
    alloc: Global,
    hook: &Hook,
    words: &Items<Text>,
    names: &Items<RepoPath>,
) -> Result<Option<Items<Cut>>, OutOfMemory>
    ensures { IfOk result (λ cuts. MatchOption cuts (IsSome (too_long_at (fits words.now most_command_bytes) names.now))
        (λ cuts. (too_long_at (fits words.now most_command_bytes) names.now ≡ None)
        × AreParts (fits words.now most_command_bytes) (most_names_of hook.now) names.now cuts)) }
{
    let limit = MOST_COMMAND_BYTES;
    let most = most_names_of(hook);
    match parts(alloc, words.as_slice(), names.as_slice(), limit, most) {
        Ok(cuts) => Ok(Some(cuts)),
        Err(PartsFault::TooLong(_)) => Ok(None),
        Err(PartsFault::OutOfMemory) => Err(OutOfMemory),
    }
}

// The most names of one part of the hook: the smaller number of its two keys. A hook that was read asks for
// one at least.
fn most_names_of(hook: &Hook) -> usize
    ensures most { result ≡ most_names_of hook.now }
    ensures some { 1 ≤ result }
{
    if hook.x_per_file {
        1
    } else {
        hook.x_at_most.max(1)
    }
}

fn ending_of_misfit(alloc: Global) -> Result<Ending, OutOfMemory>
    ensures { IfOk result (λ ending. ending ≡ ending_of_misfit) }
{
    let mut faults = Vec::new(alloc);
    faults.push(LineFault::Misfit)?;
    Ok(Ending::Ran {
        status: 0,
        faults: Items::from(faults),
        modified: false,
        output: Bytes::new(alloc),
    })
}
