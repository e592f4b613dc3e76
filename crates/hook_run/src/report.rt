//! The width of a run's report, and whether the run passed.

ghost use Rattle.std.specs.Prelude.{◌≡◌, ◌≤◌, All, IfOk, length, map};
ghost use Rattle.hook_config.specs.Limits.{most_text_bytes};
ghost use Rattle.hook_run.specs.StageRun.{has_passed};
ghost use Rattle.report_text.specs.Report.{columns_of};

use hook_base::OutOfMemory;
use hook_config::Hook;
use report_text::{HookResult, columns};
use std::alloc::Global;

/// Whether no hook failed.
pub fn has_passed(results: &[HookResult]) -> bool
    ensures { result ≡ has_passed results.now }
{
    results.iter().all(|hook| !hook.ending.is_failed())
}

/// The width in columns of the report of a run through these hooks, skipped ones included
/// (`pre_commit.commands.run._compute_cols`).
pub(crate) fn columns_of(alloc: Global, hooks: &[&Hook]) -> Result<usize, OutOfMemory>
    ensures { IfOk result (λ columns. columns ≡ columns_of (map (λ hook. hook.now.name) hooks.now)) }
{
    let names = names_of(alloc, hooks)?;
    Ok(columns(names.as_slice()))
}

fn names_of<'a>(alloc: Global, hooks: &[&'a Hook]) -> Result<Vec<&'a str>, OutOfMemory>
    ensures same { IfOk result (λ names. map (λ name. name.now) names.items ≡ map (λ hook. hook.now.name) hooks.now) }
    ensures within { IfOk result (λ names. All (λ name. length name.now ≤ most_text_bytes) names.items) }
{
    let mut names = Vec::new(alloc);
    'hooks: for hook in hooks {
        names.push(hook.name.as_str())?;
    }
    Ok(names)
}
