//! The further files that the children of a hook see.

ghost use Rattle.std.specs.Prelude.{◌≡◌, IfOk};
ghost use Rattle.hook_run.specs.HookRun.{further_of};

use hook_base::{Items, OutOfMemory, RepoPath, Tree};
use hook_config::Hook;
use path_select::select_found;
use std::alloc::Global;

/// The paths of the files of this tree that the hook's children see, whatever their words name.
pub(crate) fn further_of(
    alloc: Global,
    hook: &Hook,
    tree: &Tree,
) -> Result<Items<RepoPath>, OutOfMemory>
    ensures { IfOk result (λ further. further ≡ further_of hook.now tree.now) }
{
    let pattern = hook.x_reads.as_pattern();

    // This pattern is found in no path. It is the default, so for most hooks the tree isn't searched.
    if pattern.as_str() == "^$" {
        return Ok(Items::new(alloc));
    }
    select_found(alloc, pattern, tree)
}
