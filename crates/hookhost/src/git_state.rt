//! The file of the tree that represents Git's state (docs/GIT.md, "Git's state in what a hook reads").

ghost use Rattle.std.specs.Prelude.{IfErr, codes};
ghost use Rattle.hookhost.specs.Stops.{IsStopOfVariable};

use crate::names::path_named;
use crate::runs::named_by;
use crate::stop::CommandStop;
use hook_base::{RepoPath, Text};
use std::env;

// The variable by which Git's hook names it. A child that has seen it finds a variable that says so: the key
// of its cached result then has the state of Git to which its answer belongs.
const GIT_STATE: &str = "HOOKHOST_GIT_STATE";

/// The path of the file that represents Git's state, if the variable names one. What isn't UTF-8, or is no
/// path of a tree, is `CommandStop::CannotUse`; want of memory is `CommandStop::Refused`.
pub(crate) fn git_state(rt: &HostRuntime) -> Result<Option<RepoPath>, CommandStop>
    ensures { IfErr result (IsStopOfVariable (codes "HOOKHOST_GIT_STATE")) }
{
    let Some(name) = named_by(rt.alloc(), GIT_STATE, env::var(rt, GIT_STATE))? else {
        return Ok(None);
    };
    match path_named(rt.alloc(), name.as_str())? {
        Some(path) => Ok(Some(path)),
        None => Err(CommandStop::CannotUse(Text::copy_of(rt.alloc(), GIT_STATE)?)),
    }
}
