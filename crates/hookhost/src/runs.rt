//! What runs of hooks on the repository need: the hooks that the environment skips, and children.

ghost use Rattle.std.specs.Prelude.{◌≡◌, IfErr, IfOk};
ghost use Rattle.hookhost.specs.Stops.{IsStopOfChildren, IsStopOfVariable};
ghost use Rattle.hookhost.specs.StoreCalls.{skipped_by};

use crate::folder_links::linked;
use crate::git_state::git_state;
use crate::heard_children::HeardChildren;
use crate::stop::CommandStop;
use crate::terminal::terminal_of;
use child_display::ShownChildren;
use hook_base::{Items, OutOfMemory, Text};
use hook_cli::{TryFault, skip_list_of};
use process_children::{ProcessChildren, usable_processors};
use repository_files::SCRATCH;
use std::alloc::Global;
use std::env::{self, VarError};
use std::io::Stderr;

// The variable of the environment that names the hooks to skip.
const SKIP: &str = "SKIP";

// The variable by which Git's hook names a file. There its own `git` records each call that finds no
// repository in the folder of children: what the hook answers then doesn't count.
const GIT_CALLS: &str = "HOOKHOST_GIT_CALLS";

// The variable by which Git's hook names the folder of children: one that no tool mistakes for a part of
// Git's own.
const SCRATCH_FOLDER: &str = "HOOKHOST_SCRATCH";

// The variable by which Git's hook names the folder next to which children run ahead of their turns: there its
// own `git` finds no repository, and records each call for the folder of the child.
const AHEAD_FOLDER: &str = "HOOKHOST_AHEAD";

/// Children that are processes and that a terminal shows.
pub(crate) type RealChildren = HeardChildren<ShownChildren<ProcessChildren<HostRuntime>, Stderr>>;

// The children of a run on the repository, of which none has run yet, and at most so many at once, or as many as
// there are processors. They run in the folder that the variable of Git's hook names, and otherwise in that of
// the repository. If a variable names a file of calls, a child during which a call was recorded there is a
// fault, and several run at once only if another names the folder for those ahead of their turns. If one names
// the file that represents Git's state, each child learns whether it has seen that. A variable that isn't
// UTF-8, or names what can't be, is `CommandStop::CannotUse`; want of memory is `CommandStop::Refused`.
fn children_of(rt: &HostRuntime, jobs: Option<u32>) -> Result<RealChildren, CommandStop>
    ensures { IfErr result IsStopOfChildren }
{
    let calls = named_by(rt.alloc(), GIT_CALLS, env::var(rt, GIT_CALLS))?;
    let folder = match named_by(rt.alloc(), SCRATCH_FOLDER, env::var(rt, SCRATCH_FOLDER))? {
        Some(folder) => folder,
        None => String::from_str(rt.alloc(), SCRATCH)?,
    };
    let apart = named_by(rt.alloc(), AHEAD_FOLDER, env::var(rt, AHEAD_FOLDER))?;
    let links = linked(rt)?;
    let state = git_state(rt)?;
    let mut children = ProcessChildren::watching(rt.clone()?, folder, calls);
    children.link(links);
    if let Some(path) = state {
        children.tell_state(path);
    }
    if let Some(folder) = apart {
        children.run_apart(folder);
    }
    Ok(shown(rt, children, jobs)?)
}

// The children, at most so many at once, with a terminal that shows which one is running.
fn shown(
    rt: &HostRuntime,
    children: ProcessChildren<HostRuntime>,
    jobs: Option<u32>,
) -> Result<RealChildren, OutOfMemory> {
    let mut children = children;
    children.run_at_once(match jobs {
        Some(jobs) => jobs as usize,
        None => usable_processors(rt),
    });
    let shown = ShownChildren::new(children, terminal_of(rt));
    Ok(HeardChildren::new(rt.clone()?, shown))
}

/// What the variable of this name names, or `None` if it isn't set. A variable that isn't UTF-8 is
/// `CommandStop::CannotUse`.
pub(crate) fn named_by(
    alloc: Global,
    variable: &str,
    found: Result<String, VarError>,
) -> Result<Option<String>, CommandStop>
    ensures { IfErr result (IsStopOfVariable variable.now) }
{
    match found {
        Ok(file) => Ok(Some(file)),
        Err(VarError::NotPresent) => Ok(None),
        Err(VarError::NotUnicode) => Err(CommandStop::CannotUse(Text::copy_of(alloc, variable)?)),
        Err(VarError::OutOfMemory) => Err(CommandStop::Refused(TryFault::OutOfMemory)),
    }
}

/// The children of a run without a repository, at most so many at once, or as many as there are processors.
/// Nothing is left of their folder at their end.
pub(crate) fn passing_children(
    rt: &HostRuntime,
    jobs: Option<u32>,
) -> Result<RealChildren, CommandStop>
    ensures { IfErr result IsStopOfChildren }
{
    let folder = String::from_str(rt.alloc(), SCRATCH)?;
    let links = linked(rt)?;
    let mut children = ProcessChildren::removed_at_end(rt.clone()?, folder);
    children.link(links);
    Ok(shown(rt, children, jobs)?)
}

/// What a command that runs hooks needs: the hooks that it skips, and children. A variable that isn't UTF-8, or
/// names what can't be, is `CommandStop::CannotUse`; want of memory is `CommandStop::Refused`.
pub(crate) fn hook_needs(
    rt: &HostRuntime,
    jobs: Option<u32>,
) -> Result<(Items<Text>, RealChildren), CommandStop>
    ensures { IfErr result IsStopOfChildren }
{
    Ok((skipped(rt)?, children_of(rt, jobs)?))
}

// The ids and aliases of the hooks that are skipped, in the variable of the environment.
fn skipped(rt: &HostRuntime) -> Result<Items<Text>, OutOfMemory> {
    skipped_by(rt.alloc(), env::var(rt, SKIP))
}

// Those that a variable names. There are none if it isn't set or isn't UTF-8.
fn skipped_by(alloc: Global, found: Result<String, VarError>) -> Result<Items<Text>, OutOfMemory>
    ensures { IfOk result (λ names. names ≡ skipped_by found) }
{
    match found {
        Ok(text) => skip_list_of(alloc, text.as_str()),
        Err(VarError::OutOfMemory) => Err(OutOfMemory),
        Err(VarError::NotPresent | VarError::NotUnicode) => Ok(Items::new(alloc)),
    }
}
