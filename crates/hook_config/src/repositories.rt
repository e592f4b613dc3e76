//! The hooks of all repositories, in the order of the text.

ghost use Rattle.std.specs.Prelude.{◌≤◌, length};
ghost use Rattle.yaml_lines.specs.View.{view};
ghost use Rattle.hook_config.specs.Gives.{GivesConfiguration, GivesValue};
ghost use Rattle.hook_config.specs.Hooks.{after, hook_alone, hooks_of_list, hooks_of_repository, hooks_of_repositories};
ghost use Rattle.hook_config.specs.Limits.{most_hooks};
ghost use Rattle.hook_config.specs.Rows.{rows_of, meanings_of_nodes};

use crate::config_fault::{ConfigFault, ConfigKind};
use crate::configuration::Hook;
use crate::defaults::Defaults;
use crate::fields::{required, required_list};
use crate::hook_table::hook_of;
use crate::kinds::{table_of, text_in};
use crate::limits::MOST_HOOKS;
use std::alloc::Global;
use yaml_profile::Node;

/// The hooks of all repositories. A hook has the defaults for what its table doesn't say.
#[tactic(auto, using(crate::proofs::HookLists::finding))]
pub(crate) fn hooks_of_repositories(
    alloc: Global,
    repositories: &[Node],
    defaults: &Defaults,
) -> Result<Vec<Hook>, ConfigFault>
    ensures { GivesConfiguration (λ hooks. hooks.items) result
        (hooks_of_repositories defaults.now (meanings_of_nodes repositories.now)) }
{
    let mut hooks = Vec::new(alloc);
    for repository in repositories {
        add_repository(alloc, repository, defaults, &mut hooks)?;
    }
    Ok(hooks)
}

// Adds the hooks of one repository. A repository other than `local` is `RemoteRepo`, whatever its hooks are.
fn add_repository(
    alloc: Global,
    repository: &Node,
    defaults: &Defaults,
    hooks: &mut Vec<Hook>,
) -> Result<(), ConfigFault>
    requires { length hooks.old.items ≤ most_hooks }
    ensures { GivesConfiguration (λ _. hooks.new.items) result
        (after hooks.old.items (hooks_of_repository defaults.now (view repository.now))) }
{
    let rows = table_of(repository)?;
    if text_in(required(rows, "repo")?)? != "local" {
        return Err(ConfigFault::from(ConfigKind::RemoteRepo));
    }
    add_hooks(alloc, required_list(rows, "hooks")?, defaults, hooks)
}

// Adds the hooks of a list. A fault in one of them has its number, counted from 1 over all repositories.
#[tactic(auto, using(crate::proofs::HookLists::finding))]
fn add_hooks(
    alloc: Global,
    tables: &[Node],
    defaults: &Defaults,
    hooks: &mut Vec<Hook>,
) -> Result<(), ConfigFault>
    requires { length hooks.old.items ≤ most_hooks }
    ensures { GivesConfiguration (λ _. hooks.new.items) result
        (after hooks.old.items (hooks_of_list defaults.now (meanings_of_nodes tables.now))) }
{
    for table in tables {
        let number = hooks.len() as u64 + 1;
        if let Err(kind) = add_hook(alloc, table, defaults, hooks) {
            return Err(ConfigFault { kind, at: number });
        }
    }
    Ok(())
}

// Adds the hook of one table, or answers `TooMany` if there are as many as there may be.
fn add_hook(
    alloc: Global,
    table: &Node,
    defaults: &Defaults,
    hooks: &mut Vec<Hook>,
) -> Result<(), ConfigKind>
    ensures { GivesValue (λ _. hooks.new.items) result
        (after hooks.old.items (hook_alone defaults.now (view table.now))) }
{
    if hooks.len() >= MOST_HOOKS {
        return Err(ConfigKind::TooMany);
    }
    let hook = hook_of(alloc, table, defaults)?;
    hooks.push(hook)?;
    Ok(())
}
