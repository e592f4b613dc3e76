//! The table of a hook. (docs/REFERENCE.md, "The configuration's keys".)

ghost use Rattle.std.specs.Prelude.{◌≡◌};
ghost use Rattle.yaml_lines.specs.View.{view};
ghost use Rattle.hook_config.specs.Gives.{GivesValue, GivesValueSurely};
ghost use Rattle.hook_config.specs.HookTable.{hook_of, hook_of_fields, hook_of_groups, hook_with};
ghost use Rattle.hook_config.specs.Rows.{rows_of};

use crate::config_fault::ConfigKind;
use crate::configuration::Hook;
use crate::defaults::Defaults;
use crate::hook_parts::{
    CommandKeys, Conditions, Names, Unserved, command_of, conditions_of, names_of, unserved_of,
};
use crate::kinds::table_of;
use std::alloc::Global;
use yaml_profile::Node;

/// The hook that a table describes. It has the defaults for what the table doesn't say.
pub(crate) fn hook_of(alloc: Global, node: &Node, defaults: &Defaults) -> Result<Hook, ConfigKind>
    ensures { GivesValue (λ hook. hook) result (hook_of defaults.now (view node.now)) }
{
    hook_of_fields(alloc, table_of(node)?, defaults)
}

// The hook of a table's rows. Of several faults the first in the order of these lines is reported.
#[tactic(auto, unfolding(crate::specs::HookTable::hook_of_fields))]
fn hook_of_fields(
    alloc: Global,
    rows: &[(String, Node)],
    defaults: &Defaults,
) -> Result<Hook, ConfigKind>
    ensures { GivesValue (λ hook. hook) result (hook_of_fields defaults.now (rows_of rows.now)) }
{
    let unserved = unserved_of(alloc, rows)?;
    let names = names_of(alloc, rows)?;
    let command = command_of(alloc, rows)?;
    hook_with(alloc, rows, defaults, unserved, names, command)
}

// The hook of a table's rows, whose first groups are these.
#[tactic(auto, unfolding(crate::specs::HookTable::hook_with))]
fn hook_with(
    alloc: Global,
    rows: &[(String, Node)],
    defaults: &Defaults,
    unserved: Unserved,
    names: Names,
    command: CommandKeys,
) -> Result<Hook, ConfigKind>
    ensures { GivesValue (λ hook. hook) result (hook_with defaults.now (rows_of rows.now) unserved names command) }
{
    let conditions = conditions_of(alloc, rows, defaults)?;
    Ok(hook_of_groups(unserved, names, command, conditions))
}

// The hook with the fields of these groups.
#[tactic(auto, unfolding(crate::specs::HookTable::hook_of_groups))]
fn hook_of_groups(
    unserved: Unserved,
    names: Names,
    command: CommandKeys,
    conditions: Conditions,
) -> Hook
    ensures { result ≡ hook_of_groups unserved names command conditions }
{
    let Conditions {
        selection,
        switches,
        reads,
    } = conditions;
    Hook {
        id: names.id,
        name: names.name,
        alias: names.alias,
        language: command.language,
        entry: command.entry,
        args: command.args,
        files: selection.files,
        exclude: selection.exclude,
        types: selection.types,
        types_or: selection.types_or,
        exclude_types: selection.exclude_types,
        stages: switches.stages,
        always_run: switches.always_run,
        verbose: switches.verbose,
        pass_filenames: switches.pass_filenames,
        fail_fast: switches.fail_fast,
        require_serial: switches.require_serial,
        x_reads: reads.x_reads,
        x_per_file: reads.x_per_file,
        x_at_most: reads.x_at_most,
        log_file: unserved.log_file,
        additional_dependencies: unserved.additional_dependencies,
    }
}
