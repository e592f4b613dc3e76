//! The fields of a hook, in the groups in which they are read. Of several faults the first in this order is
//! reported.

ghost use Rattle.hook_config.specs.Gives.{GivesValue, GivesValueSurely};
ghost use Rattle.hook_config.specs.HookTable.{command_keys_of, conditions_of, hook_names_of, reads_of, selection_of, switches_of, unserved_of};
ghost use Rattle.hook_config.specs.Rows.{rows_of};

use crate::config_fault::ConfigKind;
use crate::config_text::ConfigText;
use crate::configuration::Language;
use crate::defaults::Defaults;
use crate::fields::{
    empty_text_at, empty_texts_at, lenient_truth_at, name_count_or_most, pattern_or,
    required_language, required_text, stages_or, tags_or_file, tags_or_none, text_or_empty,
    texts_or_none, truth_or,
};
use crate::languages::language_of;
use crate::shared_pattern::SharedPattern;
use crate::stage::Stages;
use crate::tag_names::TagNames;
use hook_base::Items;
use std::alloc::Global;
use yaml_profile::Node;

/// What isn't served, and so has to be empty.
#[derive(Drop)]
pub(crate) struct Unserved {
    pub(crate) log_file: ConfigText,
    pub(crate) additional_dependencies: Items<ConfigText>,
}

#[tactic(auto, unfolding(crate::specs::HookTable::unserved_of))]
pub(crate) fn unserved_of(alloc: Global, rows: &[(String, Node)]) -> Result<Unserved, ConfigKind>
    ensures { GivesValueSurely (λ unserved. unserved) result (unserved_of (rows_of rows.now)) }
{
    Ok(Unserved {
        log_file: empty_text_at(alloc, rows, "log_file")?,
        additional_dependencies: empty_texts_at(alloc, rows, "additional_dependencies")?,
    })
}

/// The names of a hook.
#[derive(Drop)]
pub(crate) struct Names {
    pub(crate) id: ConfigText,
    pub(crate) name: ConfigText,
    pub(crate) alias: ConfigText,
}

#[tactic(auto, unfolding(crate::specs::HookTable::hook_names_of))]
pub(crate) fn names_of(alloc: Global, rows: &[(String, Node)]) -> Result<Names, ConfigKind>
    ensures { GivesValue (λ names. names) result (hook_names_of (rows_of rows.now)) }
{
    Ok(Names {
        id: required_text(alloc, rows, "id")?,
        name: required_text(alloc, rows, "name")?,
        alias: text_or_empty(alloc, rows, "alias")?,
    })
}

/// What a hook runs.
#[derive(Drop)]
pub(crate) struct CommandKeys {
    pub(crate) language: Language,
    pub(crate) entry: ConfigText,
    pub(crate) args: Items<ConfigText>,
}

#[tactic(auto, unfolding(crate::specs::HookTable::command_keys_of))]
pub(crate) fn command_of(alloc: Global, rows: &[(String, Node)]) -> Result<CommandKeys, ConfigKind>
    ensures { GivesValue (λ command. command) result (command_keys_of (rows_of rows.now)) }
{
    let name = required_language(rows, "language")?;
    let entry = required_text(alloc, rows, "entry")?;
    let args = texts_or_none(alloc, rows, "args")?;
    let language = language_of(alloc, name, &entry, args.as_slice())?;
    Ok(CommandKeys {
        language,
        entry,
        args,
    })
}

/// Which files a hook gets.
#[derive(Drop)]
pub(crate) struct Selection {
    pub(crate) files: SharedPattern,
    pub(crate) exclude: SharedPattern,
    pub(crate) types: TagNames,
    pub(crate) types_or: TagNames,
    pub(crate) exclude_types: TagNames,
}

#[tactic(auto, unfolding(crate::specs::HookTable::selection_of))]
pub(crate) fn selection_of(
    alloc: Global,
    rows: &[(String, Node)],
    defaults: &Defaults,
) -> Result<Selection, ConfigKind>
    ensures { GivesValue (λ selection. selection) result (selection_of (rows_of rows.now)) }
{
    Ok(Selection {
        files: pattern_or(alloc, rows, "files", defaults.files())?,
        exclude: pattern_or(alloc, rows, "exclude", defaults.exclude())?,
        types: tags_or_file(alloc, rows, "types")?,
        types_or: tags_or_none(alloc, rows, "types_or")?,
        exclude_types: tags_or_none(alloc, rows, "exclude_types")?,
    })
}

/// When a hook runs, and how.
#[derive(Clone, Copy)]
pub(crate) struct Switches {
    pub(crate) stages: Stages,
    pub(crate) always_run: bool,
    pub(crate) verbose: bool,
    pub(crate) pass_filenames: bool,
    pub(crate) fail_fast: bool,
    pub(crate) require_serial: bool,
}

#[tactic(auto, unfolding(crate::specs::HookTable::switches_of))]
pub(crate) fn switches_of(
    rows: &[(String, Node)],
    defaults: &Defaults,
) -> Result<Switches, ConfigKind>
    ensures { GivesValueSurely (λ switches. switches) result (switches_of defaults.now (rows_of rows.now)) }
{
    Ok(Switches {
        stages: stages_or(rows, "stages", defaults.stages())?,
        always_run: truth_or(rows, "always_run", false)?,
        verbose: truth_or(rows, "verbose", false)?,
        pass_filenames: truth_or(rows, "pass_filenames", true)?,
        fail_fast: truth_or(rows, "fail_fast", false)?,
        require_serial: lenient_truth_at(rows, "require_serial"),
    })
}

/// Which files a hook's children see besides those that are selected for it, and how many names a child is
/// given.
#[derive(Drop)]
pub(crate) struct Reads {
    pub(crate) x_reads: SharedPattern,
    pub(crate) x_per_file: bool,
    pub(crate) x_at_most: usize,
}

#[tactic(auto, unfolding(crate::specs::HookTable::reads_of))]
pub(crate) fn reads_of(
    alloc: Global,
    rows: &[(String, Node)],
    defaults: &Defaults,
) -> Result<Reads, ConfigKind>
    ensures { GivesValue (λ reads. reads) result (reads_of (rows_of rows.now)) }
{
    Ok(Reads {
        x_reads: pattern_or(alloc, rows, "x_reads", defaults.exclude())?,
        x_per_file: truth_or(rows, "x_per_file", false)?,
        x_at_most: name_count_or_most(rows, "x_at_most")?,
    })
}

/// Which files a hook gets, when and how it runs, and what it reads: the groups after its command.
#[derive(Drop)]
pub(crate) struct Conditions {
    pub(crate) selection: Selection,
    pub(crate) switches: Switches,
    pub(crate) reads: Reads,
}

#[tactic(auto, unfolding(crate::specs::HookTable::conditions_of))]
pub(crate) fn conditions_of(
    alloc: Global,
    rows: &[(String, Node)],
    defaults: &Defaults,
) -> Result<Conditions, ConfigKind>
    ensures { GivesValue (λ conditions. conditions) result (conditions_of defaults.now (rows_of rows.now)) }
{
    Ok(Conditions {
        selection: selection_of(alloc, rows, defaults)?,
        switches: switches_of(rows, defaults)?,
        reads: reads_of(alloc, rows, defaults)?,
    })
}
