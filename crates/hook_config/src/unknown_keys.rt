//! The keys that no table knows, in the order of the text.

ghost use Rattle.std.specs.Prelude.{◌≡◌, ◌++◌, OnOk, IfOk};
ghost use Rattle.std.specs.List.{flat_map};
ghost use Rattle.yaml_lines.specs.View.{view};
ghost use Rattle.hook_config.specs.Rows.{rows_of, meanings_of_nodes};
ghost use Rattle.hook_config.specs.UnknownKeys.{rows_in, items_in, unless_known, unknown_key, unknown_of_hook, unknown_of_repository, unknown_of_repository_row, unknown_of_top, unknown_of_top_row};
ghost use Rattle.hook_config.specs.KnownKeys.{hook_keys, rows_of_known_keys};

use crate::kinds::{list_of, table_of};
use crate::known_keys::{KeyKind, hook_keys, is_key, repository_keys, top_keys};
use hook_base::{OutOfMemory, Text};
use std::alloc::Global;
use yaml_profile::Node;

/// The unknown keys of the table at the top and of the tables in it.
pub(crate) fn unknown_of_top(
    alloc: Global,
    rows: &[(String, Node)],
) -> Result<Vec<Text>, OutOfMemory>
    ensures { IfOk result (λ unknown. unknown.items ≡ unknown_of_top (rows_of rows.now)) }
{
    let mut unknown = Vec::new(alloc);
    for (key, value) in rows {
        if key.as_str() == "repos" {
            add_of_repositories(alloc, items_in(value), &mut unknown)?;
        } else {
            add_unless_known(alloc, key.as_str(), top_keys(), &mut unknown)?;
        }
    }
    Ok(unknown)
}

fn add_of_repositories(
    alloc: Global,
    repositories: &[Node],
    unknown: &mut Vec<Text>,
) -> Result<(), OutOfMemory>
    ensures { OnOk result (unknown.new.items
        ≡ unknown.old.items ++ flat_map unknown_of_repository (meanings_of_nodes repositories.now)) }
{
    for repository in repositories {
        add_of_repository(alloc, rows_in(repository), unknown)?;
    }
    Ok(())
}

fn add_of_repository(
    alloc: Global,
    rows: &[(String, Node)],
    unknown: &mut Vec<Text>,
) -> Result<(), OutOfMemory>
    ensures { OnOk result (unknown.new.items
        ≡ unknown.old.items ++ flat_map unknown_of_repository_row (rows_of rows.now)) }
{
    for (key, value) in rows {
        if key.as_str() == "hooks" {
            add_of_hooks(alloc, items_in(value), unknown)?;
        } else {
            add_unless_known(alloc, key.as_str(), repository_keys(), unknown)?;
        }
    }
    Ok(())
}

fn add_of_hooks(alloc: Global, hooks: &[Node], unknown: &mut Vec<Text>) -> Result<(), OutOfMemory>
    ensures { OnOk result (unknown.new.items
        ≡ unknown.old.items ++ flat_map unknown_of_hook (meanings_of_nodes hooks.now)) }
{
    for hook in hooks {
        add_of_hook(alloc, rows_in(hook), unknown)?;
    }
    Ok(())
}

fn add_of_hook(
    alloc: Global,
    rows: &[(String, Node)],
    unknown: &mut Vec<Text>,
) -> Result<(), OutOfMemory>
    ensures { OnOk result (unknown.new.items ≡ unknown.old.items ++ flat_map (unknown_key hook_keys) (rows_of rows.now)) }
{
    for (key, _) in rows {
        add_unless_known(alloc, key.as_str(), hook_keys(), unknown)?;
    }
    Ok(())
}

// Adds a key, unless it is one of these.
fn add_unless_known(
    alloc: Global,
    key: &str,
    known: &[(&str, KeyKind)],
    unknown: &mut Vec<Text>,
) -> Result<(), OutOfMemory>
    ensures { OnOk result (unknown.new.items ≡ unknown.old.items ++ unless_known (rows_of_known_keys known.now) key.now) }
{
    if !is_key(known, key) {
        unknown.push(Text::from(String::from_str(alloc, key)?))?;
    }
    Ok(())
}

// A table's rows, or none if the node is no table.
fn rows_in<'a>(node: &'a Node) -> &'a [(String, Node)]
    ensures { rows_of result.now ≡ rows_in (view node.now) }
{
    table_of(node).unwrap_or(&[])
}

// A list's items, or none if the node is no list.
fn items_in<'a>(node: &'a Node) -> &'a [Node]
    ensures { meanings_of_nodes result.now ≡ items_in (view node.now) }
{
    list_of(node).unwrap_or(&[])
}
