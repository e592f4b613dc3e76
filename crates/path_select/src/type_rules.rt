//! The tags that a hook asks for.

ghost use Rattle.std.specs.Prelude.{◌≡◌, IfOk, IsTrue};
ghost use Rattle.file_tags.specs.FileTags.{tags_of_file};
ghost use Rattle.path_select.specs.Chosen.{AsksForNone, every_file_has};
ghost use Rattle.path_select.specs.Selection.{fits_types, has_all, has_one, has_one_if_any, texts_of_rules};

use crate::Rules;
use file_tags::{Tags, tags_of};
use hook_base::{FileEntry, OutOfMemory, RepoPath, Text};
use std::alloc::Global;

// The tag that every file has.
const OF_EVERY_FILE: &str = "file";

/// Whether a file has the tags that the hook asks for, or `OutOfMemory` if memory is refused. The tags aren't
/// made if every file has those asked for.
pub(crate) fn fits_types(
    alloc: Global,
    rules: &Rules,
    path: &RepoPath,
    entry: &FileEntry,
) -> Result<bool, OutOfMemory>
    ensures { IfOk result (λ fits. fits ≡ fits_types (texts_of_rules rules.now) (tags_of_file path.now entry.now)) }
{
    if asks_for_none(rules) {
        return Ok(true);
    }
    let tags = tags_of(alloc, path, entry)?;
    Ok(have_types(rules, &tags))
}

/// Whether the tags are those that the hook asks for (pre-commit.com, "Filtering files with types").
pub(crate) fn have_types(rules: &Rules, tags: &Tags) -> bool
    ensures { result ≡ fits_types (texts_of_rules rules.now) tags.now }
{
    has_all(tags, rules.types)
        && has_one_if_any(tags, rules.types_or)
        && !has_one(tags, rules.exclude_types)
}

// Whether the hook asks for nothing but what every file has.
fn asks_for_none(rules: &Rules) -> bool
    ensures { IsTrue result → AsksForNone (texts_of_rules rules.now) }
{
    rules.types_or.is_empty() && rules.exclude_types.is_empty() && every_file_has(rules.types)
}

// Whether each of the tags is the one that every file has.
fn every_file_has(types: &[Text]) -> bool
    ensures { result ≡ every_file_has types.now }
{
    types.iter().all(|tag| tag.as_str() == OF_EVERY_FILE)
}

fn has_all(tags: &Tags, wanted: &[Text]) -> bool
    ensures { result ≡ has_all wanted.now tags.now }
{
    wanted.iter().all(|tag| tags.has(tag.as_str()))
}

fn has_one(tags: &Tags, wanted: &[Text]) -> bool
    ensures { result ≡ has_one wanted.now tags.now }
{
    wanted.iter().any(|tag| tags.has(tag.as_str()))
}

fn has_one_if_any(tags: &Tags, wanted: &[Text]) -> bool
    ensures { result ≡ has_one_if_any wanted.now tags.now }
{
    wanted.is_empty() || has_one(tags, wanted)
}
