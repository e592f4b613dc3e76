//! The values of a table's keys.

ghost use Rattle.std.specs.Prelude.{◌≡◌, false, option_map, [], ◌∷◌, Some};
ghost use Rattle.yaml_lines.specs.View.{view};
ghost use Rattle.hook_config.specs.Gives.{GivesValue, GivesValueSurely};
ghost use Rattle.hook_config.specs.Kinds.{name_count_of, text_of, truth_of, lenient_truth_of, texts_of_list, stages_of, empty_text_of, empty_texts_of, required, or_default};
ghost use Rattle.hook_config.specs.KnownKeys.{file_word};
ghost use Rattle.hook_config.specs.Languages.{language_name_of};
ghost use Rattle.hook_config.specs.Limits.{most_names};
ghost use Rattle.hook_config.specs.Patterns.{pattern_of};
ghost use Rattle.hook_config.specs.Rows.{rows_of, meanings_of_nodes, value_of_key, list_of};

use crate::config_fault::ConfigKind;
use crate::config_text::ConfigText;
use crate::kinds::{list_of, name_count_of, text_in, text_of, truth_of};
use crate::languages::LanguageName;
use crate::limits::MOST_NAMES;
use crate::shared_pattern::SharedPattern;
use crate::stage::Stages;
use crate::stage_lists::stages_of;
use crate::tag_lists::{only_file, tags_of};
use crate::tag_names::TagNames;
use crate::text_lists::{empty_text_of, empty_texts_of, texts_of};
use hook_base::Items;
use std::alloc::Global;
use yaml_profile::Node;

// The value in the first row that has the key.
fn value_at<'a>(rows: &'a [(String, Node)], key: &str) -> Option<&'a Node>
    ensures { option_map (λ value. view value.now) result ≡ value_of_key key.now (rows_of rows.now) }
{
    for (name, value) in rows {
        if name.as_str() == key {
            return Some(value);
        }
    }
    None
}

/// The value at a key that has to be there, otherwise `MissingKey`.
pub(crate) fn required<'a>(rows: &'a [(String, Node)], key: &str) -> Result<&'a Node, ConfigKind>
    ensures { GivesValueSurely (λ value. view value.now) result (value_of_key key.now (rows_of rows.now)) }
{
    value_at(rows, key).ok_or(ConfigKind::MissingKey)
}

/// The text at a key that has to be there.
pub(crate) fn required_text(
    alloc: Global,
    rows: &[(String, Node)],
    key: &str,
) -> Result<ConfigText, ConfigKind>
    ensures { GivesValue (λ owned. owned) result (required text_of key.now (rows_of rows.now)) }
{
    text_of(alloc, required(rows, key)?)
}

/// The language whose name is at a key that has to be there. A word that names no language is `BadLanguage`.
pub(crate) fn required_language(
    rows: &[(String, Node)],
    key: &str,
) -> Result<LanguageName, ConfigKind>
    ensures { GivesValueSurely (λ name. name) result (required language_name_of key.now (rows_of rows.now)) }
{
    let word = text_in(required(rows, key)?)?;
    LanguageName::of_word(word).ok_or(ConfigKind::BadLanguage)
}

/// The list at a key that has to be there.
pub(crate) fn required_list<'a>(
    rows: &'a [(String, Node)],
    key: &str,
) -> Result<&'a [Node], ConfigKind>
    ensures { GivesValueSurely (λ items. meanings_of_nodes items.now) result
        (required list_of key.now (rows_of rows.now)) }
{
    list_of(required(rows, key)?)
}

/// The text at the key, empty if the key isn't there.
pub(crate) fn text_or_empty(
    alloc: Global,
    rows: &[(String, Node)],
    key: &str,
) -> Result<ConfigText, ConfigKind>
    ensures { GivesValue (λ owned. owned) result (or_default text_of [] key.now (rows_of rows.now)) }
{
    match value_at(rows, key) {
        Some(value) => text_of(alloc, value),
        None => Ok(ConfigText::empty(alloc)),
    }
}

/// The truth at the key, or the default if the key isn't there.
pub(crate) fn truth_or(
    rows: &[(String, Node)],
    key: &str,
    default: bool,
) -> Result<bool, ConfigKind>
    ensures { GivesValueSurely (λ truth. truth) result (or_default truth_of default key.now (rows_of rows.now)) }
{
    match value_at(rows, key) {
        Some(value) => truth_of(value),
        None => Ok(default),
    }
}

/// The truth at the key. It is false if the value is no truth, or if the key isn't there.
pub(crate) fn lenient_truth_at(rows: &[(String, Node)], key: &str) -> bool
    ensures { or_default lenient_truth_of false key.now (rows_of rows.now) ≡ Some result }
{
    let Some(value) = value_at(rows, key) else {
        return false;
    };
    match truth_of(value) {
        Ok(truth) => truth,
        Err(_) => false,
    }
}

/// The number of names at the key, or the most that there may be if the key isn't there.
pub(crate) fn name_count_or_most(rows: &[(String, Node)], key: &str) -> Result<usize, ConfigKind>
    ensures { GivesValueSurely (λ count. count) result
        (or_default name_count_of most_names key.now (rows_of rows.now)) }
{
    match value_at(rows, key) {
        Some(value) => name_count_of(value),
        None => Ok(MOST_NAMES),
    }
}

/// The texts at the key, none if the key isn't there.
pub(crate) fn texts_or_none(
    alloc: Global,
    rows: &[(String, Node)],
    key: &str,
) -> Result<Items<ConfigText>, ConfigKind>
    ensures { GivesValue (λ texts. texts) result (or_default texts_of_list [] key.now (rows_of rows.now)) }
{
    match value_at(rows, key) {
        Some(value) => texts_of(alloc, value),
        None => Ok(Items::new(alloc)),
    }
}

/// The pattern at the key, or the default if the key isn't there.
pub(crate) fn pattern_or(
    alloc: Global,
    rows: &[(String, Node)],
    key: &str,
    default: &SharedPattern,
) -> Result<SharedPattern, ConfigKind>
    ensures { GivesValue (λ pattern. pattern) result (or_default pattern_of default.now key.now (rows_of rows.now)) }
{
    match value_at(rows, key) {
        Some(value) => SharedPattern::build(alloc, text_in(value)?),
        None => Ok(default.clone()?),
    }
}

/// The tags at the key, none if the key isn't there.
pub(crate) fn tags_or_none(
    alloc: Global,
    rows: &[(String, Node)],
    key: &str,
) -> Result<TagNames, ConfigKind>
    ensures { GivesValue (λ tags. tags) result (or_default texts_of_list [] key.now (rows_of rows.now)) }
{
    match value_at(rows, key) {
        Some(value) => tags_of(alloc, value),
        None => Ok(TagNames::new(alloc)),
    }
}

/// The tags at the key. If the key isn't there, the one tag that every file has.
pub(crate) fn tags_or_file(
    alloc: Global,
    rows: &[(String, Node)],
    key: &str,
) -> Result<TagNames, ConfigKind>
    ensures { GivesValue (λ tags. tags) result (or_default texts_of_list (file_word ∷ []) key.now (rows_of rows.now)) }
{
    match value_at(rows, key) {
        Some(value) => tags_of(alloc, value),
        None => only_file(alloc),
    }
}

/// The stages at the key, or the default if the key isn't there or its list is empty.
pub(crate) fn stages_or(
    rows: &[(String, Node)],
    key: &str,
    default: Stages,
) -> Result<Stages, ConfigKind>
    ensures { GivesValueSurely (λ stages. stages) result
        (or_default (stages_of default) default key.now (rows_of rows.now)) }
{
    match value_at(rows, key) {
        Some(value) => stages_of(value, default),
        None => Ok(default),
    }
}

/// The empty text at the key, or if the key isn't there. Another text is `Unsupported`.
pub(crate) fn empty_text_at(
    alloc: Global,
    rows: &[(String, Node)],
    key: &str,
) -> Result<ConfigText, ConfigKind>
    ensures { GivesValueSurely (λ owned. owned) result (or_default empty_text_of [] key.now (rows_of rows.now)) }
{
    match value_at(rows, key) {
        Some(value) => empty_text_of(alloc, value),
        None => Ok(ConfigText::empty(alloc)),
    }
}

/// The empty list at the key, or if the key isn't there. Another list of texts is `Unsupported`.
pub(crate) fn empty_texts_at(
    alloc: Global,
    rows: &[(String, Node)],
    key: &str,
) -> Result<Items<ConfigText>, ConfigKind>
    ensures { GivesValueSurely (λ texts. texts) result (or_default empty_texts_of [] key.now (rows_of rows.now)) }
{
    match value_at(rows, key) {
        Some(value) => empty_texts_of(alloc, value),
        None => Ok(Items::new(alloc)),
    }
}
