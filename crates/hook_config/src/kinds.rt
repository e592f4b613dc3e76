//! The kinds of a configuration's values. A value of another kind than its place wants is `Shape`.

ghost use Rattle.std.specs.Prelude.{◌≡◌, IfOk};
ghost use Rattle.yaml_lines.specs.View.{view};
ghost use Rattle.hook_config.specs.Gives.{GivesValue, GivesValueSurely};
ghost use Rattle.hook_config.specs.Kinds.{name_count, name_count_of, name_count_of_word, text_of, truth_of, truth_of_word};
ghost use Rattle.hook_config.specs.Limits.{IsShort};
ghost use Rattle.hook_config.specs.Rows.{ConfigurationRow, rows_of, meanings_of_nodes, table_of, list_of, is_known_word, texts};

use crate::config_fault::ConfigKind;
use crate::config_text::ConfigText;
use crate::limits::{MOST_NAMES, MOST_TEXT_BYTES};
use std::alloc::Global;
use yaml_profile::Node;

pub(crate) fn table_of<'a>(node: &'a Node) -> Result<&'a [(String, Node)], ConfigKind>
    ensures { GivesValueSurely (λ members. rows_of members.now) result (table_of (view node.now)) }
{
    match node {
        Node::Table(members) => Ok(members.as_slice()),
        _ => Err(ConfigKind::Shape),
    }
}

pub(crate) fn list_of<'a>(node: &'a Node) -> Result<&'a [Node], ConfigKind>
    ensures { GivesValueSurely (λ items. meanings_of_nodes items.now) result (list_of (view node.now)) }
{
    match node {
        Node::List(items) => Ok(items.as_slice()),
        _ => Err(ConfigKind::Shape),
    }
}

/// A text, quoted or not, of at most `MOST_TEXT_BYTES` bytes. A longer text is `Shape`.
pub(crate) fn text_in<'a>(node: &'a Node) -> Result<&'a str, ConfigKind>
    ensures text { GivesValueSurely (λ text. text.now) result (text_of (view node.now)) }
    ensures within { IfOk result (λ text. IsShort text.now) }
{
    match node {
        Node::Text { text, .. } if text.len() <= MOST_TEXT_BYTES => Ok(text.as_str()),
        _ => Err(ConfigKind::Shape),
    }
}

/// The same text, as a text of the configuration.
pub(crate) fn text_of(alloc: Global, node: &Node) -> Result<ConfigText, ConfigKind>
    ensures { GivesValue (λ owned. owned) result (text_of (view node.now)) }
{
    let text = String::from_str(alloc, text_in(node)?)?;
    ConfigText::new(text).ok_or(ConfigKind::Shape)
}

/// Whether the word is one of these.
pub(crate) fn is_among(words: &[&str], word: &str) -> bool
    ensures { result ≡ is_known_word (texts words.now) word.now }
{
    for known in words {
        if *known == word {
            return true;
        }
    }
    false
}

// YAML 1.1, "Boolean Language-Independent Type", without `y` and `n`, which PyYAML doesn't read as truths
// either.
const TRUE_WORDS: [&str; 9] = [
    "true", "True", "TRUE", "yes", "Yes", "YES", "on", "On", "ON",
];

const FALSE_WORDS: [&str; 9] = [
    "false", "False", "FALSE", "no", "No", "NO", "off", "Off", "OFF",
];

/// The truth that an unquoted word names. A quoted one is a text, and so `Shape`.
pub(crate) fn truth_of(node: &Node) -> Result<bool, ConfigKind>
    ensures { GivesValueSurely (λ truth. truth) result (truth_of (view node.now)) }
{
    match node {
        Node::Text {
            text,
            quoted: false,
        } => truth_of_word(text.as_str()).ok_or(ConfigKind::Shape),
        _ => Err(ConfigKind::Shape),
    }
}

fn truth_of_word(word: &str) -> Option<bool>
    ensures { result ≡ truth_of_word word.now }
{
    if is_among(&TRUE_WORDS, word) {
        Some(true)
    } else if is_among(&FALSE_WORDS, word) {
        Some(false)
    } else {
        None
    }
}

/// The number of names that an unquoted word writes. A quoted one is a text, and so `Shape`.
pub(crate) fn name_count_of(node: &Node) -> Result<usize, ConfigKind>
    ensures { GivesValueSurely (λ count. count) result (name_count_of (view node.now)) }
{
    match node {
        Node::Text {
            text,
            quoted: false,
        } => name_count_of_word(text.as_str()).ok_or(ConfigKind::Shape),
        _ => Err(ConfigKind::Shape),
    }
}

/// The number from 1 to [`MOST_NAMES`] that the word writes in decimal digits, which a `+` may precede.
/// `None` if it writes no such number.
pub fn name_count_of_word(word: &str) -> Option<usize>
    ensures { result ≡ name_count_of_word word.now }
{
    match word.parse::<usize>() {
        Ok(number) => name_count(number),
        Err(_) => None,
    }
}

fn name_count(number: usize) -> Option<usize>
    ensures { result ≡ name_count number }
{
    if 1 <= number && number <= MOST_NAMES {
        Some(number)
    } else {
        None
    }
}
