//! Lists of texts, and values that are served only if they are empty.

ghost use Rattle.std.specs.Prelude.{◌≡◌};
ghost use Rattle.yaml_lines.specs.View.{view};
ghost use Rattle.hook_config.specs.Gives.{GivesValue, GivesValueSurely};
ghost use Rattle.hook_config.specs.Kinds.{each, text_of, texts_of_list, empty_text_of, empty_texts_of};
ghost use Rattle.hook_config.specs.Rows.{meanings_of_nodes};

use crate::config_fault::ConfigKind;
use crate::config_text::ConfigText;
use crate::kinds::{list_of, text_in, text_of};
use hook_base::Items;
use std::alloc::Global;
use yaml_profile::Node;

/// A list of texts. An item that is no text is `Shape`.
pub(crate) fn texts_of(alloc: Global, node: &Node) -> Result<Items<ConfigText>, ConfigKind>
    ensures { GivesValue (λ texts. texts) result (texts_of_list (view node.now)) }
{
    Ok(Items::from(texts_of_items(alloc, list_of(node)?)?))
}

#[tactic(auto, using(crate::proofs::TextLists::listing))]
fn texts_of_items(alloc: Global, items: &[Node]) -> Result<Vec<ConfigText>, ConfigKind>
    ensures { GivesValue (λ texts. texts.items) result (each text_of (meanings_of_nodes items.now)) }
{
    let mut texts = Vec::new(alloc);
    for item in items {
        texts.push(text_of(alloc, item)?)?;
    }
    Ok(texts)
}

/// The empty text. Another text is `Unsupported`.
pub(crate) fn empty_text_of(alloc: Global, node: &Node) -> Result<ConfigText, ConfigKind>
    ensures { GivesValueSurely (λ owned. owned) result (empty_text_of (view node.now)) }
{
    if text_in(node)?.is_empty() {
        Ok(ConfigText::empty(alloc))
    } else {
        Err(ConfigKind::Unsupported)
    }
}

/// The empty list. Another list of texts is `Unsupported`.
#[tactic(auto, using(crate::proofs::TextLists::refused_texts))]
pub(crate) fn empty_texts_of(alloc: Global, node: &Node) -> Result<Items<ConfigText>, ConfigKind>
    ensures { GivesValueSurely (λ texts. texts) result (empty_texts_of (view node.now)) }
{
    let items = list_of(node)?;
    if items.is_empty() {
        Ok(Items::new(alloc))
    } else {
        Err(kind_of_items(items))
    }
}

// Why these items, of which there is at least one, aren't taken.
fn kind_of_items(items: &[Node]) -> ConfigKind {
    if items.iter().all(|item| text_in(item).is_ok()) {
        ConfigKind::Unsupported
    } else {
        ConfigKind::Shape
    }
}
