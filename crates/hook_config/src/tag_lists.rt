//! Lists of tags.

ghost use Rattle.std.specs.Prelude.{◌≡◌, [], ◌∷◌, IfOk, IfErr};
ghost use Rattle.yaml_lines.specs.View.{view};
ghost use Rattle.hook_config.specs.Gives.{GivesValue, IsLeftOpen};
ghost use Rattle.hook_config.specs.Kinds.{each, text_of, texts_of_list};
ghost use Rattle.hook_config.specs.KnownKeys.{file_word};
ghost use Rattle.hook_config.specs.Rows.{meanings_of_nodes};

use crate::config_fault::ConfigKind;
use crate::config_text::ConfigText;
use crate::kinds::{list_of, text_of};
use crate::tag_names::TagNames;
use std::alloc::Global;
use yaml_profile::Node;

/// A list of tags, which may be any texts. An item that is no text is `Shape`.
pub(crate) fn tags_of(alloc: Global, node: &Node) -> Result<TagNames, ConfigKind>
    ensures { GivesValue (λ tags. tags) result (texts_of_list (view node.now)) }
{
    tags_of_items(alloc, list_of(node)?)
}

#[tactic(auto, using(crate::proofs::TextLists::listing))]
fn tags_of_items(alloc: Global, items: &[Node]) -> Result<TagNames, ConfigKind>
    ensures { GivesValue (λ tags. tags) result (each text_of (meanings_of_nodes items.now)) }
{
    let mut tags = TagNames::new(alloc);
    for item in items {
        tags.push(text_of(alloc, item)?)?;
    }
    Ok(tags)
}

/// The list of the one tag that every file has.
pub(crate) fn only_file(alloc: Global) -> Result<TagNames, ConfigKind>
    ensures made { IfOk result (λ tags. tags ≡ file_word ∷ []) }
    ensures refused { IfErr result IsLeftOpen }
{
    let mut tags = TagNames::new(alloc);
    tags.push(ConfigText::copy_of(alloc, "file")?)?;
    Ok(tags)
}
