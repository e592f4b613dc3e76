//! Lists of stages.

ghost use Rattle.std.specs.Prelude.{◌≡◌, option_map};
ghost use Rattle.yaml_lines.specs.View.{view};
ghost use Rattle.hook_config.specs.Gives.{GivesValueSurely};
ghost use Rattle.hook_config.specs.Kinds.{each, stage_of, stages_of, stages_of_items};
ghost use Rattle.hook_config.specs.Rows.{meanings_of_nodes};
ghost use Rattle.hook_config.specs.Stages.{stages_among};

use crate::config_fault::ConfigKind;
use crate::kinds::{list_of, text_in};
use crate::stage::{Stage, Stages};
use yaml_profile::Node;

/// The stages of a list, or the default if it is empty. An item that is no text is `Shape`, a text that names
/// no stage is `BadStage`.
pub(crate) fn stages_of(node: &Node, default: Stages) -> Result<Stages, ConfigKind>
    ensures { GivesValueSurely (λ stages. stages) result (stages_of default (view node.now)) }
{
    let items = list_of(node)?;
    if items.is_empty() {
        return Ok(default);
    }
    stages_among(items)
}

// The set of the stages of the items.
#[tactic(auto, using(crate::proofs::StageLists::listing))]
fn stages_among(items: &[Node]) -> Result<Stages, ConfigKind>
    ensures { GivesValueSurely (λ stages. stages) result
        (option_map stages_among (each stage_of (meanings_of_nodes items.now))) }
{
    let mut stages = Stages::none();
    for item in items {
        stages = stages.with(stage_of(item)?);
    }
    Ok(stages)
}

fn stage_of(node: &Node) -> Result<Stage, ConfigKind>
    ensures { GivesValueSurely (λ stage. stage) result (stage_of (view node.now)) }
{
    Stage::of_word(text_in(node)?).ok_or(ConfigKind::BadStage)
}
