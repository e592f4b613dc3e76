//! The texts of a flow, plain or quoted.
//!
//! The contracts cite `FlowTexts.antt` of `yaml_lines`.

ghost use Rattle.std.specs.Prelude.{◌≡◌};
ghost use Rattle.yaml_flows.specs.Faults.{GivesFlow};
ghost use Rattle.yaml_flows.specs.Views.{text_seen};
ghost use Rattle.yaml_lines.specs.FlowTexts as texts;

use crate::fault::{FlowFault, fault_at, no_text};
use crate::found::FlowText;
use std::alloc::Global;
use yaml_lines::{begins_quoted, plain_part, read_quoted, skip, text_of};

fn plain_at<'a>(alloc: Global, text: &'a [char]) -> Result<FlowText<'a>, FlowFault>
    ensures { GivesFlow text_seen result (texts.plain_at text.now) }
{
    let Some(part) = plain_part(text) else {
        return Err(no_text(text));
    };
    Ok(FlowText {
        text: text_of(alloc, part)?,
        quoted: false,
        rest: skip(text, part.len()),
    })
}

fn quoted_at<'a>(alloc: Global, text: &'a [char]) -> Result<FlowText<'a>, FlowFault>
    ensures { GivesFlow text_seen result (texts.quoted_at text.now) }
{
    match read_quoted(alloc, 0, text) {
        Ok(quoted) => {
            let rest = quoted.rest();
            Ok(FlowText {
                text: quoted.into_text(),
                quoted: true,
                rest,
            })
        }
        Err(fault) => Err(fault_at(fault.kind, text)),
    }
}

/// The text, plain or quoted, that the characters begin with. (YAML 1.2.2, sections 7.3.1 to 7.3.3.)
#[tactic(auto, unfolding(yaml_lines::specs::FlowTexts::text_at))]
pub(crate) fn text_at<'a>(alloc: Global, text: &'a [char]) -> Result<FlowText<'a>, FlowFault>
    ensures { GivesFlow text_seen result (texts.text_at text.now) }
{
    if begins_quoted(text) {
        quoted_at(alloc, text)
    } else {
        plain_at(alloc, text)
    }
}
