//! Texts on one line, plain or quoted.
//!
//! The contracts cite `specs/Scalars.antt`.

ghost use Rattle.std.specs.Prelude.{IfErr, option_and_then, option_map, false};
ghost use Rattle.yaml_lines.specs.Faults.{Gives, StandsAt};
ghost use Rattle.yaml_lines.specs.Meaning.{text};
ghost use Rattle.yaml_lines.specs.Plain.{plain_of};
ghost use Rattle.yaml_lines.specs.Quoted.{quoted_of};
ghost use Rattle.yaml_lines.specs.Scalars.{alone, scalar_meaning};
ghost use Rattle.yaml_lines.specs.View.{view};

use crate::plain_text::{begins_plain, colon};
use crate::quoted_text::begins_quoted;
use crate::scan::{is_over, text_of, trim_end, uncommented};
use crate::{Node, YamlFault, YamlKind, read_quoted, refusal};
use std::alloc::Global;

#[tactic(auto, using(crate::proofs::FaultLines::memory_line))]
fn plain_scalar(alloc: Global, number: usize, content: &[char]) -> Result<Node, YamlFault>
    ensures meant { Gives view result (option_map (λ bytes. text bytes false) (plain_of content.now)) }
    ensures place { IfErr result (StandsAt number) }
{
    if !begins_plain(content) || colon(content).is_some() {
        return Err(refusal(number, content));
    }
    let text = text_of(alloc, trim_end(uncommented(content)))?;
    Ok(Node::Text {
        text,
        quoted: false,
    })
}

fn quoted_scalar(alloc: Global, number: usize, content: &[char]) -> Result<Node, YamlFault>
    ensures meant { Gives view result (option_and_then alone (quoted_of content.now)) }
    ensures place { IfErr result (StandsAt number) }
{
    let quoted = read_quoted(alloc, number, content)?;
    if !is_over(quoted.rest()) {
        return Err(YamlFault {
            kind: YamlKind::Layout,
            line: number,
        });
    }
    Ok(Node::Text {
        text: quoted.into_text(),
        quoted: true,
    })
}

/// The text, plain or quoted, that the whole content is. Only blanks and a comment may follow it.
///
/// Any other content is refused in line `number`, as [`read_quoted`](crate::read_quoted) and
/// [`refusal`](crate::refusal) say, and as `Layout` if something else follows a quoted text. `OutOfMemory`
/// is in line 0.
#[tactic(auto, unfolding(crate::specs::Scalars::scalar_meaning))]
pub fn scalar(alloc: Global, number: usize, content: &[char]) -> Result<Node, YamlFault>
    ensures meant { Gives view result (scalar_meaning content.now) }
    ensures place { IfErr result (StandsAt number) }
{
    if begins_quoted(content) {
        quoted_scalar(alloc, number, content)
    } else {
        plain_scalar(alloc, number, content)
    }
}
