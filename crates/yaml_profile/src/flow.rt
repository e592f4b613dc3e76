//! Flows over the lines that belong to them.
//!
//! The contracts cite `specs/Blocks.antt`.

ghost use Rattle.std.specs.Prelude.{◌≡◌, ◌≤◌, ◌++◌, IfOk, if◌then◌else◌};
ghost use Rattle.std.specs.List.{list_all};
ghost use Rattle.yaml_lines.specs.Meaning.{most_nodes};
ghost use Rattle.yaml_flows.specs.Faults.{GivesFlow as FlowGives};
ghost use Rattle.yaml_lines.specs.Faults.{Gives};
ghost use Rattle.yaml_lines.specs.View.{view};
ghost use Rattle.yaml_lines.specs.declared.fault.YamlKind.TheVariants.{OutOfMemory};
ghost use Rattle.yaml_profile.specs.Blocks as blocks;

use crate::inline::{Inline, fault};
use crate::parts::count_in_flow;
use std::alloc::{AllocError, Global};
use yaml_flows::{FaultPlace, FlowFault, read_flow};
use yaml_lines::{Line, Node, YamlFault, YamlKind};

/// The flow that the line's content begins, with the lines below that belong to it. No other lines may be
/// below. `end` is the fault if the lines end within the flow.
pub(crate) fn flow_node(
    alloc: Global,
    place: &Inline<'_, '_, '_>,
    below: &[Line<'_, '_>],
    room: usize,
    end: YamlFault,
) -> Result<Node, YamlFault>
    requires { room ≤ most_nodes }
    ensures { Gives view result (if list_all (blocks.is_in_flow place.now.indent) below.now
        then blocks.flow room place.now.content below.now else None) }
{
    let (own, others) = below.split_at(count_in_flow(below, place.indent()));
    match others {
        [] => flow_over(alloc, place.number(), place.content(), own, room, end),
        [line, ..] => {
            let outside = fault(YamlKind::Layout, line.number());
            let found = flow_over(alloc, place.number(), place.content(), own, room, outside);
            Err(found.err().unwrap_or(outside))
        }
    }
}

/// The flow that begins with this content, in line `number`, and goes on over all later lines. `end` is the
/// fault if the lines end within the flow.
pub(crate) fn flow_over(
    alloc: Global,
    number: usize,
    content: &[char],
    later: &[Line<'_, '_>],
    room: usize,
    end: YamlFault,
) -> Result<Node, YamlFault>
    requires { room ≤ most_nodes }
    ensures { Gives view result (blocks.flow room content.now later.now) }
{
    match read_over(alloc, content, later, room) {
        Ok(node) => Ok(node),
        Err(found) => Err(line_fault(found, number, later, end)),
    }
}

// The same with the flow's own fault. A flow on one line needs no copy of its characters.
fn read_over(
    alloc: Global,
    content: &[char],
    later: &[Line<'_, '_>],
    room: usize,
) -> Result<Node, FlowFault>
    requires { room ≤ most_nodes }
    ensures { FlowGives view result (blocks.flow room content.now later.now) }
{
    match later {
        [] => read_flow(alloc, content, room),
        _ => {
            let text = flow_text(alloc, content, later)?;
            read_flow(alloc, text.as_slice(), room)
        }
    }
}

// The characters of all lines, with line feeds between them.
fn flow_text(
    alloc: Global,
    content: &[char],
    later: &[Line<'_, '_>],
) -> Result<Vec<char>, AllocError>
    ensures { IfOk result (λ text. text.items ≡ content.now ++ blocks.further later.now) }
{
    let mut text = Vec::from_slice(alloc, content)?;
    for line in later {
        text.push('\n')?;
        text.extend_from_slice(line.content())?;
    }
    Ok(text)
}

// The fault at its line. It is `end` if the flow's fault is at the end of the lines.
fn line_fault(found: FlowFault, number: usize, later: &[Line<'_, '_>], end: YamlFault) -> YamlFault
    ensures { found.kind ≡ OutOfMemory → result.kind ≡ OutOfMemory }
{
    if found.kind == YamlKind::OutOfMemory {
        return YamlFault::from(AllocError);
    }
    match found.place {
        FaultPlace::End => end,
        FaultPlace::Within { feeds_left } => fault(
            found.kind,
            line_before(number, later, feeds_left),
        ),
    }
}

// The number of the line after which `left` lines remain. The lines are line `number` and these later ones.
fn line_before(number: usize, later: &[Line<'_, '_>], left: usize) -> usize {
    match &later[..later.len().saturating_sub(left)] {
        [.., line] => line.number(),
        [] => number,
    }
}
