//! Nodes on one line: after a key, after a dash, or on a line of their own.
//!
//! The contracts cite `specs/Blocks.antt`.

ghost use Rattle.std.specs.Prelude.{◌≡◌, ◌≤◌, Some, false, option_copied, option_map};
ghost use Rattle.yaml_lines.specs.Faults.{Gives};
ghost use Rattle.yaml_lines.specs.View.{view};
ghost use Rattle.yaml_lines.specs.Meaning.{text, most_nodes};
ghost use Rattle.yaml_profile.specs.Blocks as blocks;

use crate::flow::flow_node;
use std::alloc::Global;
use std::marker::Model;
use yaml_lines::{BlockText, Line, Node, YamlFault, YamlKind, begins_block, begins_flow, scalar};

/// The fault of this kind in this line.
pub(crate) fn fault(kind: YamlKind, line: usize) -> YamlFault {
    YamlFault { kind, line }
}

/// A value on one line: the number and the indentation of the line, the content, and the block text that it
/// begins. Contracts see the content line.
#[derive(Drop)]
pub(crate) struct Inline<'a, 'b, 'c> {
    number: usize,
    indent: usize,
    content: &'a [char],
    block: Option<&'a BlockText<'b, 'c>>,
}

impl<'a, 'b, 'c> Model for Inline<'a, 'b, 'c> {
    ghost use Rattle.std.specs.Prelude.{option_copied};
    ghost use Rattle.yaml_lines.specs.Entries.{ContentLine};

    ghost Value = { ContentLine };

    ghost view = { λ place. record { indent = place.indent; content = place.content.now; block = option_copied place.block } };
}

impl<'a, 'b, 'c> Inline<'a, 'b, 'c> {
    /// The whole line.
    pub(crate) fn line(line: &'a Line<'b, 'c>) -> Self
        ensures { result ≡ line.now }
    {
        Inline {
            number: line.number(),
            indent: line.indent(),
            content: line.content(),
            block: line.block(),
        }
    }

    /// The value of a key on the line.
    pub(crate) fn value(line: &'a Line<'b, 'c>, value: &'a [char]) -> Self
        ensures { result ≡ record { indent = line.now.indent; content = value.now; block = line.now.block } }
    {
        Inline {
            number: line.number(),
            indent: line.indent(),
            content: value,
            block: line.block(),
        }
    }

    /// The line's number in the text, from 1.
    pub(crate) fn number(&self) -> usize {
        self.number
    }

    /// The column at which the line's content begins, from 0.
    pub(crate) fn indent(&self) -> usize
        ensures { result ≡ self.now.indent }
    {
        self.indent
    }

    /// The characters of the value, from its first to the line's end.
    pub(crate) fn content(&self) -> &'a [char]
        ensures { result.now ≡ self.now.content }
    {
        self.content
    }
}

// The text of the block text. None is `Layout`.
fn block_node(
    alloc: Global,
    number: usize,
    block: Option<&BlockText<'_, '_>>,
) -> Result<Node, YamlFault>
    ensures { Gives view result (option_map (λ bytes. text bytes false) (option_copied block.entry)) }
{
    let Some(block) = block else {
        return Err(fault(YamlKind::Layout, number));
    };
    Ok(Node::Text {
        text: block.text(alloc)?,
        quoted: false,
    })
}

// A text: the block text that the content begins, otherwise the plain or quoted text that it is.
fn text_node(alloc: Global, place: &Inline<'_, '_, '_>) -> Result<Node, YamlFault>
    ensures { Gives view result (blocks.text_meaning place.now) }
{
    if begins_block(place.content) {
        block_node(alloc, place.number, place.block)
    } else {
        scalar(alloc, place.number, place.content)
    }
}

// The node, if no lines are below it. A line below is `Layout`.
fn lone(node: Node, below: &[Line<'_, '_>]) -> Result<Node, YamlFault>
    ensures { Gives view result (blocks.lone (Some (view node)) below.now) }
{
    match below {
        [] => Ok(node),
        [line, ..] => Err(fault(YamlKind::Layout, line.number())),
    }
}

/// What begins on the line, with the lines below it, if at most `room` nodes may be nested. `end` is the
/// fault if the lines end within a flow.
pub(crate) fn line_node(
    alloc: Global,
    place: &Inline<'_, '_, '_>,
    below: &[Line<'_, '_>],
    room: usize,
    end: YamlFault,
) -> Result<Node, YamlFault>
    requires { room ≤ most_nodes }
    ensures { Gives view result (blocks.line_node room place.now below.now) }
{
    if room == 0 {
        return Err(fault(YamlKind::TooDeep, place.number));
    }
    if begins_flow(place.content) {
        return flow_node(alloc, place, below, room, end);
    }
    lone(text_node(alloc, place)?, below)
}
