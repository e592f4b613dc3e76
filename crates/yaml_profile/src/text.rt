//! A whole text, from its bytes on.
//!
//! The contracts cite `specs/Text.antt`.

ghost use Rattle.std.specs.Prelude.{◌≡◌, ◌≤◌, IfErr, IfOk, length, option_and_then};
ghost use Rattle.yaml_lines.specs.Meaning.{most_nodes};
ghost use Rattle.yaml_lines.specs.Characters.{most_bytes};
ghost use Rattle.yaml_lines.specs.Faults.{Gives, TellsTooLarge};
ghost use Rattle.yaml_lines.specs.Lines.{content_lines_from, content_lines_of};
ghost use Rattle.yaml_lines.specs.View.{view};
ghost use Rattle.yaml_lines.specs.declared.fault.YamlKind.TheVariants.{OutOfMemory, TooLarge};
ghost use Rattle.yaml_profile.specs.Blocks.{whole_text};
ghost use Rattle.yaml_profile.specs.Text.{meaning_of};

use crate::blocks::block;
use crate::flow::flow_over;
use std::alloc::Global;
use yaml_lines::{
    Line, Lines, MOST_NODES, Node, RawLine, YamlFault, YamlKind, begins_block, begins_flow,
    characters, raw_lines, read_lines,
};

/// The node of a text of at most [`MOST_BYTES`](yaml_lines::MOST_BYTES) bytes.
///
/// A text that has no node is refused with the first line, from 1, at which it can't be read. The kinds
/// are:
/// - `TooLarge`, always in line 1, and `NotUtf8`;
/// - `TabIndent`, `Unsupported` and `Layout`;
/// - `Quote` at a quoted text that doesn't end on its line, or at the code of a surrogate;
/// - `DoubledKey` in the line of the second of two equal keys;
/// - `TooDeep` at a node that would be one more than [`MOST_NODES`] nested ones.
///
/// `OutOfMemory`, in line 0, says nothing of the text.
pub fn read(alloc: Global, bytes: &[u8]) -> Result<Node, YamlFault>
    ensures meant { Gives view result (meaning_of bytes.now) }
    ensures within { IfOk result (λ _. length bytes.now ≤ most_bytes) }
    ensures large { IfErr result (TellsTooLarge bytes.now) }
{
    match characters(alloc, bytes) {
        Ok(text) => read_text(alloc, text.as_slice(), None),
        Err(fault) => Err(first_fault(alloc, bytes, fault)),
    }
}

// The node of a text. `behind` is a fault of the bytes after it, if there is one.
#[tactic(auto, unfolding(yaml_lines::specs::Lines::content_lines_of))]
fn read_text(alloc: Global, text: &[char], behind: Option<YamlFault>) -> Result<Node, YamlFault>
    requires { length text.now ≤ most_bytes }
    ensures { Gives view result (option_and_then (whole_text most_nodes) (content_lines_of text.now)) }
{
    let raws = raw_lines(alloc, text)?;
    read_raws(alloc, raws.as_slice(), behind)
}

// The node of a text with these lines.
fn read_raws(
    alloc: Global,
    raws: &[RawLine<'_>],
    behind: Option<YamlFault>,
) -> Result<Node, YamlFault>
    ensures { Gives view result (option_and_then (whole_text most_nodes) (content_lines_from raws.now)) }
{
    let Lines { lines, fault } = read_lines(alloc, raws)?;
    let end = fault.or(behind).unwrap_or(layout_at_last(lines.as_slice()));
    let node = whole(alloc, lines.as_slice(), end)?;
    match fault {
        Some(fault) => Err(fault),
        None => Ok(node),
    }
}

// The fault of lines that end within a flow, in the last line.
fn layout_at_last(lines: &[Line<'_, '_>]) -> YamlFault {
    let line = match lines {
        [] => 1,
        [.., last] => last.number(),
    };
    YamlFault {
        kind: YamlKind::Layout,
        line,
    }
}

// The node of all lines.
#[tactic(auto, unfolding(crate::specs::Blocks::whole_text))]
fn whole(alloc: Global, lines: &[Line<'_, '_>], end: YamlFault) -> Result<Node, YamlFault>
    ensures { Gives view result (whole_text most_nodes lines.now) }
{
    let [first, later @ ..] = lines else {
        return block(alloc, lines, MOST_NODES, 1, end);
    };
    let content = first.content();
    if begins_block(content) {
        return Err(YamlFault {
            kind: YamlKind::Unsupported,
            line: first.number(),
        });
    }
    if begins_flow(content) {
        return flow_over(alloc, first.number(), content, later, MOST_NODES, end);
    }
    block(alloc, lines, MOST_NODES, 1, end)
}

// The fault of the bytes, or an earlier one in the lines before the first that isn't UTF-8.
fn first_fault(alloc: Global, bytes: &[u8], fault: YamlFault) -> YamlFault
    ensures memory { fault.kind ≡ OutOfMemory → result.kind ≡ OutOfMemory }
    ensures large { fault.kind ≡ TooLarge → result ≡ fault }
{
    if fault.kind != YamlKind::NotUtf8 {
        return fault;
    }
    match characters(alloc, lines_before(bytes, fault.line)) {
        Ok(text) => read_text(alloc, text.as_slice(), Some(fault))
            .err()
            .unwrap_or(fault),
        Err(earlier) => earlier,
    }
}

// The bytes of the lines before this one.
fn lines_before(bytes: &[u8], line: usize) -> &[u8] {
    let mut left = line;
    for (at, byte) in bytes.iter().enumerate() {
        if left <= 1 {
            return &bytes[..at];
        }
        if *byte == b'\n' {
            left -= 1;
        }
    }
    bytes
}
