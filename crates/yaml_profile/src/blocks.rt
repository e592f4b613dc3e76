//! Nodes by their lines: lists and tables by the indentation, and what is on one line.
//!
//! The contracts cite `specs/Blocks.antt`.

ghost use Rattle.std.specs.Prelude.{◌≡◌, ℕ, List, [], ◌∷◌, ◌<◌, ◌≤◌, length, map, IfOk, if◌then◌else◌, true, string_bytes, IsOk, ◌↔◌};
ghost use Rattle.std.specs.BTreeSet.{contains_text};
ghost use Rattle.std.specs.Str.{bytes_eq};
ghost use Rattle.yaml_lines.specs.Meaning.{most_nodes};
ghost use Rattle.yaml_lines.specs.Faults.{Gives};
ghost use Rattle.yaml_lines.specs.View.{view, member_view};
ghost use Rattle.yaml_profile.specs.Blocks as blocks;
ghost use Rattle.yaml_profile.specs.Rows.{fresh, rows_of_vector};

use crate::inline::{Inline, fault, line_node};
use crate::keys::see;
use crate::parts::{split_below_key, split_deeper};
use std::alloc::Global;
use std::collections::BTreeSet;
use yaml_lines::{Line, Node, YamlFault, YamlKind, after_dash, is_item, read_entry, scalar};

/// The node of the lines, if at most `room` nodes may be nested. `number` is the line of what they belong
/// to, and `end` the fault if the lines end within a flow.
#[cycle(blocks)]
pub(crate) fn block(
    alloc: Global,
    lines: &[Line<'_, '_>],
    room: usize,
    number: usize,
    end: YamlFault,
) -> Result<Node, YamlFault>
    requires { room ≤ most_nodes }
    ensures { Gives view result (blocks.node room lines.now) }
{
    match lines {
        [first, later @ ..] => node(alloc, first, later, room, end),
        [] => no_lines(room, number),
    }
}

// The node of no lines. An empty node counts as a nested one too.
fn no_lines(room: usize, number: usize) -> Result<Node, YamlFault>
    ensures { Gives view result (blocks.node room []) }
{
    if room == 0 {
        return Err(fault(YamlKind::TooDeep, number));
    }
    Ok(Node::Empty)
}

// The node of a first line and the lines after it.
#[cycle(blocks)]
fn node(
    alloc: Global,
    first: &Line<'_, '_>,
    later: &[Line<'_, '_>],
    room: usize,
    end: YamlFault,
) -> Result<Node, YamlFault>
    requires { room ≤ most_nodes }
    ensures { Gives view result (blocks.node room (first.now ∷ later.now)) }
{
    if room == 0 {
        return Err(fault(YamlKind::TooDeep, first.number()));
    }
    let content = first.content();
    if is_item(content) {
        let found = items(alloc, first, later, room - 1, end)?;
        return Ok(Node::List(found));
    }
    if read_entry(alloc, content)?.is_some() {
        let found = rows(alloc, first, later, room - 1, end)?;
        return Ok(Node::Table(found));
    }
    line_node(alloc, &Inline::line(first), later, room, end)
}

// The fault of a line that begins no item or no entry, after lines that do.
fn no_part(alloc: Global, line: &Line<'_, '_>) -> YamlFault {
    let other = fault(YamlKind::Layout, line.number());
    scalar(alloc, line.number(), line.content())
        .err()
        .unwrap_or(other)
}

// The fault if a part's lines end within a flow. If a line follows them, it isn't deep enough for the flow.
fn end_before(rest: &[Line<'_, '_>], end: YamlFault) -> YamlFault {
    match rest {
        [] => end,
        [line, ..] => fault(YamlKind::Layout, line.number()),
    }
}

// A list's items and a table's keys are all as deep as the first. Any other is `Layout`.
fn check_indent(line: &Line<'_, '_>, indent: usize) -> Result<(), YamlFault>
    ensures { IsOk result ↔ (line.now.indent ≡ indent) }
{
    if line.indent() == indent {
        Ok(())
    } else {
        Err(fault(YamlKind::Layout, line.number()))
    }
}

// The items of a list. The first line may be what follows another list's dash, so it is separate from the
// others.
#[cycle(blocks)]
fn items(
    alloc: Global,
    first: &Line<'_, '_>,
    later: &[Line<'_, '_>],
    room: usize,
    end: YamlFault,
) -> Result<Vec<Node>, YamlFault>
    requires { room ≤ most_nodes }
    ensures { Gives (λ v. map view v.items) result (blocks.items (blocks.node room) first.now later.now) }
{
    let indent = first.indent();
    let (below, mut rest) = split_deeper(later, indent);
    let mut found = Vec::new(alloc);
    found.push(item(alloc, first, below, indent, room, end_before(rest, end))?)?;
    'items: while let [next, others @ ..] = rest {
        let (below, after) = split_deeper(others, indent);
        found.push(item(alloc, next, below, indent, room, end_before(after, end))?)?;
        rest = after;
    }
    Ok(found)
}

// The item that the line begins, with the lines below it. (YAML 1.2.2, section 8.2.1.)
#[cycle(blocks)]
fn item(
    alloc: Global,
    line: &Line<'_, '_>,
    below: &[Line<'_, '_>],
    indent: usize,
    room: usize,
    end: YamlFault,
) -> Result<Node, YamlFault>
    requires { room ≤ most_nodes }
    ensures { Gives view result
        (blocks.item (blocks.node room) indent (record { head = line.now; below = below.now })) }
{
    check_indent(line, indent)?;
    if !is_item(line.content()) {
        return Err(no_part(alloc, line));
    }
    match after_dash(line)? {
        Some(rest) => node(alloc, &rest, below, room, end),
        None => block(alloc, below, room, line.number(), end),
    }
}

// The keys of a table with their values. (YAML 1.2.2, section 8.2.2.)
#[cycle(blocks)]
fn rows(
    alloc: Global,
    first: &Line<'_, '_>,
    later: &[Line<'_, '_>],
    room: usize,
    end: YamlFault,
) -> Result<Vec<(String, Node)>, YamlFault>
    requires { room ≤ most_nodes }
    ensures { Gives rows_of_vector result
        (blocks.rows (blocks.node room) (blocks.line_node room) first.now later.now) }
{
    let indent = first.indent();
    let (below, mut rest) = split_below_key(later, indent);
    let mut seen = BTreeSet::new(alloc);
    let mut found = Vec::new(alloc);
    found.push(entry(
        alloc,
        &mut seen,
        first,
        below,
        indent,
        room,
        end_before(rest, end),
    )?)?;
    'rows: while let [next, others @ ..] = rest {
        let (below, after) = split_below_key(others, indent);
        found.push(entry(
            alloc,
            &mut seen,
            next,
            below,
            indent,
            room,
            end_before(after, end),
        )?)?;
        rest = after;
    }
    Ok(found)
}

// The key that the line begins with, and its value. The key counts as seen before its value is read, so a
// doubled key is reported before a fault of its value.
#[cycle(blocks)]
fn entry(
    alloc: Global,
    seen: &mut BTreeSet<String>,
    line: &Line<'_, '_>,
    below: &[Line<'_, '_>],
    indent: usize,
    room: usize,
    end: YamlFault,
) -> Result<(String, Node), YamlFault>
    requires { room ≤ most_nodes }
    ensures given { Gives member_view result (fresh (contains_text seen.old)
        (blocks.entry (blocks.node room) (blocks.line_node room) indent
        (record { head = line.now; below = below.now }))) }
    ensures seen { IfOk result (λ row. (q : List ℕ) → contains_text seen.new q
        ≡ (if bytes_eq (string_bytes row.0) q then true else contains_text seen.old q)) }
{
    check_indent(line, indent)?;
    let Some(found) = read_entry(alloc, line.content())? else {
        return Err(no_part(alloc, line));
    };
    let place = Inline::value(line, found.value());
    let key = found.into_key();
    see(alloc, seen, key.as_str(), line.number())?;
    let node = value(alloc, &place, below, room, end)?;
    Ok((key, node))
}

// A key's value: what is on its line, or the node of the lines below.
#[cycle(blocks)]
fn value(
    alloc: Global,
    place: &Inline<'_, '_, '_>,
    below: &[Line<'_, '_>],
    room: usize,
    end: YamlFault,
) -> Result<Node, YamlFault>
    requires { room ≤ most_nodes }
    ensures { Gives view result
        (blocks.value (blocks.node room) (blocks.line_node room) place.now below.now) }
{
    match place.content() {
        [] => block(alloc, below, room, place.number(), end),
        _ => line_node(alloc, place, below, room, end),
    }
}
