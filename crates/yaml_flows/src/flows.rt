//! The nodes of a flow: lists, tables and texts.
//!
//! The contracts cite `specs/Flows.antt`.

ghost use Rattle.std.specs.Prelude.{◌≡◌, ◌≤◌, ℕ, List, [], ◌∷◌, IfOk, if◌then◌else◌, true, string_bytes, length};
ghost use Rattle.std.specs.BTreeSet.{contains_text};
ghost use Rattle.yaml_lines.specs.Meaning.{most_nodes};
ghost use Rattle.yaml_lines.specs.View.{view, member_view};
ghost use Rattle.yaml_flows.specs.Faults.{GivesFlow};
ghost use Rattle.yaml_flows.specs.Flows as flows;
ghost use Rattle.yaml_flows.specs.Views.{seen_by, fresh_flow_row, is_seen, seen_later};

use crate::ending::end;
use crate::entries::{behind, behind_colon, next_part, no_colon, no_next_item};
use crate::fault::{FlowFault, fault_at, no_room};
use crate::found::{FlowText, Found};
use crate::seen_keys::see;
use crate::texts::text_at;
use std::alloc::Global;
use std::collections::BTreeSet;
use yaml_lines::{Node, YamlKind, after_gap};

/// The node of a whole flow. `text` is the content of its lines, the first from the bracket on, joined by
/// line feeds. At most `room` nodes may be nested, the flow itself among them; keys aren't nodes. `room` is
/// at most [`MOST_NODES`](yaml_lines::MOST_NODES), which bounds the depth of the calls.
///
/// The text begins with `[` or `{`. Comments may come after a blank or at a line's start. Only blanks and a
/// comment follow the flow's last bracket. Any other text is a fault, at the first place at which it can't
/// be read:
///
/// - `Unsupported` at a form that this profile leaves out: `[key: value]`, a key without a colon, an anchor
///   and its like, `? `, and an escape that [`read_quoted`](yaml_lines::read_quoted) doesn't read;
/// - `Quote` at a quoted text that doesn't end on its line, and at the code of a surrogate;
/// - `DoubledKey` at a key that its table already has, quoted or not;
/// - `TooDeep` at a node for which there is no room;
/// - `Layout` otherwise, and at the end of the text if a closing bracket is missing.
///
/// `OutOfMemory` says nothing of the text.
///
/// (YAML 1.2.2, sections 7.3.3 "Plain Style", 7.4.1 "Flow Sequences" and 7.4.2 "Flow Mappings".)
#[tactic(auto, unfolding(crate::specs::Flows::flow_meaning))]
pub fn read_flow(alloc: Global, text: &[char], room: usize) -> Result<Node, FlowFault>
    requires { room ≤ most_nodes }
    ensures { GivesFlow view result (flows.flow_meaning room text.now) }
{
    if !begins_flow(text) {
        return Err(fault_at(YamlKind::Layout, text));
    }
    let flow = node(alloc, text, room)?;
    match end(flow.rest) {
        Ok(()) => Ok(flow.value),
        Err(fault) => Err(fault),
    }
}

fn begins_flow(text: &[char]) -> bool
    ensures { result ≡ flows.begins_list_or_table text.now }
{
    matches!(text, ['[' | '{', ..])
}

// The node that the characters begin with.
#[cycle(flows)]
fn node<'a>(alloc: Global, text: &'a [char], room: usize) -> Result<Found<'a, Node>, FlowFault>
    ensures { GivesFlow (seen_by view) result (flows.node room text.now) }
{
    if room == 0 {
        return Err(no_room(text));
    }
    if let Some(inner) = behind('[', text) {
        return list(alloc, inner, room - 1);
    }
    if let Some(inner) = behind('{', text) {
        return table(alloc, inner, room - 1);
    }
    text_node(alloc, text)
}

fn text_node<'a>(alloc: Global, text: &'a [char]) -> Result<Found<'a, Node>, FlowFault>
    ensures { GivesFlow (seen_by view) result (flows.text_node_at text.now) }
{
    let FlowText { text, quoted, rest } = text_at(alloc, text)?;
    Ok(Found {
        value: Node::Text { text, quoted },
        rest,
    })
}

// The list whose opening bracket these characters follow. Each item takes a character, and so does the
// closing bracket, so one turn per character is enough.
#[cycle(flows)]
fn list<'a>(alloc: Global, inner: &'a [char], room: usize) -> Result<Found<'a, Node>, FlowFault>
    ensures { GivesFlow (seen_by view) result (flows.list_at (flows.node room) inner.now) }
{
    let start = after_gap(inner);
    let mut items = Vec::new(alloc);
    let mut rest = start;
    'items: for _ in 0..start.len() {
        if let Some(after) = behind(']', rest) {
            return Ok(Found {
                value: Node::List(items),
                rest: after,
            });
        }
        let found = item(alloc, rest, room)?;
        items.push(found.value)?;
        rest = found.rest;
    }
    Err(fault_at(YamlKind::Layout, rest))
}

// An item, and what follows it from the next item or the closing bracket on.
#[cycle(flows)]
fn item<'a>(alloc: Global, text: &'a [char], room: usize) -> Result<Found<'a, Node>, FlowFault>
    ensures { GivesFlow (seen_by view) result (flows.part 93 (flows.node room) text.now) }
{
    let Found { value, rest } = node(alloc, text, room)?;
    let place = after_gap(rest);
    match next_part(']', place) {
        Some(next) => Ok(Found { value, rest: next }),
        None => Err(no_next_item(text, place)),
    }
}

// Room for so many rows is taken at once: most tables in a flow have one or two, and a row takes much
// memory.
const FIRST_ROWS: usize = 2;

// The table whose opening brace these characters follow. One turn per character is enough here too.
#[cycle(flows)]
fn table<'a>(alloc: Global, inner: &'a [char], room: usize) -> Result<Found<'a, Node>, FlowFault>
    ensures { GivesFlow (seen_by view) result (flows.table_at (flows.node room) inner.now) }
{
    let start = after_gap(inner);
    let mut rows = Vec::with_capacity(alloc, FIRST_ROWS)?;
    let mut later = BTreeSet::new(alloc);
    let mut rest = start;
    'rows: for _ in 0..start.len() {
        if let Some(after) = behind('}', rest) {
            return Ok(Found {
                value: Node::Table(rows),
                rest: after,
            });
        }
        let found = row(alloc, rows.as_slice(), &mut later, rest, room)?;
        rows.push(found.value)?;
        rest = found.rest;
    }
    Err(fault_at(YamlKind::Layout, rest))
}

// A further row of a table, after these rows, and what follows it from the next row or the closing brace
// on. `later` has the keys of the later ones of these rows.
#[cycle(flows)]
fn row<'a>(
    alloc: Global,
    rows: &[(String, Node)],
    later: &mut BTreeSet<String>,
    text: &'a [char],
    room: usize,
) -> Result<Found<'a, (String, Node)>, FlowFault>
    ensures given { GivesFlow (seen_by member_view) result
        (fresh_flow_row (is_seen rows.now (contains_text later.old))
        (flows.part 125 (flows.entry (flows.node room)) text.now)) }
    ensures later { IfOk result (λ found. (q : List ℕ) → contains_text later.new q
        ≡ seen_later (length rows.now) (string_bytes found.value.0) (contains_text later.old) q) }
{
    let Found { value, rest } = entry(alloc, rows, later, text, room)?;
    let place = after_gap(rest);
    match next_part('}', place) {
        Some(next) => Ok(Found { value, rest: next }),
        None => Err(fault_at(YamlKind::Layout, place)),
    }
}

// A key with its value, without the gap and the comma after it. The key counts as seen before its value is
// read, so a doubled key is reported before a fault of its value.
#[cycle(flows)]
fn entry<'a>(
    alloc: Global,
    rows: &[(String, Node)],
    later: &mut BTreeSet<String>,
    text: &'a [char],
    room: usize,
) -> Result<Found<'a, (String, Node)>, FlowFault>
    ensures given { GivesFlow (seen_by member_view) result
        (fresh_flow_row (is_seen rows.now (contains_text later.old)) (flows.entry (flows.node room) text.now)) }
    ensures later { IfOk result (λ found. (q : List ℕ) → contains_text later.new q
        ≡ seen_later (length rows.now) (string_bytes found.value.0) (contains_text later.old) q) }
{
    let FlowText {
        text: key,
        quoted,
        rest,
    } = text_at(alloc, text)?;
    let place = after_gap(rest);
    let Some(value) = behind_colon(quoted, place) else {
        return Err(no_colon(place));
    };
    see(alloc, rows, later, key.as_str(), text)?;
    let Found { value, rest } = node(alloc, after_gap(value), room)?;
    Ok(Found {
        value: (key, value),
        rest,
    })
}
