//! What may follow a flow.
//!
//! The contracts cite `specs/Flows.antt`.

ghost use Rattle.std.specs.Prelude.{◌≡◌, ◌↔◌, IsOk, true};
ghost use Rattle.std.specs.List.{list_any};
ghost use Rattle.yaml_flows.specs.Flows.{is_end};
ghost use Rattle.yaml_lines.specs.FlowGaps.{is_feed};

use crate::fault::{FlowFault, fault_at, in_last_line};
use yaml_lines::{YamlKind, after_gap};

fn has_feed(text: &[char]) -> bool
    ensures { result ≡ list_any is_feed text.now }
{
    text.iter().any(|c| *c == '\n')
}

/// What follows a flow's last bracket is blanks and a comment at most, and no further line. Anything else
/// is `Layout` at its first character, or in the last line.
pub(crate) fn end(rest: &[char]) -> Result<(), FlowFault>
    ensures { IsOk result ↔ (is_end rest.now ≡ true) }
{
    let behind = after_gap(rest);
    if !behind.is_empty() {
        return Err(fault_at(YamlKind::Layout, behind));
    }
    if has_feed(rest) {
        return Err(in_last_line(YamlKind::Layout));
    }
    Ok(())
}
