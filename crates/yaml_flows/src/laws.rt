//! Laws of the definitions that the contracts cite, in YAML's own words. Each law is a function that
//! returns nothing: what it ensures is a theorem about the definitions alone.

ghost use Rattle.std.specs.Prelude.{◌≡◌, ◌≤◌, ℕ, List, Some, true};
ghost use Rattle.std.specs.List.{join_with_byte};
ghost use Rattle.yaml_flows.specs.FlowLaws.{closes_last};
ghost use Rattle.yaml_flows.specs.Flows.{flow_meaning};
ghost use Rattle.yaml_lines.specs.FlowLines.{outside};
ghost use Rattle.yaml_lines.specs.Meaning.{Meaning, most_nodes};

/// The reader of lines and the reader of flows agree on the lines of a flow. If a text of lines means
/// something as a flow, the flow is open after each of its lines but the last, and closed after the last.
/// So each later line counts as a line of the flow, in which no block text begins, and the line after the
/// flow doesn't. In
///
/// ```yaml
/// [x:'y,
///   "[" # [
/// ]
/// ```
///
/// one bracket is open after the first line and after the second, and none after the third.
pub fn a_flow_is_open_up_to_its_last_line()
    ensures { (room : ℕ) (lines : List (List ℕ)) (m : Meaning) → room ≤ most_nodes
        → flow_meaning room (join_with_byte 10 lines) ≡ Some m → closes_last outside lines ≡ true }
{}
