//! Laws of what the contracts cite. Each is a function that gives nothing: what it ensures is a theorem.

ghost use Rattle.std.specs.Prelude.{IsTrue};
ghost use Rattle.run_options.specs.TableRules.{are_distinct, are_names, are_short};
ghost use Rattle.run_options.specs.Tools.{tool_rows};

/// In the table of known tools no name is empty, has a slash or occurs twice, and no pattern is longer than
/// one of a configuration may be.
#[tactic(auto, unfolding(crate::specs::Tools::tool_rows))]
pub fn the_tools_are_fit()
    ensures distinct { IsTrue (are_distinct tool_rows) }
    ensures names { IsTrue (are_names tool_rows) }
    ensures short { IsTrue (are_short tool_rows) }
{}
