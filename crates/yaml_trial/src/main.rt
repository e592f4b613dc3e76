//! The program `yaml_trial`: plays calls of `hook_base`, `child_port`, the YAML reader and the records of
//! answers. Each line of standard input is a call, and is answered by a line. `tests/rows/rows.py` plays
//! its tables with it.
#![tactic(auto)]

mod calls;
mod child_rows;
mod children;
mod contents;
mod copies;
mod flows;
mod kinds;
mod lines;
mod path_faults;
mod paths;
mod plain_tree;
mod read_records;
mod records;
mod steps;
mod texts;
mod tree_pair;
mod tree_plays;
mod trees;
mod yaml_nodes;

use calls::Calls;
use std::process::ExitCode;
use trial_rows::play;

fn main(rt: HostRuntime) -> ExitCode {
    play(&rt, &Calls)
}
