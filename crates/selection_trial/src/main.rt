//! The program `selection_trial`: plays calls on tags, patterns, selections, the hooks that start no child,
//! an entry's words, the parts of a command and the options of a run. Each is a line of standard input and is
//! answered by a line. `tests/rows/rows.py` and the scripts that compare with other tools drive it. The crate
//! `trial_rows` says how a line is written.
#![tactic(auto)]

mod calls;
mod commands;
mod files;
mod found;
mod greps;
mod kept;
mod options;
mod paths;
mod rules;
mod tags;

use calls::Calls;
use std::process::ExitCode;
use trial_rows::play;

fn main(rt: HostRuntime) -> ExitCode {
    play(&rt, &Calls)
}
