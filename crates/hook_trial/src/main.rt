//! The program `hook_trial`: plays calls on commands over a repository, on command lines, on commits and on
//! runs of `try`. Each call is a line of standard input and is answered by a line, so that tables of cases
//! can be compared with what the libraries answer.
//!
//! The crate `trial_rows` says how a line is written. At a line that isn't a call the program ends with the
//! exit status 2. `run_trial` plays calls on configurations and on runs of hooks alone.
#![tactic(auto)]

mod calls;
mod checks;
mod child_tables;
mod command_lines;
mod command_words;
mod fault_texts;
mod fused_children;
mod host_asks;
mod host_commands;
mod host_counts;
mod host_edits;
mod host_files;
mod host_lines;
mod host_writers;
mod messages;
mod plays;
mod readers;
mod replies;
mod runs;
mod try_faults;
mod turn_children;
mod writers;

use calls::Calls;
use std::process::ExitCode;
use trial_rows::play;

fn main(rt: HostRuntime) -> ExitCode {
    play(&rt, &Calls)
}
