//! The program `run_trial`: plays calls on configurations, on reports and on runs of hooks. Each is a line of
//! standard input and is answered by a line, so that tables of cases can be compared with what the libraries
//! answer.
//!
//! The crate `trial_rows` says how a line is written. At a line that isn't a call the program ends with the
//! exit status 2. It uses no library that builds on `hook_run`, so its proof waits for none of them.
//! `hook_trial` plays the calls on these.
#![tactic(auto)]

mod asks;
mod book_plays;
mod book_told;
mod calls;
mod child_runs;
mod config_kinds;
mod config_texts;
mod configurations;
mod fused_book;
mod plans;
mod quiet_children;
mod report_texts;
mod run_times;
mod stages;

use calls::Calls;
use std::process::ExitCode;
use trial_rows::play;

fn main(rt: HostRuntime) -> ExitCode {
    play(&rt, &Calls)
}
