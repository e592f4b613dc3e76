//! What the options of a run make of a configuration.
//!
//! `RunOptions` says how a run is made, and `with_options` makes of a configuration the one that is run. In
//! a cautious run the command of a hook that doesn't say by `x_reads` what it reads sees every file, unless
//! it is that of a known tool, and the files of some known tools are split among several commands. `TOOLS`
//! lists these tools: what kind of words each may be given (`ToolKind`), and what it reads besides the
//! files that it is given, and whether these may be split (`Verdict`). `command_reads` gives the pattern
//! for one command, `can_split` whether its files are split.
//!
//! The contracts cite `with_options` of `specs/Options.antt`, `command_reads` of `specs/Cautious.antt`, the
//! table as `specs/Tools.antt` reads it, `are_harmless` of `specs/Harmless.antt`, and `new_most_names` of
//! `specs/SplitFiles.antt`.
#![tactic(auto)]

mod cautious;
mod harmless;
pub mod laws;
mod options;
mod split_files;
mod tools;

pub use cautious::command_reads;
pub use options::{RunOptions, with_options};
pub use split_files::can_split;
pub use tools::{TOOLS, ToolKind, Verdict};
