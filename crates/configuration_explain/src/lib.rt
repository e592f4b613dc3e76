//! What `explain` says about a configuration: [`explain`] answers an [`Explanation`], which is a text, and
//! whether the configuration is taken.
//!
//! Each fault of a refused configuration is reported: its line, the hook, the key, the value and what is
//! wanted, with the line of the text under it. Faults are looked for in the text's node (`findings.rt`, and
//! `finding.rt` for the fault of `hook_config`). Their places are found among the text's content lines
//! (`marks.rt`), so there is no second reader of YAML here.
//!
//! Of a configuration that is taken it reports the hooks of each stage, which files each gets, and the keys
//! that are ignored. It also names the hooks that never run, or that run more often than one may think, and
//! what may be a mistake (`warnings.rt`).
//!
//! The contract cites `Explains` of `specs/Explains.antt`, and those of the known words cite
//! `specs/KnownWords.antt`. What is printed is only tested.
#![tactic(auto)]

mod accepted_texts;
mod edits;
mod escaped_texts;
mod explained_file;
mod finding;
mod findings;
mod flow_words;
mod git_calls;
mod hook_names;
mod hooks_never_run;
mod ignored;
mod known_words;
mod line_parts;
mod marks;
mod patterns;
mod places;
mod plain_text;
mod refused;
mod repeated_key;
mod selected;
mod sentence;
mod shown_line;
mod stages;
mod tables;
mod tool_settings;
mod warnings;
mod yaml_sentence;

pub use explained_file::{Explanation, explain};
