//! The YAML reader: from the bytes of a text to its [`Node`], or the first fault and its line.
//! (docs/REFERENCE.md, "The configuration's text: a profile of YAML".)
//!
//! [`read`] takes this project's profile of YAML 1.2.2: comments, one document, block lists and tables by
//! their indentation, plain and quoted texts, flows and block texts. Its contract cites `specs/Text.antt`,
//! which says what bytes mean. `specs/Blocks.antt` says what their lines mean, and [`laws`] says of that
//! meaning what a user of YAML would expect. A [`YamlFault`] is a [`YamlKind`] and the line of the first
//! fault. [`MOST_NODES`] says how many nodes may be nested.
#![tactic(auto)]

mod blocks;
mod flow;
mod inline;
mod keys;
pub mod laws;
mod parts;
mod text;

pub use text::read;
pub use yaml_lines::{MOST_BYTES, MOST_NODES, Node, YamlFault, YamlKind};
