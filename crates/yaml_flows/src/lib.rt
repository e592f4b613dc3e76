//! The flows of a YAML text: lists in brackets and tables in braces, in this project's profile of YAML
//! 1.2.2. (docs/REFERENCE.md, "The configuration's text: a profile of YAML".)
//!
//! [`read_flow`] reads the lines of one flow, joined by line feeds, as a [`Node`](yaml_lines::Node). If
//! they can't be read, a [`FlowFault`] says why, and where.
//!
//! Its contract cites `specs/Flows.antt`, which says what the characters mean; `specs/Keys.antt` has a
//! table's keys. The gaps between the tokens of a flow, and its texts, are in `FlowGaps.antt` and
//! `FlowTexts.antt` of `yaml_lines`. By them the reader of lines finds which lines belong to a flow.
//! `Gives` of `specs/Faults.antt` relates the answer to that meaning, and [`laws`] says that both readers
//! agree.
#![tactic(auto)]

mod ending;
mod entries;
mod fault;
mod flows;
mod found;
pub mod laws;
mod seen_keys;
mod texts;

pub use fault::{FaultPlace, FlowFault};
pub use flows::read_flow;
