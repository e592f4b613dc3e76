//! The base of the YAML reader: from bytes to characters, from characters to lines, and what one line's
//! content says.
//!
//! [`characters`] decodes the bytes and [`raw_lines`] cuts them at line ends. [`read_lines`] leaves the
//! lines that hold something, each a content line: where its content begins, the content, and the block
//! text that follows it. [`is_item`], [`after_dash`], [`read_entry`], [`scalar`] and [`read_quoted`] read
//! one content. [`after_gap`], [`plain_part`] and [`ends_key`] scan a flow's characters, for the reader of
//! flows too. The meaning of a text is a [`Node`].
//!
//! The contracts cite `specs/Characters.antt`, `specs/Lines.antt`, `specs/FlowLines.antt`,
//! `specs/FlowGaps.antt`, `specs/FlowTexts.antt`, `specs/BlockTexts.antt`, `specs/Entries.antt`,
//! `specs/Scalars.antt`, `specs/Plain.antt` and `specs/Quoted.antt`. `Gives` of `specs/Faults.antt` and its
//! like relate an answer to what a definition says of the text. [`laws`] says of the definitions what a
//! user of YAML would expect.
#![tactic(auto)]

mod block_lines;
mod block_text;
mod content_lines;
mod decode;
mod entries;
mod fault;
mod flow_state;
mod flow_text;
mod gap;
mod header;
mod item;
mod last_value;
pub mod laws;
mod line;
mod line_state;
mod node;
mod plain_text;
mod quoted_text;
mod raw_line;
mod scan;
mod text_scalar;

pub use block_lines::begins_block;
pub use block_text::BlockText;
pub use content_lines::{Lines, read_lines};
pub use decode::{MOST_BYTES, characters};
pub use entries::{Entry, read_entry};
pub use fault::{YamlFault, YamlKind};
pub use flow_state::begins_flow;
pub use flow_text::{ends_key, plain_part};
pub use gap::after_gap;
pub use header::{Chomping, Header};
pub use item::{after_dash, is_item};
pub use line::Line;
pub use node::{MOST_NODES, Node};
pub use plain_text::refusal;
pub use quoted_text::{QuotedText, begins_quoted, read_quoted};
pub use raw_line::{RawLine, raw_lines};
pub use scan::{skip, text_of};
pub use text_scalar::scalar;
