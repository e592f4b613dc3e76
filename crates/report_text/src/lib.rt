//! What a run reports of its hooks, as bytes (docs/REFERENCE.md, "The report"): `hook_text` of one hook,
//! `hook_texts` of all, and `columns`, the width of their lines.
//!
//! A `HookResult` has the `Ending` of a hook, with a `LineFault` for each failed part.
//!
//! `push` and `push_line` add bytes and lines to the end of a text, for callers that print lines of their
//! own. A refusal of memory leaves that text as it was.
//!
//! The contracts cite `columns_of`, `width_of`, `hook_text`, `is_failed` and `line` of `specs/Report.antt`,
//! and the limit of `specs/Limits.antt`. `report_text` in `specs/Report.antt`, the texts of all hooks at the
//! width for all names, is for callers.
#![tactic(auto)]

mod first_line;
mod hook_result;
pub mod laws;
mod limits;
mod lines;
mod report;
mod trim;

pub use hook_result::{Ending, HookResult, LineFault};
pub use limits::MOST_NAME_BYTES;
pub use lines::{push, push_line};
pub use report::{columns, hook_text, hook_texts};
