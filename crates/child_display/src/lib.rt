//! What is shown on a terminal while a child runs: one line with its command, which is cleared when the child
//! has ended.
//!
//! [`line_of_child`] gives that line, and [`line_of_hook`] gives it if it is known to which hook the child
//! belongs. `ShownChildren` implements the trait `Children` over other children: it shows the line of each
//! while it runs, and answers what they answer. The run says which hook that is. The contracts cite
//! `specs/Lines.antt`.
#![tactic(auto)]

mod columns;
mod line;
mod shown_children;
mod shown_hook;

pub use columns::columns_of;
pub use line::{clearing, line_of_child, line_of_hook};
pub use shown_children::{ShownChildren, Terminal};
pub use shown_hook::ShownHook;
