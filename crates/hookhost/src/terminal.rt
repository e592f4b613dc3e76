//! The terminal that shows which child is running.

use crate::environment::variable;
use child_display::{Terminal, columns_of};
use std::io::{IsTerminal, Stderr};

/// Standard error, if it is a terminal on which a line can be cleared. How many columns it has is what a
/// shell says in `COLUMNS`, and otherwise 80: the kit's C library has no `ioctl` to ask for it.
pub(crate) fn terminal_of(rt: &HostRuntime) -> Option<Terminal<Stderr>> {
    let writer = rt.stderr();
    if !writer.is_terminal() || variable(rt, "TERM").as_str() == "dumb" {
        return None;
    }
    Some(Terminal {
        alloc: rt.alloc(),
        writer,
        columns: columns_of(variable(rt, "COLUMNS").as_str()),
    })
}
