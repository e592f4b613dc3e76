//! Variables of the environment that only change how something is shown.

use std::env;

/// A variable of the environment, empty if it isn't set or can't be read.
pub(crate) fn variable(rt: &HostRuntime, name: &str) -> String {
    match env::var(rt, name) {
        Ok(text) => text,
        Err(_) => String::new(rt.alloc()),
    }
}
