//! The limit of the code that no caller meets (docs/REFERENCE.md, "Limits").

/// The greatest tick of a use.
pub(crate) const GREATEST_TICK: u64 = 4_611_686_018_427_387_904;
