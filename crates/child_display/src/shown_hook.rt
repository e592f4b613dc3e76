//! The hook that a terminal shows.

use hook_base::Text;

/// The hook that a terminal shows while one of its children runs.
#[derive(Debug, Drop)]
pub struct ShownHook {
    /// Its name.
    pub name: Text,
    /// Its place among the hooks of its stage, counted from 1.
    pub place: usize,
    /// How many hooks its stage has.
    pub stage_hooks: usize,
}
