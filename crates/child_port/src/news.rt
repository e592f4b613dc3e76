//! What a run reports of itself while it goes on.

/// What a run reports to whatever starts its children, while it goes on.
#[derive(Clone, Copy, Debug)]
pub enum News<'a> {
    /// The report continues with these bytes: all that it says of some hooks that have ended.
    Report(&'a [u8]),
    /// The next children are of the hook with this id.
    Hook {
        /// Its place among the hooks of the run, counted from 1.
        place: usize,
        /// How many hooks the run has.
        hooks: usize,
        id: &'a str,
        name: &'a str,
    },
}
