//! What a plan needs.

/// What the plan of a run needs before it can give its results.
#[derive(Clone, Copy, Debug, PartialEq, Eq)]
pub enum Need {
    /// The outcome of a child.
    Child,
    /// Nothing: the run is over.
    Over,
}
