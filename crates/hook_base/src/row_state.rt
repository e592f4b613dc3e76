//! What became of a base row in one tree.

use crate::SharedFile;

/// What became of a base row in one tree. The other trees that share the base aren't affected.
#[derive(Clone, Debug, Drop)]
pub(crate) enum RowState {
    /// The tree has the row of the base.
    Kept,
    /// The tree has another row of the same path instead.
    Replaced(SharedFile),
    /// It is removed. A row of its path may be among the added rows.
    Gone,
}
