//! What a child is asked.

use hook_base::{Items, Text, Tree};

/// What a child may be asked when its turn comes: the words of its command, and the files that it has seen.
#[derive(Debug, Drop)]
pub struct ChildAsk {
    /// The words of its command, with its names.
    pub words: Items<Text>,
    /// The files of the tree that identify it, together with its words.
    pub seen: Tree,
}
