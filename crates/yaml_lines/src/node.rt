//! The meaning of a text, as a value.
//!
//! Contracts see it by `view` of `specs/View.antt`.

/// The most nodes that may be nested: a node lies within at most 32 others. Texts and empty places are
/// nodes too; keys aren't.
pub const MOST_NODES: usize = 33;

/// A node of a YAML text, in this project's profile of YAML 1.2.2. (Section 3.2.1 there.)
#[derive(Debug, Drop)]
pub enum Node {
    /// A plain, quoted or block text. A block text isn't quoted.
    Text { text: String, quoted: bool },
    /// The items of a list, in order.
    List(Vec<Node>),
    /// The keys of a table with their values, in the order of the text. No key occurs twice.
    Table(Vec<(String, Node)>),
    /// A place where a node could be and none is. (YAML 1.2.2, section 7.2.)
    Empty,
}
