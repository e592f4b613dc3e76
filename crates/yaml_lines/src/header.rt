//! The header of a block text. (YAML 1.2.2, section 8.1.1.)

/// What becomes of the line feeds at a block text's end. (YAML 1.2.2, section 8.1.1.2.)
#[derive(Clone, Copy, Debug, PartialEq, Eq)]
pub enum Chomping {
    /// `-`: none stays.
    Strip,
    /// No mark: one stays.
    Clip,
    /// `+`: all stay.
    Keep,
}

/// The header of a block text: `|`, or `>` if its lines are folded, and the mark after it.
#[derive(Clone, Copy, Debug, PartialEq, Eq)]
pub struct Header {
    /// Whether the lines are folded.
    pub folded: bool,
    /// What the mark says of the line feeds at the end.
    pub chomping: Chomping,
}
