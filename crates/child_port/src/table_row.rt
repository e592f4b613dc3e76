//! A row of a table of answers.

use crate::Answer;
use hook_base::{Items, Text, Tree};

/// What a child of these words answers if it has seen these files.
#[derive(Debug, Drop)]
pub struct TableRow {
    /// The words of its command.
    pub words: Items<Text>,
    /// The files that it has seen.
    pub seen: Tree,
    /// What it answers.
    pub answer: Answer,
}

impl TableRow {
    ghost use Rattle.std.specs.Prelude.{◌↔◌, IsTrue};
    ghost use Rattle.child_port.specs.Tables.{IsRowFor};

    /// Whether the row is for these words and these seen files.
    pub(crate) fn is_for(&self, words: &[Text], seen: &Tree) -> bool
        ensures { IsTrue result ↔ IsRowFor words.now seen.now self.now }
    {
        self.words.as_slice() == words && self.seen == *seen
    }
}
