//! A row of a book.

use child_port::Answer;
use hook_base::{Items, Text, Tree};

/// An answer, with the words and the seen files for which it is cached.
#[derive(Debug, Drop)]
pub struct BookRow {
    /// The words of the child's command.
    pub words: Items<Text>,
    /// The files that the child has seen, with their modes and bytes.
    pub seen: Tree,
    /// What the child answered.
    pub answer: Answer,
}

impl BookRow {
    ghost use Rattle.std.specs.Prelude.{◌↔◌, IsTrue};
    ghost use Rattle.result_book.specs.Contents.{HasKey};

    /// Whether the row's key is these words and these seen files.
    pub(crate) fn is_for(&self, words: &[Text], seen: &Tree) -> bool
        ensures { IsTrue result ↔ HasKey words.now seen.now self.now }
    {
        self.words.as_slice() == words && self.seen == *seen
    }
}
