//! The states in which the characters of an entry are read.

ghost use Rattle.std.specs.Prelude.{ℕ, List};
ghost use Rattle.arg_partition.specs.Words.{Reading, bare_escape, double_quoted, double_quoted_escape, single_quoted, words_of_characters};
ghost use Rattle.arg_partition.specs.WordsSoFar.{from_piece, from_word};

/// What contracts say of a state in which a text is read.
pub(crate) trait ReadsWords {
    /// The words that the state makes of the rest of the text. Within a word, the first is what the rest adds
    /// to that word.
    ghost words: { Self → List ℕ → Reading };
}

/// The state in which a character of an entry is read.
#[derive(Clone, Copy)]
pub(crate) enum ReadingState {
    /// After a word or at the start: no word is begun.
    Between,
    /// In a word, outside quotes.
    Bare,
    /// After a backslash outside quotes.
    Escaped,
    /// In single quotes.
    Single,
    /// In double quotes.
    Double,
    /// After a backslash in double quotes.
    DoubleEscaped,
}

impl ReadsWords for ReadingState {
    ghost use Rattle.arg_partition.specs.declared.reading_state.ReadingState.TheVariants.{Between, Bare, Escaped, Single, Double, DoubleEscaped};

    ghost words = { λ place rest. elim place [
      | Between ↦ words_of_characters rest
      | Bare ↦ from_word rest
      | Escaped ↦ from_piece (bare_escape rest)
      | Single ↦ from_piece (single_quoted rest)
      | Double ↦ from_piece (double_quoted rest)
      | DoubleEscaped ↦ from_piece (double_quoted_escape rest)
    ] };
}
