//! Laws about what the contracts cite. Each is a function without a result: what it ensures is a theorem.

ghost use Rattle.std.specs.Prelude.{◌≡◌, ◌≤◌, ℕ, List, [], ◌∷◌, None, Ok, chars, encode_utf8_all, if◌then◌else◌, map};
ghost use Rattle.std.specs.List.{flat_map};
ghost use Rattle.arg_partition.specs.declared.cut.Cut.{Cut};
ghost use Rattle.arg_partition.specs.Parts.{AreParts, fits, names_of, too_long_at};
ghost use Rattle.arg_partition.specs.Quoted.{all_quoted};
ghost use Rattle.arg_partition.specs.Words.{front_word, is_word_separator, piece, piece_and_rest, word_and_rest, words_of, words_of_characters};

/// A word is its first piece and the rest of the word, up to a blank or the end, however many pieces there
/// are. So the bound in its definition is never too small.
#[tactic(auto, using(crate::specs::WordsLaws::word_end, crate::specs::WordsLaws::word_on))]
pub fn a_word_is_read_piece_by_piece()
    ensures end { front_word [] ≡ Ok ([], []) }
    ensures on { (c : ℕ) (rest : List ℕ) →
        front_word (c ∷ rest) ≡ (if is_word_separator c then Ok ([], c ∷ rest) else piece_and_rest (piece c rest)
        front_word) }
{}

/// The words of a text are its first word and the words of the text after it, without the blanks before it,
/// however many words there are. So the bound in their definition is never too small.
#[tactic(auto, using(crate::specs::WordsLaws::words_end, crate::specs::WordsLaws::words_on))]
pub fn a_text_is_read_word_by_word()
    ensures end { words_of_characters [] ≡ Ok [] }
    ensures on { (c : ℕ) (rest : List ℕ) →
        words_of_characters (c ∷ rest)
        ≡ (if is_word_separator c then words_of_characters rest else word_and_rest (front_word (c ∷ rest))
        words_of_characters) }
{}

/// Words in single quotes, each followed by a blank, are read back as they are, whatever characters they
/// have. So each list of words can be written. The quotes are those of Python's `shlex.quote`, which
/// `shlex.join` uses.
#[tactic(auto, using(crate::specs::WordsLaws::words_of_quoted))]
pub fn quoted_words_are_read_back()
    ensures { (text : List ℕ) (words : List (List ℕ)) → chars text ≡ all_quoted words
        → words_of text ≡ Ok (map encode_utf8_all words) }
{}

/// The parts of a command are determined: only one list of cuts is its parts.
pub fn there_is_one_list_of_parts()
    ensures { (words names : List (List ℕ)) (limit most : ℕ) (cuts others : List Cut)
        → AreParts (fits words limit) most names cuts → AreParts (fits words limit) most names others → cuts ≡ others }
{}

/// If each name fits with the words alone, or without names the words fit, there are parts.
pub fn there_are_parts()
    ensures { (words names : List (List ℕ)) (limit most : ℕ) → 1 ≤ most → too_long_at (fits words limit) names ≡ None
        → (cuts : List Cut) × AreParts (fits words limit) most names cuts }
{}

/// The names of all parts, in order, are all names in their order, each once.
pub fn the_parts_have_all_names()
    ensures { (words names : List (List ℕ)) (limit most : ℕ) (cuts : List Cut)
        → AreParts (fits words limit) most names cuts → flat_map (names_of names) cuts ≡ names }
{}
