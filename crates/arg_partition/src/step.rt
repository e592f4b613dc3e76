//! The effect of one character of an entry.

ghost use Rattle.std.specs.Prelude.{◌≡◌, ℕ, List, ◌∷◌, [], encode_utf8};
ghost use Rattle.arg_partition.specs.Words.{Reading, before, double_quoted, double_quoted_escape, is_word_separator, piece, single_quoted, words_of_characters};
ghost use Rattle.arg_partition.specs.WordsSoFar.{from_piece, from_word, resumed};

use crate::reading_state::{ReadingState, ReadsWords};

/// What a character adds to the words.
#[derive(Clone, Copy)]
pub(crate) enum Gain {
    /// Nothing.
    Nothing,
    /// The character, which begins or continues a word.
    Character(char),
    /// A backslash and the character, which continue a word.
    BackslashAndCharacter(char),
    /// The end of the word that is begun.
    Word,
}

/// What a character adds to the words, and the state after it.
#[derive(Clone, Copy)]
pub(crate) struct Step {
    pub(crate) gain: Gain,
    pub(crate) place: ReadingState,
}

impl ReadsWords for Step {
    ghost use Rattle.arg_partition.specs.declared.step.Gain.TheVariants.{Nothing, Character, BackslashAndCharacter, Word};

    ghost words = { λ step rest. let behind = ⟦<ReadingState as ReadsWords>⟧.words step.place rest in elim step.gain [
      | Nothing ↦ behind
      | Character c ↦ resumed [] (encode_utf8 c) behind
      | BackslashAndCharacter c ↦ resumed [] (92 ∷ encode_utf8 c) behind
      | Word ↦ before [] behind
    ] };
}

/// The effect of the character in a state.
pub(crate) fn step_of(place: ReadingState, c: char) -> Step
    ensures { (rest : List ℕ) → ⟦<Step as ReadsWords>⟧.words result rest
        ≡ ⟦<ReadingState as ReadsWords>⟧.words place (c ∷ rest) }
{
    match place {
        ReadingState::Between => between(c),
        ReadingState::Bare => bare(c),
        ReadingState::Escaped => adds(c, ReadingState::Bare),
        ReadingState::Single => single(c),
        ReadingState::Double => double(c),
        ReadingState::DoubleEscaped => double_escaped(c),
    }
}

#[tactic(auto, using(crate::proofs::WordLemmas::blank_between, crate::proofs::WordLemmas::word_begins))]
fn between(c: char) -> Step
    ensures { (rest : List ℕ) → ⟦<Step as ReadsWords>⟧.words result rest ≡ words_of_characters (c ∷ rest) }
{
    if is_blank(c) {
        return leads(ReadingState::Between);
    }
    unquoted(c)
}

#[tactic(auto, using(crate::proofs::WordLemmas::word_ends, crate::proofs::WordLemmas::word_goes_on))]
fn bare(c: char) -> Step
    ensures { (rest : List ℕ) → ⟦<Step as ReadsWords>⟧.words result rest ≡ from_word (c ∷ rest) }
{
    if is_blank(c) {
        return Step {
            gain: Gain::Word,
            place: ReadingState::Between,
        };
    }
    unquoted(c)
}

// The effect of a character outside quotes that isn't a blank.
fn unquoted(c: char) -> Step
    ensures { (rest : List ℕ) → ⟦<Step as ReadsWords>⟧.words result rest ≡ from_piece (piece c rest) }
{
    match c {
        '\'' => leads(ReadingState::Single),
        '"' => leads(ReadingState::Double),
        '\\' => leads(ReadingState::Escaped),
        _ => adds(c, ReadingState::Bare),
    }
}

fn single(c: char) -> Step
    ensures { (rest : List ℕ) → ⟦<Step as ReadsWords>⟧.words result rest ≡ from_piece (single_quoted (c ∷ rest)) }
{
    match c {
        '\'' => leads(ReadingState::Bare),
        _ => adds(c, ReadingState::Single),
    }
}

fn double(c: char) -> Step
    ensures { (rest : List ℕ) → ⟦<Step as ReadsWords>⟧.words result rest ≡ from_piece (double_quoted (c ∷ rest)) }
{
    match c {
        '"' => leads(ReadingState::Bare),
        '\\' => leads(ReadingState::DoubleEscaped),
        _ => adds(c, ReadingState::Double),
    }
}

// In double quotes, a backslash before a double quote or a backslash escapes it, and any other stays
// (Python's module `shlex`, "Parsing Rules").
fn double_escaped(c: char) -> Step
    ensures { (rest : List ℕ) → ⟦<Step as ReadsWords>⟧.words result rest
        ≡ from_piece (double_quoted_escape (c ∷ rest)) }
{
    if c == '"' || c == '\\' {
        return adds(c, ReadingState::Double);
    }
    Step {
        gain: Gain::BackslashAndCharacter(c),
        place: ReadingState::Double,
    }
}

// The character is added to the word.
fn adds(c: char, place: ReadingState) -> Step
    ensures gain { result.gain ≡ Gain.Character c }
    ensures place { result.place ≡ place }
{
    Step {
        gain: Gain::Character(c),
        place,
    }
}

// The character only changes the state.
fn leads(place: ReadingState) -> Step
    ensures gain { result.gain ≡ Gain.Nothing }
    ensures place { result.place ≡ place }
{
    Step {
        gain: Gain::Nothing,
        place,
    }
}

// Whether the character is a blank, which separates words: a space, tab, carriage return or line feed.
fn is_blank(c: char) -> bool
    ensures { result ≡ is_word_separator c }
{
    c == ' ' || c == '\t' || c == '\r' || c == '\n'
}
