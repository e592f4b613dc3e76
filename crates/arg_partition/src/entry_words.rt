//! The words of an entry.

ghost use Rattle.std.specs.Prelude.{◌≡◌, ◌⊎◌, ◌++◌, List, ℕ, [], Ok, Err, IfOk, IfErr, MatchResult, string_bytes};
ghost use Rattle.arg_partition.specs.Words.{words_of};
ghost use Rattle.arg_partition.specs.WordsSoFar.{resumed};

use crate::WordsFault;
use crate::reading_state::{ReadingState, ReadsWords};
use crate::step::{Gain, Step, step_of};
use hook_base::{Items, Text};
use std::alloc::{AllocError, Global};
use std::mem;

/// The words of an entry, as Python's `shlex.split` cuts them (POSIX mode, without comments). Blanks (space,
/// tab, carriage return, line feed) separate words. Text in single quotes is kept as it is. So is text in
/// double quotes, but there a backslash escapes `"` and `\`. Outside quotes a backslash keeps the next
/// character as it is. Adjacent pieces join, and `''` alone is an empty word. There are no comments and no
/// variables.
///
/// `NothingEscaped` if the text ends after a backslash that, outside quotes or in double quotes, has nothing
/// to escape. `OpenQuote` if it ends inside quotes otherwise. `OutOfMemory` if memory is refused.
pub fn words(alloc: Global, text: &str) -> Result<Items<Text>, WordsFault>
    ensures cut { IfOk result (λ words. words_of text.now ≡ Ok words) }
    ensures refused { IfErr result (λ fault. (fault ≡ WordsFault.OutOfMemory) ⊎ (words_of text.now ≡ Err fault)) }
{
    let mut begun = Begun::new(alloc);
    let mut place = ReadingState::Between;
    'characters: for c in text.chars() {
        let step = step_of(place, c);
        begun.take(alloc, step)?;
        place = step.place;
    }
    begun.ended(place)
}

// The finished words, and the characters so far of the next one.
#[derive(Drop)]
struct Begun {
    words: Vec<Text>,
    word: String,
}

impl Begun {
    fn new(alloc: Global) -> Begun
        ensures words { result.words.items ≡ [] }
        ensures word { string_bytes result.word ≡ [] }
    {
        Begun {
            words: Vec::new(alloc),
            word: String::new(alloc),
        }
    }

    // Applies what a step yields.
    fn take(&mut self, alloc: Global, step: Step) -> Result<(), AllocError>
        ensures { IfOk result (λ _. (rest : List ℕ) →
            resumed self.new.words.items (string_bytes self.new.word)
            (⟦<ReadingState as ReadsWords>⟧.words step.place rest)
            ≡ resumed self.old.words.items (string_bytes self.old.word) (⟦<Step as ReadsWords>⟧.words step rest)) }
    {
        match step.gain {
            Gain::Nothing => Ok(()),
            Gain::Character(c) => self.word.push(c),
            Gain::BackslashAndCharacter(c) => {
                self.word.push('\\')?;
                self.word.push(c)
            }
            Gain::Word => {
                let word = mem::replace(&mut self.word, String::new(alloc));
                self.words.push(Text::from(word))?;
                Ok(())
            }
        }
    }

    // The words of a text that ends in this state.
    fn ended(self, place: ReadingState) -> Result<Items<Text>, WordsFault>
        ensures { MatchResult result
            (λ words. resumed self.words.items (string_bytes self.word) (⟦<ReadingState as ReadsWords>⟧.words place [])
            ≡ Ok words)
            (λ fault. (fault ≡ WordsFault.OutOfMemory) ⊎ (⟦<ReadingState as ReadsWords>⟧.words place [] ≡ Err fault)) }
    {
        let Begun { mut words, word } = self;
        match place {
            ReadingState::Between => Ok(Items::from(words)),
            ReadingState::Bare => {
                words.push(Text::from(word))?;
                Ok(Items::from(words))
            }
            ReadingState::Single | ReadingState::Double => Err(WordsFault::OpenQuote),
            ReadingState::Escaped | ReadingState::DoubleEscaped => Err(WordsFault::NothingEscaped),
        }
    }
}
