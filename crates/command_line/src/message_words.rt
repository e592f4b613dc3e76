//! The words of a line as `clap` gets them. It reads a value that begins with `-` as an option, unless the
//! value is joined to its option's name.
//!
//! The contracts cite `specs/MessageWords.antt`.

ghost use Rattle.std.specs.Prelude.{◌≡◌, ◌+◌, ◌<◌, ◌∷◌, ◌++◌, [], IfOk, MatchOption, drop, map, string_bytes, take};
ghost use Rattle.command_line.specs.MessageWords.{joined_message, words_for_clap};

use std::alloc::{AllocError, Global};

/// The words of a line around the message of `-m`.
#[derive(Clone, Copy)]
pub(crate) struct AroundMessage<'w, 'a> {
    /// Those before `-m`.
    before: &'w [&'a str],
    /// The message, which is a word of its own.
    message: &'a str,
    /// Those after the message.
    behind: &'w [&'a str],
}

/// The words around the message of the first `-m`, or `None` if it has no message or comes after `--`.
pub(crate) fn around_message<'w, 'a>(words: &'w [&'a str]) -> Option<AroundMessage<'w, 'a>>
    ensures { MatchOption result (words_for_clap (map (λ s. s.now) words.now) ≡ map (λ s. s.now) words.now)
        (λ around. words_for_clap (map (λ s. s.now) words.now)
        ≡ map (λ s. s.now) around.before.now ++ joined_message around.message.now ∷ map (λ s. s.now) around.behind.now) }
{
    'words: for (place, word) in words.iter().enumerate() {
        if *word == "--" {
            return None;
        }
        if *word == "-m" {
            return around_flag(words, place);
        }
    }
    None
}

// The words around the message of the flag at this place, or `None` if the flag is the last word.
fn around_flag<'w, 'a>(words: &'w [&'a str], place: usize) -> Option<AroundMessage<'w, 'a>>
    ensures { MatchOption result (drop (place + 1) (map (λ s. s.now) words.now) ≡ [])
        (λ around. (map (λ s. s.now) around.before.now ≡ take place (map (λ s. s.now) words.now))
        × (drop (place + 1) (map (λ s. s.now) words.now) ≡ around.message.now ∷ map (λ s. s.now) around.behind.now)) }
{
    let (before, others) = words.split_at_checked(place)?;
    match others {
        [_, message, behind @ ..] => Some(AroundMessage {
            before,
            message,
            behind,
        }),
        _ => None,
    }
}

impl<'w, 'a> AroundMessage<'w, 'a> {
    /// `-m` and its message in one word.
    pub(crate) fn joined(&self, alloc: Global) -> Result<String, AllocError>
        ensures { IfOk result (λ joined. string_bytes joined ≡ joined_message self.now.message.now) }
    {
        let mut joined = String::from_str(alloc, "-m=")?;
        joined.push_str(self.message)?;
        Ok(joined)
    }

    /// All words, with `joined` in place of `-m` and its message.
    pub(crate) fn with_joined<'b>(
        &self,
        alloc: Global,
        joined: &'b str,
    ) -> Result<Vec<&'b str>, AllocError>
    where
        'a: 'b,
        ensures { IfOk result (λ words. map (λ s. s.now) words.items
            ≡ map (λ s. s.now) self.now.before.now ++ joined.now ∷ map (λ s. s.now) self.now.behind.now) }
    {
        let mut words = Vec::new(alloc);
        words.extend_from_slice(self.before)?;
        words.push(joined)?;
        words.extend_from_slice(self.behind)?;
        Ok(words)
    }
}
