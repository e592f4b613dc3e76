//! The words of a row, taken one after another.

use crate::arguments::{number_of, text_of};
use crate::stop::Stop;
use hook_base::Mode;

/// The words of a row that are still to be read.
#[derive(Drop)]
pub struct Words<'a> {
    /// Those that are left.
    pub left: &'a [Vec<u8>],
}

impl<'a> Words<'a> {
    /// Takes the next word, if any.
    pub fn next(&mut self) -> Option<&'a [u8]> {
        let [word, others @ ..] = self.left else {
            return None;
        };
        self.left = others;
        Some(word.as_slice())
    }

    /// Takes the next word if it is this one, and says whether it is. `BadLine` if the next word isn't
    /// UTF-8.
    pub fn take(&mut self, word: &str) -> Result<bool, Stop> {
        let [next, others @ ..] = self.left else {
            return Ok(false);
        };
        if text_of(next.as_slice())? != word {
            return Ok(false);
        }
        self.left = others;
        Ok(true)
    }

    /// Takes the next word. `BadLine` if there is none.
    pub fn bytes(&mut self) -> Result<&'a [u8], Stop> {
        self.next().ok_or(Stop::BadLine)
    }

    /// Takes the next word, as its text. `BadLine` if there is none, or it isn't UTF-8.
    pub fn text(&mut self) -> Result<&'a str, Stop> {
        text_of(self.bytes()?)
    }

    /// Takes the next word, as its number. `BadLine` if there is none, or it is no number of 32 bits.
    pub fn number(&mut self) -> Result<u32, Stop> {
        number_of(self.bytes()?)
    }
}

/// Takes the next word, and returns the mode that it names, or none for `none`. `BadLine` for any other
/// word, or if there is none.
pub fn mode_of(words: &mut Words<'_>) -> Result<Option<Mode>, Stop> {
    match words.text()? {
        "plain" => Ok(Some(Mode::Plain)),
        "executable" => Ok(Some(Mode::Executable)),
        "none" => Ok(None),
        _ => Err(Stop::BadLine),
    }
}
