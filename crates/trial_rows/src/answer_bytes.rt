//! Answers that are put together piece by piece.

use crate::answer::answer_line;
use crate::stop::Stop;
use std::alloc::Global;
use std::fmt::{Debug, Display};

/// The answer to a call, put together piece by piece. If there is no memory for a piece, the answer keeps
/// this, and only the end asks whether all went well: each such question takes longer to check than a
/// piece.
#[derive(Drop)]
pub struct AnswerBytes {
    alloc: Global,
    bytes: Vec<u8>,
    is_refused: bool,
}

impl AnswerBytes {
    /// An answer of no bytes yet.
    pub fn new(alloc: Global) -> AnswerBytes {
        AnswerBytes {
            alloc,
            bytes: Vec::new(alloc),
            is_refused: false,
        }
    }

    /// The allocator of the answer.
    pub fn alloc(&self) -> Global {
        self.alloc
    }

    /// Appends bytes to the answer.
    pub fn add(&mut self, bytes: &[u8]) {
        if self.bytes.extend_from_slice(bytes).is_err() {
            self.is_refused = true;
        }
    }

    /// The answer with these bytes appended.
    pub fn bytes(self, bytes: &[u8]) -> AnswerBytes {
        let mut answer = self;
        answer.add(bytes);
        answer
    }

    /// The answer with a text appended.
    pub fn text(self, text: &str) -> AnswerBytes {
        self.bytes(text.as_bytes())
    }

    /// The answer with these texts appended.
    pub fn texts(self, texts: &[&str]) -> AnswerBytes {
        let mut answer = self;
        answer.add_all(texts);
        answer
    }

    fn add_all(&mut self, texts: &[&str]) {
        for text in texts {
            self.add((*text).as_bytes());
        }
    }

    /// The answer with a value appended, as `Display` shows it.
    pub fn shown(self, value: impl Display + Drop) -> AnswerBytes {
        match value.to_string(self.alloc) {
            Ok(text) => self.text(text.as_str()),
            Err(_) => self.refused(),
        }
    }

    /// The answer with a value appended, as `Debug` shows it.
    pub fn debug(self, value: impl Debug + Drop) -> AnswerBytes {
        match format!(in self.alloc; "{value:?}") {
            Ok(text) => self.text(text.as_str()),
            Err(_) => self.refused(),
        }
    }

    /// The answer, marked: there was no memory for a piece of it.
    pub fn refused(self) -> AnswerBytes {
        let mut answer = self;
        answer.is_refused = true;
        answer
    }

    /// The bytes so far.
    pub fn told(&self) -> &[u8] {
        self.bytes.as_slice()
    }

    /// The line of this answer, without its end. `OutOfMemory` if memory was refused for a piece, or is
    /// refused for the line.
    pub fn line(&self) -> Result<String, Stop> {
        if self.is_refused {
            return Err(Stop::OutOfMemory);
        }
        answer_line(self.alloc, self.bytes.as_slice())
    }
}
