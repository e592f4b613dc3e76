//! What is in the way of a child.

use std::alloc::{AllocError, Global};
use std::io;

/// What is in the way of a child, with the system's error: the place at which its files can't be laid or read
/// back, or the word that can't be started.
#[derive(Debug, Drop)]
pub struct Obstacle {
    place: Option<String>,
    error: io::Error,
}

impl Obstacle {
    /// The place of the file or folder, or the word. Empty if memory was refused for it.
    pub fn place(&self) -> &str {
        match &self.place {
            Some(place) => place.as_str(),
            None => "",
        }
    }

    /// The error that the system gave there.
    pub fn error(&self) -> &io::Error {
        &self.error
    }

    /// The trouble of an error at this place.
    pub(crate) fn at(alloc: Global, place: &str, error: io::Error) -> Obstacle {
        Obstacle {
            place: String::from_str(alloc, place).ok(),
            error,
        }
    }

    /// The error alone.
    pub(crate) fn into_error(self) -> io::Error {
        let Obstacle { place: _, error } = self;
        error
    }
}

impl From<AllocError> for Obstacle {
    fn from(refusal: AllocError) -> Obstacle {
        Obstacle {
            place: None,
            error: io::Error::from(refusal),
        }
    }
}

/// Turns the error of a result into the trouble at this place.
pub(crate) fn at_place<T>(alloc: Global, place: &str, ended: io::Result<T>) -> Result<T, Obstacle> {
    match ended {
        Ok(value) => Ok(value),
        Err(error) => Err(Obstacle::at(alloc, place, error)),
    }
}
