//! Readers of configurations.

use std::io;
use std::io::{ErrorKind, Read};

/// A reader that gives a few bytes in each call, and an error in one of them.
#[derive(Drop)]
pub(crate) struct Pieces<'a> {
    pub(crate) left: &'a [u8],
    calls: u32,
    fails_at: u32,
}

impl<'a> Pieces<'a> {
    pub(crate) fn new(bytes: &'a [u8]) -> Self {
        Pieces::failing(bytes, u32::MAX)
    }

    pub(crate) fn failing(bytes: &'a [u8], fails_at: u32) -> Self {
        Pieces {
            left: bytes,
            calls: 0,
            fails_at,
        }
    }
}

impl Read for Pieces<'_> {
    fn read(&mut self, buf: &mut [u8]) -> io::Result<usize> {
        self.calls = self.calls.saturating_add(1);
        if self.calls == self.fails_at {
            return Err(io::Error::from(ErrorKind::Other));
        }
        let count = self.left.len().min(buf.len()).min(7000);
        buf[..count].copy_from_slice(&self.left[..count]);
        self.left = &self.left[count..];
        Ok(count)
    }
}

/// A reader that gives one of its texts in each call, also an empty one.
#[derive(Drop)]
pub(crate) struct Texts<'a> {
    left: &'a [Vec<u8>],
    pub(crate) calls: u32,
}

impl<'a> Texts<'a> {
    pub(crate) fn new(texts: &'a [Vec<u8>]) -> Self {
        Texts {
            left: texts,
            calls: 0,
        }
    }
}

impl Read for Texts<'_> {
    fn read(&mut self, buf: &mut [u8]) -> io::Result<usize> {
        self.calls = self.calls.saturating_add(1);
        let [text, others @ ..] = self.left else {
            return Ok(0);
        };
        let count = text.len().min(buf.len());
        buf[..count].copy_from_slice(&text.as_slice()[..count]);
        self.left = others;
        Ok(count)
    }
}
