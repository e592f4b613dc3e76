//! Writers of reports.

use std::alloc::Global;
use std::io;
use std::io::{ErrorKind, Write};

/// A writer that takes a few bytes in each call, and gives an error in one of them.
#[derive(Drop)]
pub(crate) struct Kept {
    pub(crate) bytes: Vec<u8>,
    pub(crate) calls: u32,
    fails_at: u32,
}

impl Kept {
    pub(crate) fn new(alloc: Global) -> Self {
        Kept::failing(alloc, u32::MAX)
    }

    pub(crate) fn failing(alloc: Global, fails_at: u32) -> Self {
        Kept {
            bytes: Vec::new(alloc),
            calls: 0,
            fails_at,
        }
    }

    fn count(&mut self) -> io::Result<()> {
        self.calls = self.calls.saturating_add(1);
        if self.calls == self.fails_at {
            return Err(io::Error::from(ErrorKind::Other));
        }
        Ok(())
    }
}

impl Write for Kept {
    fn write(&mut self, buf: &[u8]) -> io::Result<usize> {
        self.count()?;
        let count = buf.len().min(40);
        self.bytes.extend_from_slice(&buf[..count])?;
        Ok(count)
    }

    fn flush(&mut self) -> io::Result<()> {
        self.count()
    }
}

/// A writer that keeps only what was flushed.
#[derive(Drop)]
pub(crate) struct Flushed {
    held: Vec<u8>,
    pub(crate) out: Vec<u8>,
}

impl Flushed {
    pub(crate) fn new(alloc: Global) -> Self {
        Flushed {
            held: Vec::new(alloc),
            out: Vec::new(alloc),
        }
    }
}

impl Write for Flushed {
    fn write(&mut self, buf: &[u8]) -> io::Result<usize> {
        self.held.extend_from_slice(buf)?;
        Ok(buf.len())
    }

    fn flush(&mut self) -> io::Result<()> {
        self.out.extend_from_slice(self.held.as_slice())?;
        self.held.clear();
        Ok(())
    }
}
