//! A disk for tests that records the calls which change or read its file.

use sqlite_disk::{Crash, Disk, Tally};
use std::io;

#[derive(Drop)]
pub(crate) struct Noted<D: Disk> {
    pub(crate) inner: D,
    /// A letter for each call, in order: `r` for a read, `l` for the length, `w` for a write, `c` for a new
    /// length, `s` for a sync.
    pub(crate) calls: String,
}

fn note(calls: &mut String, letter: char) {
    // A lost letter is missing in what a test compares.
    let _noted = calls.push(letter);
}

impl<D: Disk> Disk for Noted<D> {
    ghost seen = { λ f. D.Disk.seen f.inner };

    ghost may_leave = { λ f. D.Disk.may_leave f.inner };

    ghost is_usable = { λ f. D.Disk.is_usable f.inner };

    ghost faults = { λ f. D.Disk.faults f.inner };

    ghost tally_of = { λ f. D.Disk.tally_of f.inner };

    ghost is_clean = { λ f. D.Disk.is_clean f.inner };

    ghost key_of = { λ f. D.Disk.key_of f.inner };

    ghost is_fair = { λ f. D.Disk.is_fair f.inner };

    ghost is_rotten = { λ f. D.Disk.is_rotten f.inner };

    ghost is_mixing = { λ f. D.Disk.is_mixing f.inner };

    ghost seen_may_stay = { λ f. D.Disk.seen_may_stay f.inner };

    ghost fair_if_clean = { λ f. D.Disk.fair_if_clean f.inner };

    fn mixes(&self) -> bool {
        self.inner.mixes()
    }

    fn key(&self) -> u64 {
        self.inner.key()
    }

    fn tally(&self) -> Tally {
        self.inner.tally()
    }

    fn may_be_used(&self) -> bool {
        self.inner.may_be_used()
    }

    fn len(&mut self) -> io::Result<usize> {
        note(&mut self.calls, 'l');
        self.inner.len()
    }

    fn read_at(&mut self, at: usize, buf: &mut [u8]) -> io::Result<()> {
        note(&mut self.calls, 'r');
        self.inner.read_at(at, buf)
    }

    fn read_checked(&mut self, key: u64, want: u64, at: usize, buf: &mut [u8]) -> io::Result<()> {
        note(&mut self.calls, 'r');
        self.inner.read_checked(key, want, at, buf)
    }

    fn write_at(&mut self, at: usize, bytes: &[u8]) -> io::Result<()> {
        note(&mut self.calls, 'w');
        self.inner.write_at(at, bytes)
    }

    fn set_len(&mut self, len: usize) -> io::Result<()> {
        note(&mut self.calls, 'c');
        self.inner.set_len(len)
    }

    fn sync(&mut self) -> io::Result<()> {
        note(&mut self.calls, 's');
        self.inner.sync()
    }
}

impl<D: Crash> Crash for Noted<D> {
    fn crash(&mut self) {
        self.inner.crash();
    }
}

/// A disk that reports the calls that it recorded.
pub(crate) trait Notes {
    fn notes(&self) -> &str;
}

impl<D: Disk> Notes for Noted<D> {
    fn notes(&self) -> &str {
        self.calls.as_str()
    }
}
