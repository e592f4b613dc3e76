//! `LazyDisk`: a disk that passes a sync or a cut on only when it has to.

ghost use Rattle.std.specs.Prelude.{◌≡◌, ◌≤◌, ◌+◌, ◌↔◌, ◌&&◌, not, false, length, List, ℕ, None, IsTrue, IsOk, IfErr, IfSome, OnOk};
ghost use Rattle.sqlite_disk.specs.Disk.{CountsFault, Only};
ghost use Rattle.sqlite_disk.specs.Tally.{CountsRefusal};
ghost use Rattle.sqlite_disk.specs.Refusal.{finds_no_room, is_no_room};
ghost use Rattle.lazy_disk.specs.DueCut.{shown_bytes, MayLeaveDue, EndsWithin, shown_len};
ghost use Rattle.lazy_disk.specs.DueCutLemmas.{shown_may_stay};

use sqlite_disk::{Crash, Disk, Tally};
use std::io;

/// A disk that passes each call on to another disk, with three exceptions.
///
/// It passes a sync on only if something may have been written since the last sync that passed. If nothing
/// was, the disk below keeps just what a read returns, and another wait adds nothing: such a sync answers
/// `Ok`.
///
/// It refuses what would make the file longer than it may get, before any of it is passed on
/// ([`LazyDisk::up_to`]).
///
/// It delays a cut of the file. A length that the file is known to have is only noted as due. It is passed on
/// before the next write, a longer length or a sync. Each answer is as if the file were cut already. If
/// nothing more is written or synced, the file below stays longer, which a cut that wasn't synced may leave
/// anyway.
#[derive(Drop)]
pub struct LazyDisk<D: Disk> {
    inner: D,
    // A lower bound on the length of the file below, from the calls that passed here.
    known_len: usize,
    // The length to which the file below is still to be cut.
    cut: Option<usize>,
    // The greatest length that the file may get.
    most_len: usize,
    // How many calls failed here, and not below.
    refused: u64,
    // Whether a sync failed before it reached the disk below.
    is_sync_refused: bool,
    // Whether something may have been written below since the last sync that passed.
    is_dirty: bool,
    ghost known: { known_len ≤ length (D.Disk.seen inner) },
    ghost due: { shown_len cut known_len ≤ known_len },
    ghost synced: { is_dirty ≡ false → Only (D.Disk.seen inner) (D.Disk.may_leave inner) },
    ghost steady: { (a b : D) → D.Disk.is_mixing a ≡ D.Disk.is_mixing b },
}

impl<D: Disk> LazyDisk<D> {
    ghost use Rattle.lazy_disk.specs.LazyDisk.{inner_of, is_dirty, cut_of, uncut_of, most_of, IsFresh};

    /// Wraps a disk of which it isn't known what is synced, so the first sync is passed on. Its torn writes
    /// must mix in all of its states or in none. For a write may bring a cut with it here, and no contract
    /// says that a cut leaves `is_mixing` as it was.
    pub fn new(inner: D) -> Self
        requires { (a b : D) → D.Disk.is_mixing a ≡ D.Disk.is_mixing b }
        ensures inner { inner_of result ≡ inner }
        ensures dirty { IsTrue (is_dirty result) }
        ensures uncut { cut_of result ≡ None }
        ensures fresh { IsFresh result }
    {
        LazyDisk {
            inner,
            known_len: 0,
            cut: None,
            most_len: usize::MAX,
            refused: 0,
            is_sync_refused: false,
            is_dirty: true,
        }
    }

    /// Wraps a disk on which all writes are synced, so a sync is passed on only after the next write. Its
    /// torn writes must mix in all of its states or in none, as for [`LazyDisk::new`].
    pub fn over_synced(inner: D) -> Self
        requires mixing { (a b : D) → D.Disk.is_mixing a ≡ D.Disk.is_mixing b }
        requires synced { Only (D.Disk.seen inner) (D.Disk.may_leave inner) }
        ensures inner { inner_of result ≡ inner }
        ensures clean { is_dirty result ≡ false }
        ensures uncut { cut_of result ≡ None }
        ensures fresh { IsFresh result }
    {
        LazyDisk {
            inner,
            known_len: 0,
            cut: None,
            most_len: usize::MAX,
            refused: 0,
            is_sync_refused: false,
            is_dirty: false,
        }
    }

    /// The same disk, whose file gets no longer than `most_len`: a write past that, or a longer length, is
    /// `ErrorKind::FileTooLarge`. If the process has a limit on the size of its files, such a call would end
    /// it by the signal `SIGXFSZ` (getrlimit(2), "RLIMIT_FSIZE").
    pub fn up_to(self, most_len: usize) -> Self
        ensures inner { inner_of result ≡ inner_of self }
        ensures dirty { is_dirty result ≡ is_dirty self }
        ensures cut { cut_of result ≡ cut_of self }
        ensures uncut { uncut_of result ≡ uncut_of self }
        ensures fresh { IsFresh self → IsFresh result }
        ensures usable { ⟦<LazyDisk<D> as Disk>⟧.is_usable result ≡ ⟦<LazyDisk<D> as Disk>⟧.is_usable self }
        ensures most { most_of result ≡ most_len }
    {
        LazyDisk {
            inner: self.inner,
            known_len: self.known_len,
            cut: self.cut,
            most_len,
            refused: self.refused,
            is_sync_refused: self.is_sync_refused,
            is_dirty: self.is_dirty,
        }
    }

    /// The disk below.
    pub fn inner(&self) -> &D
        ensures { result.now ≡ inner_of self.now }
    {
        &self.inner
    }

    /// How many bytes the file below is known to have while a cut is due, and `None` if none is due. After a
    /// failed cut these are the bytes that the cut leaves.
    pub fn uncut_len(&self) -> Option<usize>
        ensures known { result ≡ uncut_of self.now }
        ensures within { IfSome result (λ n. n ≤ length (D.Disk.seen (inner_of self.now))) }
    {
        match self.cut {
            Some(_) => Some(self.known_len),
            None => None,
        }
    }

    // A lower bound on the length that the file shows, from the calls that passed here.
    fn shown_len(&self) -> usize
        ensures { result ≡ shown_len self.now.cut self.now.known_len }
    {
        self.cut.unwrap_or(self.known_len)
    }

    // Does the cut that is due. If that fails, it stays due, and reads answer as before.
    fn settle(&mut self) -> io::Result<()>
        requires { IsTrue (D.Disk.is_usable self.old.inner) }
        ensures settled { OnOk result ((self.new.cut ≡ None)
            × (self.new.known_len ≡ shown_len self.old.cut self.old.known_len)) }
        ensures refused { self.new.refused ≡ self.old.refused }
        ensures is_sync_refused { self.new.is_sync_refused ≡ self.old.is_sync_refused }
        ensures faults { CountsFault result (D.Disk.faults self.old.inner) (D.Disk.faults self.new.inner) }
        ensures calm { D.Disk.is_clean self.new.inner ≡ D.Disk.is_clean self.old.inner }
        ensures fair { D.Disk.is_fair self.new.inner ≡ D.Disk.is_fair self.old.inner }
        ensures tally { CountsRefusal result (D.Disk.tally_of self.old.inner) (D.Disk.tally_of self.new.inner) }
        ensures key { D.Disk.key_of self.new.inner ≡ D.Disk.key_of self.old.inner }
        ensures usable { IsTrue (D.Disk.is_usable self.new.inner) }
        ensures seen { shown_bytes self.new.cut (D.Disk.seen self.new.inner)
            ≡ shown_bytes self.old.cut (D.Disk.seen self.old.inner) }
        ensures crash { (c : List ℕ) → MayLeaveDue self.new.cut (D.Disk.may_leave self.new.inner) c
            → MayLeaveDue self.old.cut (D.Disk.may_leave self.old.inner) c }
    {
        if let Some(len) = self.cut {
            // Before the call, since a cut that fails may be done in part.
            self.known_len = len;
            self.is_dirty = true;
            self.inner.set_len(len)?;
            self.cut = None;
        }
        Ok(())
    }
}

// A read past the cut fails like one past the end of a file.
fn keep_within(cut: Option<usize>, at: usize, len: usize, refused: &mut u64) -> io::Result<()>
    ensures within { IsOk result ↔ EndsWithin cut (at + len) }
    ensures faults { CountsFault result refused.old refused.new }
{
    if let Some(end) = cut {
        if at > end || len > end - at {
            *refused = refused.saturating_add(1);
            return Err(io::ErrorKind::UnexpectedEof.into());
        }
    }
    Ok(())
}

// A call that would end past the greatest length of the file fails.
fn keep_up_to(most: usize, at: usize, len: usize, refused: &mut u64) -> io::Result<()>
    ensures within { IsOk result ↔ at + len ≤ most }
    ensures kind { IfErr result (λ error. is_no_room error ≡ false) }
    ensures faults { CountsFault result refused.old refused.new }
{
    if at > most || len > most - at {
        *refused = refused.saturating_add(1);
        return Err(io::ErrorKind::FileTooLarge.into());
    }
    Ok(())
}

// Never frozen: each call on a frozen disk fails, but here a delayed cut passes, and so does a sync that
// isn't passed on. No bytes are promised to be damaged, since no contract says that a cut leaves the damage
// as it was.
impl<D: Disk> Disk for LazyDisk<D> {
    ghost seen = { λ f. shown_bytes f.cut (D.Disk.seen f.inner) };

    ghost may_leave = { λ f. MayLeaveDue f.cut (D.Disk.may_leave f.inner) };

    ghost is_usable = { λ f. D.Disk.is_usable f.inner && not f.is_sync_refused };

    ghost faults = { λ f. D.Disk.faults f.inner + f.refused };

    ghost tally_of = { λ f. D.Disk.tally_of f.inner };

    ghost is_clean = { λ f. D.Disk.is_clean f.inner };

    ghost key_of = { λ f. D.Disk.key_of f.inner };

    ghost is_fair = { λ f. D.Disk.is_fair f.inner };

    ghost is_mixing = { λ f. D.Disk.is_mixing f.inner };

    ghost seen_may_stay = { λ f. shown_may_stay f.cut (D.Disk.may_leave f.inner) (D.Disk.seen f.inner) (D.Disk.seen_may_stay f.inner) };

    ghost fair_if_clean = { λ f. D.Disk.fair_if_clean f.inner };

    fn mixes(&self) -> bool {
        self.inner.mixes()
    }

    fn key(&self) -> u64 {
        self.inner.key()
    }

    fn tally(&self) -> Tally {
        self.inner.tally()
    }

    fn may_be_used(&self) -> bool {
        self.inner.may_be_used() && !self.is_sync_refused
    }

    fn len(&mut self) -> io::Result<usize> {
        match self.cut {
            Some(len) => Ok(len),
            None => self.inner.len(),
        }
    }

    fn read_at(&mut self, at: usize, buf: &mut [u8]) -> io::Result<()> {
        keep_within(self.cut, at, buf.len(), &mut self.refused)?;
        self.inner.read_at(at, buf)
    }

    fn read_checked(&mut self, key: u64, want: u64, at: usize, buf: &mut [u8]) -> io::Result<()> {
        keep_within(self.cut, at, buf.len(), &mut self.refused)?;
        self.inner.read_checked(key, want, at, buf)
    }

    fn write_at(&mut self, at: usize, bytes: &[u8]) -> io::Result<()> {
        keep_up_to(self.most_len, at, bytes.len(), &mut self.refused)?;
        self.settle()?;
        // Before the call, since a write that fails may have changed its range.
        self.is_dirty = true;
        self.inner.write_at(at, bytes)?;
        if !bytes.is_empty() {
            self.known_len = self.known_len.max(at.saturating_add(bytes.len()));
        }
        Ok(())
    }

    fn set_len(&mut self, len: usize) -> io::Result<()> {
        if len <= self.shown_len() {
            self.cut = Some(len);
            return Ok(());
        }
        keep_up_to(self.most_len, 0, len, &mut self.refused)?;
        self.settle()?;
        self.is_dirty = true;
        self.inner.set_len(len)?;
        self.known_len = len;
        Ok(())
    }

    fn sync(&mut self) -> io::Result<()> {
        if let Err(error) = self.settle() {
            self.is_sync_refused = true;
            return Err(error);
        }
        if self.is_dirty {
            self.inner.sync()?;
            self.is_dirty = false;
        }
        Ok(())
    }
}

// A crash may leave a file shorter than any length that passed here, and the due cut is lost with the
// machine. The file is synced again before anything relies on it, so the disk counts as written to.
impl<D: Crash> Crash for LazyDisk<D> {
    fn crash(&mut self) {
        self.known_len = 0;
        self.cut = None;
        self.is_sync_refused = false;
        self.is_dirty = true;
        self.inner.crash();
    }
}
