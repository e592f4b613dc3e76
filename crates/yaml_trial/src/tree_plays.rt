//! Random calls on trees and on plain ones next to them.

use crate::tree_pair::TreePair;
use hook_base::{Change, Content, FileEntry, Mode, RepoPath};
use std::alloc::Global;
use std::mem;
use trial_rows::{AnswerBytes, Stop, number_of};

const PATHS: u64 = 48;

const CONTENTS: u64 = 5;

const MOST_CHANGES: u64 = 8;

/// Plays as many calls as the second word says. The first word is the seed that chooses them. Shows how
/// many were alike.
pub(crate) fn answer(alloc: Global, seed: &[u8], calls: &[u8]) -> Result<AnswerBytes, Stop> {
    let calls = number_of(calls)?;
    let mut play = Play::new(alloc, number_of(seed)? as u64);
    for call in 0..calls {
        if !play.step()? {
            return Ok(AnswerBytes::new(alloc).text("differs at call ").shown(call));
        }
    }
    Ok(AnswerBytes::new(alloc).shown(calls).text(" alike"))
}

// The calls are made on `one`. Now and then `other` and `third` change places with it, so copies of copies
// occur, and so do trees that share nothing.
#[derive(Drop)]
struct Play {
    alloc: Global,
    state: u64,
    one: TreePair,
    other: TreePair,
    third: TreePair,
}

impl Play {
    fn new(alloc: Global, seed: u64) -> Play {
        Play {
            alloc,
            state: seed,
            one: TreePair::new(alloc),
            other: TreePair::new(alloc),
            third: TreePair::new(alloc),
        }
    }

    /// Makes one call, and returns whether both trees are alike in their answers and then in their files.
    fn step(&mut self) -> Result<bool, Stop> {
        let is_alike = match self.below(16) {
            0..4 => self.put()?,
            4 => self.remove()?,
            5 => self.get()?,
            6 => self.turn(),
            7 => self.copy()?,
            8 => self.take()?,
            9 => self.share()?,
            _ => self.change()?,
        };
        Ok(is_alike && self.one.is_same())
    }

    fn change(&mut self) -> Result<bool, Stop> {
        match self.below(6) {
            0..2 => self.apply(),
            2..4 => self.absorb(),
            _ => self.compare(),
        }
    }

    /// A number below the bound, by a linear congruential generator with Knuth's multiplier for 64 bits.
    fn below(&mut self, bound: u64) -> u64 {
        let next = self.state.wrapping_mul(6_364_136_223_846_793_005);
        self.state = next.wrapping_add(1_442_695_040_888_963_407);
        if bound == 0 {
            return 0;
        }
        (self.state >> 33) % bound
    }

    fn path(&mut self) -> Result<RepoPath, Stop> {
        let number = self.below(PATHS);
        let text = format!(in self.alloc; "{}/{number}", number % 7)?;
        Ok(RepoPath::read(self.alloc, text.as_str())?)
    }

    fn content(&mut self) -> Result<Content, Stop> {
        let text = format!(in self.alloc; "{}", self.below(CONTENTS))?;
        Ok(Content::copy_of(self.alloc, text.as_bytes())?)
    }

    fn changes(&mut self) -> Result<Vec<Change>, Stop> {
        let mut changes = Vec::new(self.alloc);
        for _number in 0..self.below(MOST_CHANGES) {
            let path = self.path()?;
            let now = if self.below(2) == 0 {
                None
            } else {
                Some(self.content()?)
            };
            changes.push(Change { path, now })?;
        }
        Ok(changes)
    }

    fn put(&mut self) -> Result<bool, Stop> {
        let path = self.path()?;
        let bytes = self.content()?;
        let mode = if self.below(2) == 0 {
            Mode::Plain
        } else {
            Mode::Executable
        };
        Ok(self.one.put(path, FileEntry { mode, bytes })?)
    }

    fn remove(&mut self) -> Result<bool, Stop> {
        let path = self.path()?;
        Ok(self.one.remove(&path))
    }

    fn get(&mut self) -> Result<bool, Stop> {
        let path = self.path()?;
        Ok(self.one.get(&path))
    }

    /// The trees change places, and now and then one starts empty again.
    fn turn(&mut self) -> bool {
        if self.below(8) == 0 {
            self.third = TreePair::new(self.alloc);
        }
        mem::swap(&mut self.other, &mut self.third);
        mem::swap(&mut self.one, &mut self.other);
        true
    }

    fn copy(&mut self) -> Result<bool, Stop> {
        self.other = self.one.copy()?;
        Ok(self.other.is_same())
    }

    fn take(&mut self) -> Result<bool, Stop> {
        let path = self.path()?;
        Ok(self.one.put_from(&self.other, &path)?)
    }

    fn share(&mut self) -> Result<bool, Stop> {
        let count = self.other.len() as u64;
        let index = self.below(count);
        Ok(self.one.share(&self.other, index as usize)?)
    }

    fn apply(&mut self) -> Result<bool, Stop> {
        let changes = self.changes()?;
        Ok(self.one.apply(changes.as_slice())?)
    }

    fn absorb(&mut self) -> Result<bool, Stop> {
        let changes = self.changes()?;
        Ok(self.one.absorb(changes)?)
    }

    fn compare(&mut self) -> Result<bool, Stop> {
        Ok(self.one.changes_to(&self.other)?)
    }
}
