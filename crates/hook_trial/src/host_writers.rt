//! Writers for what commands over a repository print, each with a habit of its own.

use std::alloc::Global;
use std::io;
use std::io::{ErrorKind, Write};
use trial_rows::{Stop, number_of};

// How a writer takes what it is given.
#[derive(Clone, Copy)]
enum Habit {
    All,
    OneByte,
    Interrupted,
    Nothing,
    FailsAfter(usize),
    FailsAtFlush,
    HandsOutFlushed,
}

/// A writer with a habit.
#[derive(Drop)]
pub(crate) struct HabitWriter {
    habit: Habit,
    calls: u32,
    flushes: u32,
    taken: Vec<u8>,
    flushed: usize,
}

impl HabitWriter {
    /// The writer of a habit:
    ///
    /// - `all`, or `one` byte for each call;
    /// - `interrupted` at its first call and every second one after it;
    /// - `nothing`, whose calls take no byte;
    /// - `unflushed`, whose flush gives an error;
    /// - `flushed`, which keeps only what was flushed;
    /// - a number of bytes, after which it gives an error.
    pub(crate) fn of(alloc: Global, word: &[u8]) -> Result<HabitWriter, Stop> {
        Ok(HabitWriter {
            habit: habit_of(word)?,
            calls: 0,
            flushes: 0,
            taken: Vec::new(alloc),
            flushed: 0,
        })
    }

    /// How often it was flushed, if it keeps only what was flushed.
    pub(crate) fn told_flushes(&self) -> Option<u32> {
        match self.habit {
            Habit::HandsOutFlushed => Some(self.flushes),
            _ => None,
        }
    }

    /// What it has taken, or only what was flushed if it keeps no more.
    pub(crate) fn into_bytes(self) -> Vec<u8> {
        let mut bytes = self.taken;
        if let Habit::HandsOutFlushed = self.habit {
            bytes.truncate(self.flushed);
        }
        bytes
    }

    // The most bytes that it takes in this call.
    fn most_bytes(&self) -> io::Result<usize> {
        match self.habit {
            Habit::All | Habit::FailsAtFlush | Habit::HandsOutFlushed => Ok(usize::MAX),
            Habit::OneByte => Ok(1),
            Habit::Interrupted if self.calls % 2 == 1 => {
                Err(io::Error::from(ErrorKind::Interrupted))
            }
            Habit::Interrupted => Ok(2),
            Habit::Nothing => Ok(0),
            Habit::FailsAfter(most) => match most.saturating_sub(self.taken.len()) {
                0 => Err(io::Error::from(ErrorKind::Other)),
                room => Ok(room),
            },
        }
    }
}

fn habit_of(word: &[u8]) -> Result<Habit, Stop> {
    match word {
        b"all" => Ok(Habit::All),
        b"one" => Ok(Habit::OneByte),
        b"interrupted" => Ok(Habit::Interrupted),
        b"nothing" => Ok(Habit::Nothing),
        b"unflushed" => Ok(Habit::FailsAtFlush),
        b"flushed" => Ok(Habit::HandsOutFlushed),
        digits => Ok(Habit::FailsAfter(number_of(digits)? as usize)),
    }
}

impl Write for HabitWriter {
    fn write(&mut self, buf: &[u8]) -> io::Result<usize> {
        self.calls = self.calls.saturating_add(1);
        let count = self.most_bytes()?.min(buf.len());
        self.taken.extend_from_slice(&buf[..count])?;
        Ok(count)
    }

    fn flush(&mut self) -> io::Result<()> {
        if let Habit::FailsAtFlush = self.habit {
            return Err(io::Error::from(ErrorKind::Other));
        }
        self.flushes = self.flushes.saturating_add(1);
        self.flushed = self.taken.len();
        Ok(())
    }
}
