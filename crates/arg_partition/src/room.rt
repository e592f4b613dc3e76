//! The room that is left in a command.

ghost use Rattle.std.specs.Prelude.{◌≡◌, ◌+◌, ◌<◌, [], ◌∷◌, false, not, MatchOption, position};
ghost use Rattle.arg_partition.specs.Rooms.{LeavesRoom, Takes, fits_room};

use hook_base::{RepoPath, Text};

/// The room that is left in a command.
#[derive(Clone, Copy)]
pub(crate) struct Room {
    /// The number of bytes left.
    pub(crate) left: usize,
    /// Whether the command has a word already, so that a separating byte comes before the next.
    pub(crate) begun: bool,
}

impl Room {
    /// The room that a command of at most `limit` bytes has after its words, or `None` if these don't fit.
    pub(crate) fn behind(limit: usize, words: &[Text]) -> Option<Room>
        ensures { MatchOption result (fits_room (record { left = limit; begun = false }) words.now ≡ false)
            (λ room. LeavesRoom (record { left = limit; begun = false }) words.now room) }
    {
        let mut room = Room {
            left: limit,
            begun: false,
        };
        'words: for word in words {
            room = room.after(word.as_str())?;
        }
        Some(room)
    }

    /// The room that is left after the word, or `None` if it doesn't fit.
    pub(crate) fn after(self, word: &str) -> Option<Room>
        ensures { Takes self word.now result }
    {
        let left = if self.begun {
            self.left.checked_sub(1)?
        } else {
            self.left
        };
        let left = left.checked_sub(word.len())?;
        Some(Room { left, begun: true })
    }

    // Whether the name alone fits.
    fn fits(self, name: &RepoPath) -> bool
        ensures { result ≡ fits_room self (name.now ∷ []) }
    {
        self.after(name.as_str()).is_some()
    }

    /// The index of the first name that doesn't fit alone.
    pub(crate) fn misfit(self, names: &[RepoPath]) -> Option<usize>
        ensures { result ≡ position (λ name. not (fits_room self (name ∷ []))) names.now }
    {
        names.iter().position(|name| !self.fits(name))
    }
}
