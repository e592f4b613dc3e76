//! The parts of a command, cut greedily like those of pre-commit's `pre_commit.xargs.partition`.

ghost use Rattle.std.specs.Prelude.{◌≡◌, ◌⊎◌, ◌+◌, ◌<◌, ◌≤◌, ℕ, [], ◌∷◌, true, None, Some, IfOk, IfErr, length, not, position, slice_index};
ghost use Rattle.arg_partition.specs.Parts.{AreParts, IsPart, fits, too_long_at};
ghost use Rattle.arg_partition.specs.Rooms.{fits_room};

use crate::room::Room;
use crate::{Cut, PartsFault};
use hook_base::{Items, OutOfMemory, RepoPath, Text};
use std::alloc::Global;

/// The parts of a command whose words are followed by names: each part is the words and the names of one cut.
/// The length of a command is the bytes of its words and names, and one byte between neighbours. A part is at
/// most `limit` bytes long and has at most `most` names. Each takes as many of the next names as it can.
/// Without names there is one part without names.
///
/// `TooLong` if a name doesn't fit with the words alone, with the index of the first such name. Without names
/// it means that the words don't fit, with the index 0. `OutOfMemory` if memory is refused.
pub fn parts(
    alloc: Global,
    words: &[Text],
    names: &[RepoPath],
    limit: usize,
    most: usize,
) -> Result<Items<Cut>, PartsFault>
    requires { 1 ≤ most }
    ensures cut { IfOk result (λ cuts. AreParts (fits words.now limit) most names.now cuts) }
    ensures all_fit { IfOk result (λ _. too_long_at (fits words.now limit) names.now ≡ None) }
    ensures refused { IfErr result (λ fault. (fault ≡ PartsFault.OutOfMemory)
        ⊎ ((index : ℕ) × (fault ≡ PartsFault.TooLong index)
        × (too_long_at (fits words.now limit) names.now ≡ Some index))) }
{
    let Some(room) = Room::behind(limit, words) else {
        return Err(PartsFault::TooLong(0));
    };
    if let Some(index) = room.misfit(names) {
        return Err(PartsFault::TooLong(index));
    }
    let cuts = cuts_of(alloc, room, names, most)?;
    Ok(Items::from(cuts))
}

// The parts of names that each fit into the room alone.
fn cuts_of(
    alloc: Global,
    room: Room,
    names: &[RepoPath],
    most: usize,
) -> Result<Vec<Cut>, OutOfMemory>
    requires most { 1 ≤ most }
    requires all_fit { too_long_at (fits_room room) names.now ≡ None }
    ensures { IfOk result (λ cuts. AreParts (fits_room room) most names.now cuts.items) }
{
    let mut cuts = Vec::new(alloc);
    if names.is_empty() {
        cuts.push(Cut { start: 0, end: 0 })?;
        return Ok(cuts);
    }
    let mut start = 0;
    'parts: while start < names.len() {
        let end = part_end(room, names, start, most);
        cuts.push(Cut { start, end })?;
        start = end;
    }
    Ok(cuts)
}

// The end of the part that begins at `start`.
fn part_end(room: Room, names: &[RepoPath], start: usize, most: usize) -> usize
    requires start { start < length names.now }
    requires most { 1 ≤ most }
    requires all_fit { too_long_at (fits_room room) names.now ≡ None }
    ensures part { IsPart (fits_room room) most names.now (record { start = start; end = result }) }
    ensures forward { start < result }
    ensures within { result ≤ length names.now }
{
    let mut rest = room;
    let mut end = start;
    'names: while end < names.len() && end - start < most {
        let Some(left) = rest.after(names[end].as_str()) else {
            return end;
        };
        rest = left;
        end += 1;
    }
    end
}
