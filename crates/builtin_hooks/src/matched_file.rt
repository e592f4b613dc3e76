//! The first match in a whole file.

ghost use Rattle.std.specs.Prelude.{◌≡◌, ◌+◌, ◌≤◌, ◌++◌, [], length, slice_index_or, OnOk};
ghost use Rattle.builtin_hooks.specs.GrepAnswer.{match_text};
ghost use Rattle.builtin_hooks.specs.Lines.{line_feeds_before, pieces_of};
ghost use Rattle.builtin_hooks.specs.Search.{first_match};

use crate::line_feeds::{from_line_feed, line_feed_or_end};
use crate::searcher::Searcher;
use crate::written::{push, push_place};
use hook_base::{OutOfMemory, RepoPath};
use std::alloc::Global;

/// A line of a file.
#[derive(Clone, Copy)]
struct MatchedLine<'a> {
    /// Its number, from 1.
    number: usize,
    /// Its bytes, without its line feed.
    line: &'a [u8],
}

/// Prints the file's path, the line's number, the line in which the first match begins, and the match from
/// its first line feed on. Nothing if there is no match.
pub fn push_first_match(
    alloc: Global,
    output: &mut Vec<u8>,
    searcher: &mut Searcher<'_>,
    path: &RepoPath,
    bytes: &[u8],
) -> Result<(), OutOfMemory>
    ensures text { OnOk result (output.new.items
        ≡ output.old.items ++ match_text path.now bytes.now (first_match searcher.old bytes.now)) }
    ensures same { searcher.new ≡ searcher.old }
{
    if let Some(found) = searcher.first_match(bytes) {
        let MatchedLine { number, line } = line_at(bytes, found.start());
        push_place(alloc, output, path, number)?;
        push(output, line)?;
        push(output, from_line_feed(found.as_bytes()))?;
        push(output, b"\n")?;
    }
    Ok(())
}

// The line that an index is in: a line feed is in the line that it ends.
#[tactic(auto, using(crate::proofs::PlaceLemmas::same_start))]
fn line_at(bytes: &[u8], index: usize) -> MatchedLine<'_>
    requires { index ≤ length bytes.now }
    ensures number { result.number ≡ line_feeds_before index bytes.now + 1 }
    ensures line { result.line.now ≡ slice_index_or (pieces_of bytes.now) (line_feeds_before index bytes.now) [] }
{
    let mut number = 1;
    let mut rest = bytes;
    let mut place = index;
    'lines: loop {
        let end = line_feed_or_end(rest);
        if place <= end {
            return MatchedLine {
                number,
                line: &rest[..end],
            };
        }
        rest = &rest[end + 1..];
        place -= end + 1;
        number += 1;
    }
}
