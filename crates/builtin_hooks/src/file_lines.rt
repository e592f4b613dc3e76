//! The lines of a file in which a pattern is found.

ghost use Rattle.std.specs.Prelude.{◌≡◌, ◌≢◌, ◌+◌, ◌<◌, ◌≤◌, ◌^◌, ◌++◌, [], ◌∷◌, length, IfSome, OnOk};
ghost use Rattle.builtin_hooks.specs.GrepAnswer.{found_lines_text};
ghost use Rattle.builtin_hooks.specs.Lines.{lines_of, numbered};

use crate::line_feeds::{line_feed_or_end, without_returns_after};
use crate::searcher::Searcher;
use crate::written::{push, push_place};
use hook_base::{OutOfMemory, RepoPath};
use std::alloc::Global;

/// A line in which a pattern is found.
#[derive(Clone, Copy)]
pub struct FoundLine<'a> {
    /// Its number in the file, from 1.
    number: usize,
    /// Its bytes, without its line feed.
    line: &'a [u8],
    /// The bytes after it and its line feed.
    after: &'a [u8],
}

ghost use Rattle.builtin_hooks.specs.Searchers.{IsFirstFound};

/// The first line in which the pattern is found, if the first line of the bytes has this number.
#[tactic(auto, using(crate::proofs::LineLemmas::found_here, crate::proofs::LineLemmas::found_later))]
pub fn first_found_line<'a>(
    searcher: &mut Searcher<'_>,
    first_number: usize,
    bytes: &'a [u8],
) -> Option<FoundLine<'a>>
    requires countable { first_number + length bytes.now < 2 ^ 64 }
    ensures found { IsFirstFound searcher.old first_number bytes.now result }
    ensures within { IfSome result (λ found. found.number + 1 + length found.after.now ≤ first_number + length
        bytes.now) }
    ensures shorter { IfSome result (λ found. length found.after.now < length bytes.now) }
    ensures same { searcher.new ≡ searcher.old }
{
    let mut number = first_number;
    let mut rest = bytes;
    'lines: while !rest.is_empty() {
        let (line, after) = first_line(rest);
        if searcher.finds(line) {
            return Some(FoundLine {
                number,
                line,
                after,
            });
        }
        number += 1;
        rest = after;
    }
    None
}

// The first line without its line feed, and the bytes after that.
#[tactic(auto, using(crate::proofs::FeedLemmas::lines_cut, crate::proofs::FeedLemmas::lines_last))]
fn first_line(bytes: &[u8]) -> (&[u8], &[u8])
    requires { bytes.now ≢ [] }
    ensures lines { lines_of bytes.now ≡ result.0.now ∷ lines_of result.1.now }
    ensures shorter { length result.1.now < length bytes.now }
{
    let end = line_feed_or_end(bytes);
    if end < bytes.len() {
        (&bytes[..end], &bytes[end + 1..])
    } else {
        (bytes, &[])
    }
}

/// Prints the lines in which the pattern is found, each with the file's path and its number.
pub fn push_found_lines(
    alloc: Global,
    output: &mut Vec<u8>,
    searcher: &mut Searcher<'_>,
    path: &RepoPath,
    bytes: &[u8],
) -> Result<(), OutOfMemory>
    ensures text { OnOk result (output.new.items
        ≡ output.old.items ++ found_lines_text searcher.old (numbered path.now 1 (lines_of bytes.now))) }
    ensures same { searcher.new ≡ searcher.old }
{
    let mut next_number = 1;
    let mut rest = bytes;
    'found: while let Some(found) = first_found_line(searcher, next_number, rest) {
        push_place(alloc, output, path, found.number)?;
        push(output, without_returns_after(found.line))?;
        push(output, b"\n")?;
        next_number = found.number + 1;
        rest = found.after;
    }
    Ok(())
}
