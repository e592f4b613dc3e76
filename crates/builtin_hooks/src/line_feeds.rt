//! MatchedLine feeds and carriage returns in bytes.

ghost use Rattle.std.specs.Prelude.{◌≡◌, ◌≤◌, length};
ghost use Rattle.std.specs.List.{position_or_len};
ghost use Rattle.builtin_hooks.specs.Lines.{is_line_end, from_line_feed, without_returns_after};

use bstr::ByteSlice;

/// The index of the first line feed, or the number of bytes if there is none.
#[tactic(auto, using(crate::proofs::FeedLemmas::feed_found, crate::proofs::FeedLemmas::feed_none))]
pub fn line_feed_or_end(bytes: &[u8]) -> usize
    ensures place { result ≡ position_or_len is_line_end bytes.now }
    ensures within { result ≤ length bytes.now }
{
    match bytes.find_byte(b'\n') {
        Some(place) => place,
        None => bytes.len(),
    }
}

/// The bytes from their first line feed on, or none if there is none.
pub fn from_line_feed(bytes: &[u8]) -> &[u8]
    ensures { result.now ≡ from_line_feed bytes.now }
{
    &bytes[line_feed_or_end(bytes)..]
}

/// The bytes without the carriage returns at their end.
#[tactic(auto, using(crate::proofs::TrimLemmas::last_is_return, crate::proofs::TrimLemmas::last_is_other))]
pub fn without_returns_after(bytes: &[u8]) -> &[u8]
    ensures { result.now ≡ without_returns_after bytes.now }
{
    let mut rest = bytes;
    'returns: while let [others @ .., last] = rest {
        if *last != b'\r' {
            break;
        }
        rest = others;
    }
    rest
}
