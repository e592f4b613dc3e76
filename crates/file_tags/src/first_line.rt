//! The words of a script's first line.
//!
//! The contracts cite `specs/Shebangs.antt`.

ghost use Rattle.std.specs.Prelude.{◌≡◌, ◌++◌, IfOk, OnOk};
ghost use Rattle.std.specs.List.{filter, slice_split, before_first};
ghost use Rattle.std.specs.Option.{option_copied};
ghost use Rattle.file_tags.specs.Cuts.{is_line_feed, is_tab};
ghost use Rattle.file_tags.specs.Shebangs.{is_shebang_word, line_of, shebang_of, without_carriage_return, words_of_shebang};

use hook_base::{Items, OutOfMemory, Text};
use std::alloc::Global;

/// The most bytes that may follow `#!` in the first line of a script, including a carriage return at its
/// end: 1,024.
pub const MOST_SHEBANG_BYTES: usize = 1_024;

/// The words of a script's first line after `#!`, separated by spaces and tabs.
///
/// There are none if the file doesn't begin with `#!`. There are none either if more than
/// [`MOST_SHEBANG_BYTES`], or bytes that aren't UTF-8, follow it in its line. One carriage return at the
/// line's end isn't part of a word. `OutOfMemory` if memory is refused. (After identify 2.5's
/// parse_shebang, which also reads quotes.)
pub fn shebang(alloc: Global, bytes: &[u8]) -> Result<Items<Text>, OutOfMemory>
    ensures { IfOk result (λ words. words ≡ shebang_of bytes.now) }
{
    let [b'#', b'!', rest @ ..] = bytes else {
        return Ok(Items::new(alloc));
    };
    match line_of(first_line(rest)) {
        Some(line) => words_of(alloc, line),
        None => Ok(Items::new(alloc)),
    }
}

fn first_line(bytes: &[u8]) -> &[u8]
    ensures { result.now ≡ before_first is_line_feed bytes.now }
{
    match bytes.iter().position(|byte| *byte == b'\n') {
        Some(end) => &bytes[..end],
        None => bytes,
    }
}

fn line_of(rest: &[u8]) -> Option<&str>
    ensures { option_copied result ≡ line_of rest.now }
{
    if rest.len() > MOST_SHEBANG_BYTES {
        return None;
    }
    match str::from_utf8(rest) {
        Ok(line) => Some(without_carriage_return(line)),
        Err(_) => None,
    }
}

fn without_carriage_return(line: &str) -> &str
    ensures { result.now ≡ without_carriage_return line.now }
{
    match line.strip_suffix('\r') {
        Some(front) => front,
        None => line,
    }
}

fn words_of(alloc: Global, line: &str) -> Result<Items<Text>, OutOfMemory>
    ensures { IfOk result (λ words. words ≡ words_of_shebang line.now) }
{
    let mut words = Vec::new(alloc);
    'parts: for part in line.split(' ') {
        push_words(alloc, &mut words, part)?;
    }
    Ok(Items::from(words))
}

fn push_words(alloc: Global, words: &mut Vec<Text>, part: &str) -> Result<(), OutOfMemory>
    ensures { OnOk result (words.new.items ≡ words.old.items ++ filter is_shebang_word (slice_split is_tab part.now)) }
{
    'words: for word in part.split('\t') {
        if !word.is_empty() {
            words.push(Text::copy_of(alloc, word)?)?;
        }
    }
    Ok(())
}
