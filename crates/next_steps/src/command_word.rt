//! Names as words of a command that a hint shows.
//!
//! The contracts cite `specs/CommandWords.antt`.

ghost use Rattle.std.specs.Prelude.{◌≡◌};
ghost use Rattle.std.specs.List.{list_all};
ghost use Rattle.next_steps.specs.CommandWords.{begins_word, is_plain, is_shown_word, word_or};

/// The name, if a shell and the command line take it as it is, and otherwise the word that represents it.
pub fn word_or<'w>(name: &'w str, instead: &'w str) -> &'w str
    ensures { result.now ≡ word_or name.entry.now instead.entry.now }
{
    if is_word(name.as_bytes()) {
        name
    } else {
        instead
    }
}

fn is_word(name: &[u8]) -> bool
    ensures { result ≡ is_shown_word name.now }
{
    begins_word(name) && are_plain(name)
}

fn are_plain(bytes: &[u8]) -> bool
    ensures { result ≡ list_all is_plain bytes.now }
{
    bytes.iter().all(|byte| is_plain(*byte))
}

// Whether it isn't taken for an option, and there is something.
fn begins_word(name: &[u8]) -> bool
    ensures { result ≡ begins_word name.now }
{
    match name {
        [] => false,
        [first, ..] => *first != b'-',
    }
}

// Whether a shell takes the byte as it is, anywhere in a word (POSIX.1-2017, XCU section 2.2).
fn is_plain(byte: u8) -> bool
    ensures { result ≡ is_plain byte }
{
    matches!(byte, b'0'..=b'9' | b'A'..=b'Z' | b'a'..=b'z' | b'.' | b'/' | b'_' | b'+' | b'-')
}
