//! From bytes to characters. (YAML 1.2.2, section 5.2.)
//!
//! The contracts cite `specs/Characters.antt` and `specs/Faults.antt`.

ghost use Rattle.std.specs.Prelude.{◌≡◌, ◌⊎◌, ◌≤◌, IfOk, IfErr, Some, length, take, vec_len, chars};
ghost use Rattle.yaml_lines.specs.Characters.{characters_of, most_bytes, without_mark};
ghost use Rattle.yaml_lines.specs.Faults.{Gives, TellsTooLarge, fault_of_bytes, line_behind, want_of_memory};

use crate::{YamlFault, YamlKind};
use std::alloc::{AllocError, Global};

/// The most bytes that a text may have, a byte order mark included.
pub const MOST_BYTES: usize = 1_048_576;

// The bytes before the one at `at`.
fn before(bytes: &[u8], at: usize) -> &[u8]
    requires { at ≤ length bytes.now }
    ensures { result.now ≡ take at bytes.now }
{
    &bytes[..at]
}

// The line of a byte that follows these bytes.
fn line_behind(bytes: &[u8]) -> usize
    requires { length bytes.now ≤ most_bytes }
    ensures { result ≡ line_behind bytes.now }
{
    let mut line = 1;
    for byte in bytes {
        if *byte == b'\n' {
            line += 1;
        }
    }
    line
}

// The characters that the bytes are, each a character of its own.
fn each_a_character(alloc: Global, bytes: &[u8]) -> Result<Vec<char>, AllocError>
    ensures { IfOk result (λ all. all.items ≡ bytes.now) }
{
    bytes.iter().map(|byte| char::from(*byte)).collect(alloc)
}

// All characters of the text. Those of an ASCII text are its bytes, which is the quick way for most texts.
fn all_characters(alloc: Global, text: &str) -> Result<Vec<char>, AllocError>
    ensures value { IfOk result (λ all. all.items ≡ chars text.now) }
    ensures few { IfOk result (λ all. vec_len all ≤ length text.now) }
{
    if text.is_ascii() {
        return each_a_character(alloc, text.as_bytes());
    }
    text.chars().collect(alloc)
}

// The characters without a byte order mark at the start.
fn without_mark(mut all: Vec<char>) -> Vec<char>
    ensures value { result.items ≡ without_mark all.items }
    ensures few { vec_len result ≤ vec_len all }
{
    if all.first() == Some(&'\u{feff}') {
        all.remove(0);
    }
    all
}

/// The characters of the bytes, without a byte order mark at the start.
///
/// More bytes than [`MOST_BYTES`], and nothing else, are `TooLarge` in line 1. Other bytes that aren't
/// UTF-8 are `NotUtf8` in the line of the first byte that belongs to no character. `OutOfMemory`, in line
/// 0, is possible for any bytes.
pub fn characters(alloc: Global, bytes: &[u8]) -> Result<Vec<char>, YamlFault>
    ensures meant { Gives (λ v. v.items) result (characters_of bytes.now) }
    ensures few { IfOk result (λ v. vec_len v ≤ most_bytes) }
    ensures within { IfOk result (λ _. length bytes.now ≤ most_bytes) }
    ensures refused { IfErr result (λ fault. (fault ≡ want_of_memory) ⊎ (fault_of_bytes bytes.now ≡ Some fault)) }
    ensures large { IfErr result (TellsTooLarge bytes.now) }
{
    if bytes.len() > MOST_BYTES {
        return Err(YamlFault {
            kind: YamlKind::TooLarge,
            line: 1,
        });
    }
    let text = match str::from_utf8(bytes) {
        Ok(text) => text,
        Err(error) => {
            return Err(YamlFault {
                kind: YamlKind::NotUtf8,
                line: line_behind(before(bytes, error.valid_up_to())),
            });
        }
    };
    Ok(without_mark(all_characters(alloc, text)?))
}
