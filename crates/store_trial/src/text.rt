//! Contents as a line shows them: a backslash, a line end and a tab are written `\\`, `\n` and `\t`, and
//! every other byte as it is.

use crate::stop::Stop;
use std::alloc::{AllocError, Global};

/// The bytes that a text means. A text with a backslash before any other byte is refused.
pub(crate) fn read_text(alloc: Global, text: &str) -> Result<Vec<u8>, Stop> {
    let mut bytes = Vec::new(alloc);
    let mut is_escaped = false;
    for byte in text.as_bytes() {
        match (is_escaped, *byte) {
            (false, b'\\') => is_escaped = true,
            (false, plain) => bytes.push(plain)?,
            (true, letter) => {
                bytes.push(escaped_by(letter).ok_or(Stop::BadLine)?)?;
                is_escaped = false;
            }
        }
    }
    if is_escaped {
        return Err(Stop::BadLine);
    }
    Ok(bytes)
}

fn escaped_by(letter: u8) -> Option<u8> {
    match letter {
        b'\\' => Some(b'\\'),
        b'n' => Some(b'\n'),
        b't' => Some(b'\t'),
        _ => None,
    }
}

/// Writes bytes as a text at the end of a line.
pub(crate) fn write_text(line: &mut Vec<u8>, bytes: &[u8]) -> Result<(), AllocError> {
    for byte in bytes {
        match *byte {
            b'\\' => line.extend_from_slice(b"\\\\")?,
            b'\n' => line.extend_from_slice(b"\\n")?,
            b'\t' => line.extend_from_slice(b"\\t")?,
            plain => line.push(plain)?,
        }
    }
    Ok(())
}
