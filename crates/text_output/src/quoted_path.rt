//! Paths within a line, whatever bytes they have.
//!
//! The contracts cite `specs/QuotedPaths.antt`.

ghost use Rattle.std.specs.Prelude.{◌≡◌, ◌∷◌, ◌++◌, [], OnOk, OnErr};
ghost use Rattle.std.specs.List.{flat_map, list_any};
ghost use Rattle.text_output.specs.Outputs.{Has, HasBeginning, output_of};
ghost use Rattle.text_output.specs.QuotedPaths.{escape_of, escaped_byte, plain_or_octal, told_path, wants_quotes};

use crate::{Unwritten, write_out};
use std::io::Write;

/// Writes a path as it is printed within a line. A path with control bytes, double quotes or backslashes is
/// in double quotes, with the escapes of C, as Git writes it (git-config(1), "core.quotePath", if that is
/// `false`). So it never ends the line, and no two paths look the same. An error leaves what an error of
/// `write_pieces` leaves.
pub fn write_path<W: Write>(writer: &mut W, path: &str) -> Result<(), Unwritten>
    ensures ok { OnOk result (Has (output_of (W.contents writer.old) (W.contents writer.new)) (told_path path.now)) }
    ensures err { OnErr result (HasBeginning (output_of (W.contents writer.old) (W.contents writer.new))
        (told_path path.now)) }
{
    if wants_quotes(path.as_bytes()) {
        write_quoted(writer, path.as_bytes())
    } else {
        write_out(writer, path.as_bytes())
    }
}

fn wants_quotes(bytes: &[u8]) -> bool
    ensures { result ≡ list_any wants_quotes bytes.now }
{
    bytes.iter().any(|byte| *byte < 32 || *byte == 127 || *byte == 34 || *byte == 92)
}

fn write_quoted<W: Write>(writer: &mut W, bytes: &[u8]) -> Result<(), Unwritten>
    ensures ok { OnOk result (Has (output_of (W.contents writer.old) (W.contents writer.new))
        (34 ∷ (flat_map escaped_byte bytes.now ++ 34 ∷ []))) }
    ensures err { OnErr result (HasBeginning (output_of (W.contents writer.old) (W.contents writer.new))
        (34 ∷ (flat_map escaped_byte bytes.now ++ 34 ∷ []))) }
{
    write_out(writer, b"\"")?;
    write_behind_quote(writer, bytes)
}

fn write_behind_quote<W: Write>(writer: &mut W, bytes: &[u8]) -> Result<(), Unwritten>
    ensures ok { OnOk result (Has (output_of (W.contents writer.old) (W.contents writer.new))
        (flat_map escaped_byte bytes.now ++ 34 ∷ [])) }
    ensures err { OnErr result (HasBeginning (output_of (W.contents writer.old) (W.contents writer.new))
        (flat_map escaped_byte bytes.now ++ 34 ∷ [])) }
{
    write_escaped(writer, bytes)?;
    write_out(writer, b"\"")
}

fn write_escaped<W: Write>(writer: &mut W, bytes: &[u8]) -> Result<(), Unwritten>
    ensures ok { OnOk result (Has (output_of (W.contents writer.old) (W.contents writer.new))
        (flat_map escaped_byte bytes.now)) }
    ensures err { OnErr result (HasBeginning (output_of (W.contents writer.old) (W.contents writer.new))
        (flat_map escaped_byte bytes.now)) }
{
    'bytes: for byte in bytes {
        write_byte(writer, *byte)?;
    }
    Ok(())
}

fn write_byte<W: Write>(writer: &mut W, byte: u8) -> Result<(), Unwritten>
    ensures ok { OnOk result (Has (output_of (W.contents writer.old) (W.contents writer.new)) (escaped_byte byte)) }
    ensures err { OnErr result (HasBeginning (output_of (W.contents writer.old) (W.contents writer.new))
        (escaped_byte byte)) }
{
    match escape_of(byte) {
        Some(escape) => write_out(writer, &[b'\\', escape]),
        None => write_plain_or_octal(writer, byte),
    }
}

fn write_plain_or_octal<W: Write>(writer: &mut W, byte: u8) -> Result<(), Unwritten>
    ensures ok { OnOk result (Has (output_of (W.contents writer.old) (W.contents writer.new)) (plain_or_octal byte)) }
    ensures err { OnErr result (HasBeginning (output_of (W.contents writer.old) (W.contents writer.new))
        (plain_or_octal byte)) }
{
    if byte < 32 || byte == 127 {
        let (first, second, third) = (byte / 64, byte / 8 % 8, byte % 8);
        write_out(writer, &[b'\\', b'0' + first, b'0' + second, b'0' + third])
    } else {
        write_out(writer, &[byte])
    }
}

// The byte that follows a backslash for this one, if it has such an escape.
fn escape_of(byte: u8) -> Option<u8>
    ensures { result ≡ escape_of byte }
{
    match byte {
        7 => Some(b'a'),
        8 => Some(b'b'),
        9 => Some(b't'),
        10 => Some(b'n'),
        11 => Some(b'v'),
        12 => Some(b'f'),
        13 => Some(b'r'),
        34 => Some(34),
        92 => Some(92),
        _ => None,
    }
}
