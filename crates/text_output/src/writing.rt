//! Texts that are written to a writer.
//!
//! The contracts cite `specs/Outputs.antt`.

ghost use Rattle.std.specs.Prelude.{◌≤◌, IfOk, OnOk, OnErr, length, map, take};
ghost use Rattle.std.specs.List.{concat};
ghost use Rattle.text_output.specs.Outputs.{Has, HasBeginning, IsSilent, output_of};

use std::io::{ErrorKind, Write};

/// A writer gave an error. What it had taken before is out.
#[derive(Clone, Copy, Debug)]
pub struct Unwritten;

/// Writes a text, piece by piece, and flushes the writer. After an error a beginning of the text is out; it
/// may be all of it, if only the flush gave the error.
pub fn write_pieces<'a, W: Write>(writer: &mut W, pieces: &'a [&'a str]) -> Result<(), Unwritten>
    ensures ok { OnOk result (Has (output_of (W.contents writer.old) (W.contents writer.new))
        (concat (map (λ s. s.now) pieces.entry.now))) }
    ensures err { OnErr result (HasBeginning (output_of (W.contents writer.old) (W.contents writer.new))
        (concat (map (λ s. s.now) pieces.entry.now))) }
{
    'pieces: for piece in pieces {
        write_piece(writer, piece.as_bytes())?;
    }
    flush(writer)
}

/// Writes a text and flushes the writer. An error leaves what an error of `write_pieces` leaves.
pub fn write_out<W: Write>(writer: &mut W, text: &[u8]) -> Result<(), Unwritten>
    ensures ok { OnOk result (Has (output_of (W.contents writer.old) (W.contents writer.new)) text.now) }
    ensures err { OnErr result (HasBeginning (output_of (W.contents writer.old) (W.contents writer.new)) text.now) }
{
    write_piece(writer, text)?;
    flush(writer)
}

// Writes a text as `write_all` does. The contract of that one doesn't say what an error leaves; here it is a
// beginning of the text.
fn write_piece<W: Write>(writer: &mut W, text: &[u8]) -> Result<(), Unwritten>
    ensures ok { OnOk result (Has (output_of (W.contents writer.old) (W.contents writer.new)) text.now) }
    ensures err { OnErr result (HasBeginning (output_of (W.contents writer.old) (W.contents writer.new)) text.now) }
{
    let mut written = 0;
    'tries: for _ in 0..u64::MAX {
        if written == text.len() {
            return Ok(());
        }
        written += write_some(writer, &text[written..])?;
    }
    Err(Unwritten)
}

// Writes once, and answers how many bytes the writer took: 0 if the call was interrupted.
fn write_some<W: Write>(writer: &mut W, text: &[u8]) -> Result<usize, Unwritten>
    ensures count { IfOk result (λ count. count ≤ length text.now) }
    ensures ok { IfOk result (λ count. Has (output_of (W.contents writer.old) (W.contents writer.new))
        (take count text.now)) }
    ensures err { OnErr result (IsSilent (output_of (W.contents writer.old) (W.contents writer.new))) }
{
    match writer.write(text) {
        Ok(0) => Err(Unwritten),
        Ok(count) => Ok(count),
        Err(error) if error.kind() == ErrorKind::Interrupted => Ok(0),
        Err(_) => Err(Unwritten),
    }
}

fn flush<W: Write>(writer: &mut W) -> Result<(), Unwritten>
    ensures { IsSilent (output_of (W.contents writer.old) (W.contents writer.new)) }
{
    writer.flush().map_err(|_| Unwritten)
}
