//! Reads the bytes of a configuration.
//!
//! The contracts cite `specs/Reading.antt`.

ghost use Rattle.std.specs.Prelude.{◌≡◌, ◌⊎◌, ◌≤◌, ◌+◌, IfOk, IfErr};
ghost use Rattle.configuration_run.specs.Reading.{ReadsPiece, ReadsToLimit};
ghost use Rattle.configuration_run.specs.TryOver.{ReadsWithin, most_bytes};
ghost use Rattle.configuration_run.specs.declared.try_fault.TryFault.TheVariants as fault;

use crate::TryFault;
use std::alloc::Global;
use std::io::Read;
use yaml_lines::MOST_BYTES;

/// The greatest number of bytes of a configuration, which is that of any text.
pub const MOST_CONFIGURATION_BYTES: usize = MOST_BYTES;

// The greatest number of bytes that the reader is asked for at a time.
const PIECE: usize = 8192;

/// The bytes up to the input's end, which is where a read gives none. From a longer input it reads one byte
/// more than a configuration may have, and no further.
///
/// A refusal is `Read` if the reader gives an error, or `OutOfMemory`.
pub fn read_bytes<R: Read>(alloc: Global, reader: &mut R) -> Result<Vec<u8>, TryFault>
    ensures read { IfOk result (λ bytes. ReadsToLimit (R.remaining reader.old) (R.remaining reader.new) bytes.items) }
    ensures refused { IfErr result (λ e. (e ≡ fault.Read) ⊎ (e ≡ fault.OutOfMemory)) }
    ensures within { ReadsWithin (most_bytes + 1) (R.remaining reader.old) (R.remaining reader.new) }
{
    let mut bytes = Vec::new(alloc);
    while bytes.len() <= MOST_CONFIGURATION_BYTES {
        let room = MOST_CONFIGURATION_BYTES + 1 - bytes.len();
        if read_piece(reader, &mut bytes, room)? == 0 {
            return Ok(bytes);
        }
    }
    Ok(bytes)
}

// Reads once, at most so many bytes, and adds them after the others. The answer is how many were read.
fn read_piece<R: Read>(reader: &mut R, bytes: &mut Vec<u8>, most: usize) -> Result<usize, TryFault>
    requires { 1 ≤ most }
    ensures piece { IfOk result (ReadsPiece (R.remaining reader.old) (R.remaining reader.new) bytes.old.items
        bytes.new.items) }
    ensures refused { IfErr result (λ e. (e ≡ fault.Read) ⊎ (e ≡ fault.OutOfMemory)) }
    ensures within { ReadsWithin most (R.remaining reader.old) (R.remaining reader.new) }
    ensures count { IfOk result (λ count. count ≤ most) }
{
    let mut buffer = [0; PIECE];
    let room = most.min(PIECE);
    let count = match reader.read(&mut buffer[..room]) {
        Ok(count) => count,
        Err(_) => return Err(TryFault::Read),
    };
    bytes.extend_from_slice(&buffer[..count])?;
    Ok(count)
}
