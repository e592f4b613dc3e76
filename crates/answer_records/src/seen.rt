//! The record of the files that a child saw.

ghost use Rattle.std.specs.Prelude.{◌≡◌, ◌∷◌, ◌++◌, IfOk, IfErr, IfSome, IfNone};
ghost use Rattle.answer_records.specs.Items.{BeginsWithNoMode, LacksMode};
ghost use Rattle.hook_base.specs.Rising.{IsRisingBy};
ghost use Rattle.answer_records.specs.Limits.{IsStorable};
ghost use Rattle.answer_records.specs.Records.{mode_byte, seen_record};
ghost use Rattle.answer_records.specs.Reading.{Decodes, IsDigest, IsRecordRefusal, IsSeenRecord};

use crate::draft::Draft;
use crate::fields::{counted, digest_at, tree_path};
use crate::item::{Item, Placed};
use crate::list::list_record;
use crate::rising::read_rising;
use crate::unread::Unread;
use crate::{RecordFault, SeenFile};
use hook_base::{Bytes, Items, Mode, OutOfMemory, RepoPath};
use std::alloc::Global;

/// The record of files that a child saw, in the given order. `TooLarge` exactly if it would have more than
/// [`MOST_RECORD_BYTES`](crate::MOST_RECORD_BYTES) bytes. `OutOfMemory` if memory is refused.
#[tactic(auto, unfolding(crate::specs::Records::seen_record))]
pub fn seen_record(alloc: Global, files: &[SeenFile]) -> Result<Bytes, RecordFault>
    ensures same { IfOk result (λ bytes. bytes ≡ seen_record files.now) }
    ensures storable { IfOk result (λ bytes. IsStorable bytes) }
    ensures record { IsRisingBy (λ file. file.path) files.now → IfOk result (λ bytes. IsSeenRecord files.now bytes) }
    ensures refused { IfErr result (IsRecordRefusal (seen_record files.now)) }
{
    list_record(alloc, files)
}

/// The files whose record these bytes are, with paths that rise, or `None` if the bytes aren't such a record.
/// `OutOfMemory` if memory is refused.
pub fn read_seen(alloc: Global, bytes: &[u8]) -> Result<Option<Items<SeenFile>>, OutOfMemory>
    ensures { IfOk result (Decodes IsSeenRecord bytes.now) }
{
    read_rising(alloc, bytes)
}

impl Item for SeenFile {
    ghost use Rattle.answer_records.specs.Reading.{IsSeenFile};
    ghost use Rattle.answer_records.specs.Records.{seen_bytes};
    ghost use Rattle.answer_records.specs.RecordLemmas.{seen_told_apart};

    ghost is_item = { IsSeenFile };

    ghost spelling = { seen_bytes };

    ghost told_apart = { seen_told_apart };

    fn put(&self, draft: &mut Draft) -> Result<(), RecordFault> {
        draft.put_counted(self.path.as_str().as_bytes())?;
        draft.put(&[byte_of(self.mode)])?;
        draft.put(&self.digest)
    }

    fn take(alloc: Global, bytes: &[u8]) -> Result<(SeenFile, &[u8]), Unread> {
        let Some((path, rest)) = counted(bytes) else {
            return Err(Unread::NoRecord);
        };
        let Some((mode, digest, rest)) = mode_and_digest(rest) else {
            return Err(Unread::NoRecord);
        };
        let path = tree_path(alloc, path)?;
        let file = SeenFile {
            path,
            mode,
            digest: *digest,
        };
        Ok((file, rest))
    }
}

impl Placed for SeenFile {
    ghost place_of = { λ file. file.path };

    fn path(&self) -> &RepoPath {
        &self.path
    }
}

// The mode and the digest at the front, and the rest.
fn mode_and_digest(bytes: &[u8]) -> Option<(Mode, &[u8; 32], &[u8])>
    ensures found { IfSome result (λ read. bytes.now ≡ (mode_byte read.0 ∷ read.1.now) ++ read.2.now) }
    ensures digest { IfSome result (λ read. IsDigest read.1.now) }
    ensures none { IfNone result (BeginsWithNoMode bytes.now) }
{
    let (mode, rest) = mode_at(bytes)?;
    let (digest, rest) = digest_at(rest)?;
    Some((mode, digest, rest))
}

// The mode at the front, and the rest.
fn mode_at(bytes: &[u8]) -> Option<(Mode, &[u8])>
    ensures found { IfSome result (λ read. bytes.now ≡ mode_byte read.0 ∷ read.1.now) }
    ensures none { IfNone result (LacksMode bytes.now) }
{
    match bytes {
        [0, rest @ ..] => Some((Mode::Plain, rest)),
        [1, rest @ ..] => Some((Mode::Executable, rest)),
        _ => None,
    }
}

// The byte that encodes a mode.
fn byte_of(mode: Mode) -> u8
    ensures { result ≡ mode_byte mode }
{
    match mode {
        Mode::Plain => 0,
        Mode::Executable => 1,
    }
}
