//! The record of what became of the files that a child saw.

ghost use Rattle.std.specs.Prelude.{◌≡◌, ◌++◌, IfOk, IfErr, IfSome, IfNone};
ghost use Rattle.answer_records.specs.Items.{BeginsWithNoDigest};
ghost use Rattle.hook_base.specs.Rising.{IsRisingBy};
ghost use Rattle.answer_records.specs.Limits.{IsStorable};
ghost use Rattle.answer_records.specs.Records.{changes_record, now_bytes};
ghost use Rattle.answer_records.specs.Reading.{Decodes, IsChangesRecord, IsDigest, IsRecordRefusal};

use crate::draft::Draft;
use crate::fields::{counted, digest_at, tree_path};
use crate::item::{Item, Placed};
use crate::list::list_record;
use crate::rising::read_rising;
use crate::unread::Unread;
use crate::{ChangedFile, RecordFault};
use hook_base::{Bytes, Items, OutOfMemory, RepoPath};
use std::alloc::Global;

/// The record of what became of files, in the given order. `TooLarge` exactly if it would have more than
/// [`MOST_RECORD_BYTES`](crate::MOST_RECORD_BYTES) bytes. `OutOfMemory` if memory is refused.
#[tactic(auto, unfolding(crate::specs::Records::changes_record))]
pub fn changes_record(alloc: Global, files: &[ChangedFile]) -> Result<Bytes, RecordFault>
    ensures same { IfOk result (λ bytes. bytes ≡ changes_record files.now) }
    ensures storable { IfOk result (λ bytes. IsStorable bytes) }
    ensures record { IsRisingBy (λ file. file.path) files.now → IfOk result (λ bytes. IsChangesRecord files.now bytes) }
    ensures refused { IfErr result (IsRecordRefusal (changes_record files.now)) }
{
    list_record(alloc, files)
}

/// The files whose record these bytes are, with paths that rise, or `None` if the bytes aren't such a record.
/// `OutOfMemory` if memory is refused.
pub fn read_changes(alloc: Global, bytes: &[u8]) -> Result<Option<Items<ChangedFile>>, OutOfMemory>
    ensures { IfOk result (Decodes IsChangesRecord bytes.now) }
{
    read_rising(alloc, bytes)
}

impl Item for ChangedFile {
    ghost use Rattle.answer_records.specs.Reading.{IsChangedFile};
    ghost use Rattle.answer_records.specs.Records.{changed_bytes};
    ghost use Rattle.answer_records.specs.RecordLemmas.{changes_told_apart};

    ghost is_item = { IsChangedFile };

    ghost spelling = { changed_bytes };

    ghost told_apart = { changes_told_apart };

    fn put(&self, draft: &mut Draft) -> Result<(), RecordFault> {
        draft.put_counted(self.path.as_str().as_bytes())?;
        match &self.digest {
            None => draft.put(&[0]),
            Some(digest) => {
                draft.put(&[1])?;
                draft.put(digest)
            }
        }
    }

    fn take(alloc: Global, bytes: &[u8]) -> Result<(ChangedFile, &[u8]), Unread> {
        let Some((path, rest)) = counted(bytes) else {
            return Err(Unread::NoRecord);
        };
        let Some((digest, rest)) = marked_digest(rest) else {
            return Err(Unread::NoRecord);
        };
        let path = tree_path(alloc, path)?;
        Ok((ChangedFile { path, digest }, rest))
    }
}

impl Placed for ChangedFile {
    ghost place_of = { λ file. file.path };

    fn path(&self) -> &RepoPath {
        &self.path
    }
}

// Reads the new digest of a file at the front, or that the file is gone, and gives the rest.
fn marked_digest(bytes: &[u8]) -> Option<(Option<[u8; 32]>, &[u8])>
    ensures found { IfSome result (λ read. bytes.now ≡ now_bytes read.0 ++ read.1.now) }
    ensures digest { IfSome result (λ read. IfSome read.0 IsDigest) }
    ensures none { IfNone result (BeginsWithNoDigest bytes.now) }
{
    match bytes {
        [0, rest @ ..] => Some((None, rest)),
        [1, rest @ ..] => {
            let (digest, rest) = digest_at(rest)?;
            Some((Some(*digest), rest))
        }
        _ => None,
    }
}
