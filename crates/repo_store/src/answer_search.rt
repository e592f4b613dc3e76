//! Looks for an answer's key: whether it is kept, by digests and bytes, and a copy of what is found.

ghost use Rattle.std.specs.Prelude.{◌≡◌, ◌∷◌, false, map, IfOk, IfErr, IfSome, IfNone};
ghost use Rattle.sha2.specs.Sha256.{sha256};
ghost use Rattle.hook_base.specs.Trees.{IsRising, IsRisingChanges};
ghost use Rattle.answer_records.specs.Records.{seen_file, seen_of_files, seen_record, words_record};
ghost use Rattle.repo_store.specs.AnswerRefs.{stored_answer};
ghost use Rattle.repo_store.specs.Complete.{HaveContents, IsAmong};
ghost use Rattle.repo_store.specs.Contents.{Collides, has_digest};
ghost use Rattle.store_faults.specs.Faults.{IsRefusal};
ghost use Rattle.repo_store.specs.KeptContents.{AreKnownFiles, ArePlacedFiles, HavePlaces, IsKnownRecord, IsPlacedRecord};
ghost use Rattle.repo_store.specs.Lists.{file_of};
ghost use Rattle.repo_store.specs.Remembering.{AnyCollides};
ghost use Rattle.repo_store.specs.WrittenAnswers.{contents_in_files};

use crate::contents::Contents;
use crate::shared_answer::SharedAnswer;
use crate::trees::changes_of;
use crate::{StoreFault, StoredAnswer};
use answer_records::{RecordFault, SeenFile, seen_record, words_record};
use hook_base::{Bytes, Changes, File, OutOfMemory, Text, Tree};
use sha2::{Digest as _, Sha256};
use std::alloc::Global;

/// A copy of an answer that was looked up, with the digests of its key.
#[derive(Drop)]
pub(crate) struct FoundAnswer {
    pub(crate) answer: StoredAnswer,
    pub(crate) words: [u8; 32],
    pub(crate) seen: [u8; 32],
}

// The digest of bytes, if they are kept.
fn known_digest(contents: &Contents, bytes: &[u8]) -> Result<Option<[u8; 32]>, StoreFault>
    ensures digest { IfOk result (λ found. IfSome found (λ digest. digest ≡ sha256 bytes.now)) }
    ensures known { IfOk result (λ found. IfSome found (λ _. IsAmong contents.now bytes.now)) }
    ensures absent { IfOk result (λ found. IfNone found (has_digest (sha256 bytes.now) contents.now ≡ false)) }
    ensures why { IfErr result (IsRefusal ⊥ ⊥ (Collides bytes.now contents.now)) }
{
    let digest = Sha256::digest(bytes);
    if contents.has(&digest, bytes)? {
        Ok(Some(digest))
    } else {
        Ok(None)
    }
}

/// The digest of the record of these words, if it is kept. A record that is too large is never kept.
pub(crate) fn known_words(
    alloc: Global,
    contents: &Contents,
    words: &[Text],
) -> Result<Option<[u8; 32]>, StoreFault>
    ensures digest { IfOk result (λ found. IfSome found (λ digest. digest ≡ sha256 (words_record words.now))) }
    ensures known { IfOk result (λ found. IfSome found (λ _. IsKnownRecord contents.now (words_record words.now))) }
    ensures absent { IfOk result (λ found. IfNone found (¬ IsPlacedRecord contents.now (words_record words.now))) }
    ensures why { IfErr result (IsRefusal ⊥ ⊥ (Collides (words_record words.now) contents.now)) }
{
    match words_record(alloc, words) {
        Ok(record) => known_digest(contents, record.as_slice()),
        Err(RecordFault::TooLarge) => Ok(None),
        Err(RecordFault::OutOfMemory) => Err(StoreFault::OutOfMemory),
    }
}

// The file as a record names it, if its contents are kept.
fn known_file(contents: &Contents, file: &File) -> Result<Option<SeenFile>, StoreFault>
    ensures named { IfOk result (λ found. IfSome found (λ named. named ≡ seen_file file.now)) }
    ensures known { IfOk result (λ found. IfSome found (λ _. IsAmong contents.now file.now.entry.bytes)) }
    ensures absent { IfOk result (λ found. IfNone found (has_digest (sha256 file.now.entry.bytes) contents.now ≡ false)) }
    ensures why { IfErr result (IsRefusal ⊥ ⊥ (Collides file.now.entry.bytes contents.now)) }
{
    let content = &file.entry.bytes;
    let digest = content.digest();
    if !contents.has(&digest, content.as_slice())? {
        return Ok(None);
    }
    let path = file.path.clone()?;
    Ok(Some(SeenFile {
        path,
        mode: file.entry.mode,
        digest,
    }))
}

// The files as a record names them, if the contents of all are kept.
fn known_files(
    alloc: Global,
    contents: &Contents,
    seen: &Tree,
) -> Result<Option<Vec<SeenFile>>, StoreFault>
    ensures named { IfOk result (λ found. IfSome found (λ named. named.items ≡ seen_of_files seen.now)) }
    ensures known { IfOk result (λ found. IfSome found (λ _. HaveContents contents.now seen.now)) }
    ensures absent { IfOk result (λ found. IfNone found (¬ HavePlaces contents.now seen.now)) }
    ensures why { IfErr result (IsRefusal ⊥ ⊥ (AnyCollides (contents_in_files seen.now) contents.now)) }
{
    let mut named = Vec::new(alloc);
    'files: for index in 0..seen.len() {
        let Some(file) = known_file(contents, seen.entry(index))? else {
            return Ok(None);
        };
        named.push(file)?;
    }
    Ok(Some(named))
}

/// The digest of the record of these files, if it is kept and so are the contents of all of them.
pub(crate) fn known_seen(
    alloc: Global,
    contents: &Contents,
    seen: &Tree,
) -> Result<Option<[u8; 32]>, StoreFault>
    ensures digest { IfOk result (λ found. IfSome found
        (λ digest. digest ≡ sha256 (seen_record (seen_of_files seen.now)))) }
    ensures known { IfOk result (λ found. IfSome found (λ _. AreKnownFiles contents.now seen.now)) }
    ensures absent { IfOk result (λ found. IfNone found (¬ ArePlacedFiles contents.now seen.now)) }
    ensures why { IfErr result (IsRefusal ⊥ ⊥
        (AnyCollides (seen_record (seen_of_files seen.now) ∷ contents_in_files seen.now) contents.now)) }
{
    let Some(named) = known_files(alloc, contents, seen)? else {
        return Ok(None);
    };
    match seen_record(alloc, named.as_slice()) {
        Ok(record) => known_digest(contents, record.as_slice()),
        Err(RecordFault::TooLarge) => Ok(None),
        Err(RecordFault::OutOfMemory) => Err(StoreFault::OutOfMemory),
    }
}

/// A copy of an answer, in memory of its own.
pub(crate) fn stored(alloc: Global, answer: &SharedAnswer) -> Result<StoredAnswer, OutOfMemory>
    requires { IsRisingChanges answer.now.changes }
    ensures { IfOk result (λ copy. copy ≡ stored_answer answer.now) }
{
    let output = Bytes::copy_of(alloc, answer.output().as_slice())?;
    match Changes::from_rising(changes_of(alloc, answer.changes())?) {
        Ok(changes) => Ok(StoredAnswer {
            status: answer.status(),
            output,
            changes,
        }),
        Err(_) => unreachable!(),
    }
}
