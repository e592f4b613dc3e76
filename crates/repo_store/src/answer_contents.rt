//! The contents of an answer that is to be cached: those of the files that its child saw and changed, and
//! then the answer's records and its output.

ghost use Rattle.std.specs.Prelude.{◌≡◌, ◌∷◌, [], map, option_to_list, IfOk, IfErr, OnOk, OnErr};
ghost use Rattle.std.specs.Option.{option_map};
ghost use Rattle.sha2.specs.Sha256.{sha256};
ghost use Rattle.hook_base.specs.Trees.{IsRising, IsRisingChanges};
ghost use Rattle.answer_records.specs.Reading.{IsChangesRecord, IsSeenRecord, IsWordsRecord};
ghost use Rattle.answer_records.specs.Records.{changed_of_changes, changes_record, seen_of_files, seen_record, words_record};
ghost use Rattle.repo_store.specs.AnswerRefs.{copied_answer};
ghost use Rattle.store_faults.specs.Faults.{IsRefusal};
ghost use Rattle.repo_store.specs.KeptContents.{AreAllKept, IsStopped};
ghost use Rattle.repo_store.specs.Lists.{file_of, fix_of};
ghost use Rattle.repo_store.specs.Remembering.{AreSmall, SomeCollides};
ghost use Rattle.repo_store.specs.SharedAnswers.{records_of_parts};
ghost use Rattle.repo_store.specs.SoundAnswers.{IsSoundAnswer, KeepToSeen};
ghost use Rattle.repo_store.specs.WrittenAnswers.{contents_for, contents_in_changes, contents_in_files};

use crate::contents::Contents;
use crate::shared::{ListedFile, SharedFix};
use crate::shared_answer::{AnswerRecords, SharedAnswer};
use crate::{AnswerRef, StoreFault};
use answer_records::{ChangedFile, SeenFile, changes_record, seen_record, words_record};
use hook_base::{Change, Content, OutOfMemory, SharedFile, Text, Tree, copy_texts};
use std::alloc::Global;

// The records of an answer, and its output.
#[derive(Drop)]
struct Written {
    output: Content,
    records: AnswerRecords,
}

// Keeps the contents of a file.
fn keep_file(contents: &mut Contents, file: &SharedFile) -> Result<ListedFile, StoreFault>
    ensures file { IfOk result (λ made. file_of made ≡ file.now) }
    ensures kept { OnOk result (AreAllKept (file.now.entry.bytes ∷ []) contents.old contents.new) }
    ensures stopped { IfErr result (IsStopped (file.now.entry.bytes ∷ []) contents.old contents.new) }
{
    let listed = ListedFile::sharing(file)?;
    contents.keep_shared(&file.as_file().entry.bytes)?;
    Ok(listed)
}

// Keeps the contents of the files that a child saw.
fn keep_files(
    alloc: Global,
    contents: &mut Contents,
    seen: &Tree,
) -> Result<Vec<ListedFile>, StoreFault>
    ensures files { IfOk result (λ files. map file_of files.items ≡ seen.now) }
    ensures rising { IsRising seen.now }
    ensures kept { OnOk result (AreAllKept (contents_in_files seen.now) contents.old contents.new) }
    ensures stopped { IfErr result (IsStopped (contents_in_files seen.now) contents.old contents.new) }
{
    let mut files = Vec::new(alloc);
    'files: for index in 0..seen.len() {
        let file = keep_file(contents, seen.shared(index))?;
        files.push(file)?;
    }
    Ok(files)
}

// Keeps the new contents of a change, if it has any.
fn keep_change(contents: &mut Contents, change: &Change) -> Result<SharedFix, StoreFault>
    ensures change { IfOk result (λ made. fix_of made ≡ change.entry.now) }
    ensures kept { OnOk result (AreAllKept (option_to_list change.entry.now.now) contents.old contents.new) }
    ensures stopped { IfErr result (IsStopped (option_to_list change.entry.now.now) contents.old contents.new) }
{
    let path = change.path.clone()?;
    match &change.now {
        None => Ok(SharedFix { path, now: None }),
        Some(bytes) => {
            let content = contents.keep_shared(bytes)?;
            Ok(SharedFix {
                path,
                now: Some(content),
            })
        }
    }
}

// Keeps the new contents of the files that a child changed.
fn keep_changes(
    alloc: Global,
    contents: &mut Contents,
    changes: &[Change],
) -> Result<Vec<SharedFix>, StoreFault>
    ensures changes { IfOk result (λ made. map fix_of made.items ≡ changes.now) }
    ensures kept { OnOk result (AreAllKept (contents_in_changes changes.now) contents.old contents.new) }
    ensures stopped { IfErr result (IsStopped (contents_in_changes changes.now) contents.old contents.new) }
{
    let mut made = Vec::new(alloc);
    'changes: for change in changes {
        let change = keep_change(contents, change)?;
        made.push(change)?;
    }
    Ok(made)
}

// Keeps the record of the words of a command.
fn keep_words(alloc: Global, contents: &mut Contents, words: &[Text]) -> Result<Content, StoreFault>
    ensures record { IfOk result (IsWordsRecord words.now) }
    ensures kept { OnOk result (AreAllKept (words_record words.now ∷ []) contents.old contents.new) }
    ensures stopped { IfErr result (IsStopped (words_record words.now ∷ []) contents.old contents.new) }
{
    let record = words_record(alloc, words)?;
    contents.keep(record.as_slice())
}

// The files as a record names them (docs/REFERENCE.md, "The store").
fn named_files(alloc: Global, files: &[ListedFile]) -> Result<Vec<SeenFile>, OutOfMemory>
    ensures { IfOk result (λ named. named.items ≡ seen_of_files (map file_of files.now)) }
{
    let mut named = Vec::new(alloc);
    'files: for file in files {
        named.push(SeenFile {
            path: file.path().clone()?,
            mode: file.mode(),
            digest: file.content().digest(),
        })?;
    }
    Ok(named)
}

// Keeps the record of the files that a child saw.
fn keep_seen(
    alloc: Global,
    contents: &mut Contents,
    files: &[ListedFile],
) -> Result<Content, StoreFault>
    requires { IsRising (map file_of files.now) }
    ensures record { IfOk result (IsSeenRecord (seen_of_files (map file_of files.now))) }
    ensures kept { OnOk result (AreAllKept (seen_record (seen_of_files (map file_of files.now)) ∷ []) contents.old
        contents.new) }
    ensures stopped { IfErr result (IsStopped (seen_record (seen_of_files (map file_of files.now)) ∷ []) contents.old
        contents.new) }
{
    let named = named_files(alloc, files)?;
    let record = seen_record(alloc, named.as_slice())?;
    contents.keep(record.as_slice())
}

// The digest of the new contents of a change, if its file isn't gone.
fn digest_now(change: &SharedFix) -> Option<[u8; 32]>
    ensures { result ≡ option_map sha256 change.entry.now.now }
{
    match &change.now {
        None => None,
        Some(content) => Some(content.digest()),
    }
}

// The changes as a record names them (docs/REFERENCE.md, "The store").
fn named_changes(alloc: Global, changes: &[SharedFix]) -> Result<Vec<ChangedFile>, OutOfMemory>
    ensures { IfOk result (λ named. named.items ≡ changed_of_changes (map fix_of changes.now)) }
{
    let mut named = Vec::new(alloc);
    'changes: for change in changes {
        named.push(ChangedFile {
            path: change.path.clone()?,
            digest: digest_now(change),
        })?;
    }
    Ok(named)
}

// Keeps the record of a child's changes.
fn keep_changed(
    alloc: Global,
    contents: &mut Contents,
    changes: &[SharedFix],
) -> Result<Content, StoreFault>
    requires { IsRisingChanges (map fix_of changes.now) }
    ensures record { IfOk result (IsChangesRecord (changed_of_changes (map fix_of changes.now))) }
    ensures kept { OnOk result (AreAllKept (changes_record (changed_of_changes (map fix_of changes.now)) ∷ [])
        contents.old contents.new) }
    ensures stopped { IfErr result (IsStopped (changes_record (changed_of_changes (map fix_of changes.now)) ∷ [])
        contents.old contents.new) }
{
    let named = named_changes(alloc, changes)?;
    let record = changes_record(alloc, named.as_slice())?;
    contents.keep(record.as_slice())
}

// Keeps the records of an answer, and its output.
fn keep_written(
    alloc: Global,
    contents: &mut Contents,
    words: &[Text],
    files: &[ListedFile],
    output: &[u8],
    changes: &[SharedFix],
) -> Result<Written, StoreFault>
    requires files_rise { IsRising (map file_of files.now) }
    requires changes_rise { IsRisingChanges (map fix_of changes.now) }
    ensures words { IfOk result (λ written. IsWordsRecord words.now written.records.words) }
    ensures seen { IfOk result (λ written. IsSeenRecord (seen_of_files (map file_of files.now)) written.records.seen) }
    ensures output { IfOk result (λ written. written.output ≡ output.now) }
    ensures changes { IfOk result (λ written. IsChangesRecord (changed_of_changes (map fix_of changes.now))
        written.records.changes) }
    ensures kept { OnOk result (AreAllKept (records_of_parts words.now files.now output.now changes.now) contents.old
        contents.new) }
    ensures stopped { IfErr result (IsStopped (records_of_parts words.now files.now output.now changes.now) contents.old
        contents.new) }
{
    let words = keep_words(alloc, contents, words)?;
    let seen = keep_seen(alloc, contents, files)?;
    let output = contents.keep(output)?;
    let changes = keep_changed(alloc, contents, changes)?;
    let records = AnswerRecords {
        words,
        seen,
        changes,
    };
    Ok(Written { output, records })
}

// Keeps the contents of an answer. After a refusal some of them are kept.
fn keep_parts(
    alloc: Global,
    contents: &mut Contents,
    words: &[Text],
    seen: &Tree,
    answer: AnswerRef<'_>,
) -> Result<SharedAnswer, StoreFault>
    requires { KeepToSeen answer.changes.now seen.now }
    ensures answer { IfOk result (λ made. made ≡ copied_answer words.now seen.now answer.entry) }
    ensures sound { OnOk result (IsSoundAnswer (copied_answer words.now seen.now answer.entry)) }
    ensures kept { OnOk result (AreAllKept (contents_for (copied_answer words.now seen.now answer.entry)) contents.old
        contents.new) }
    ensures stopped { IfErr result (IsStopped (contents_for (copied_answer words.now seen.now answer.entry))
        contents.old contents.new) }
{
    let copy = copy_texts(alloc, words)?;
    let files = keep_files(alloc, contents, seen)?;
    let changes = keep_changes(alloc, contents, answer.changes.as_slice())?;
    let written = keep_written(
        alloc,
        contents,
        words,
        files.as_slice(),
        answer.output,
        changes.as_slice(),
    )?;
    Ok(SharedAnswer::of(
        copy,
        files,
        written.output,
        changes,
        answer.status,
        written.records,
    ))
}

/// An answer to be cached, whose contents are kept. A refusal leaves everything as it was.
pub(crate) fn keep_answer(
    alloc: Global,
    contents: &mut Contents,
    words: &[Text],
    seen: &Tree,
    answer: AnswerRef<'_>,
) -> Result<SharedAnswer, StoreFault>
    requires { KeepToSeen answer.changes.now seen.now }
    ensures answer { IfOk result (λ made. made ≡ copied_answer words.now seen.now answer.entry) }
    ensures sound { OnOk result (IsSoundAnswer (copied_answer words.now seen.now answer.entry)) }
    ensures kept { OnOk result (AreAllKept (contents_for (copied_answer words.now seen.now answer.entry)) contents.old
        contents.new) }
    ensures same { OnErr result (contents.new ≡ contents.old) }
    ensures why { IfErr result (IsRefusal (¬ AreSmall (contents_for (copied_answer words.now seen.now answer.entry))) ⊥
        (SomeCollides (contents_for (copied_answer words.now seen.now answer.entry)) contents.old)) }
{
    let before = contents.len();
    match keep_parts(alloc, contents, words, seen, answer) {
        Ok(answer) => Ok(answer),
        Err(fault) => {
            contents.truncate(before);
            Err(fault)
        }
    }
}
