//! The files that a child saw, read from their record.

ghost use Rattle.std.specs.Prelude.{◌≡◌, true, List, map, IfOk, IfErr};
ghost use Rattle.sha2.specs.Sha256.{sha256};
ghost use Rattle.answer_records.specs.declared.seen_file.SeenFile.{SeenFile};
ghost use Rattle.answer_records.specs.Reading.{IsSeenRecord};
ghost use Rattle.answer_records.specs.Records.{seen_file, seen_of_files};
ghost use Rattle.repo_store.specs.Complete.{HaveContents, IsAmong};
ghost use Rattle.store_faults.specs.Faults.{IsDamage};
ghost use Rattle.repo_store.specs.Lists.{file_of};
ghost use Rattle.repo_store.specs.RowRules.{HasKept, HaveKeptContents, is_kept};
ghost use Rattle.repo_store.specs.Rows.{blob_row};

use super::columns::content_at;
use super::recorded::Recorded;
use crate::StoreFault;
use crate::contents::Contents;
use crate::shared::ListedFile;
use answer_records::{SeenFile, read_seen};
use std::alloc::Global;

// The file that a record names, with its contents.
fn seen_file_of(
    alloc: Global,
    contents: &Contents,
    named: SeenFile,
) -> Result<ListedFile, StoreFault>
    ensures file { IfOk result (λ file. seen_file (file_of file) ≡ named) }
    ensures among { IfOk result (λ file. IsAmong contents.now file.content) }
    ensures broken { IfErr result (IsDamage (¬ (is_kept (map blob_row contents.now) named.digest ≡ true))) }
{
    let SeenFile { path, mode, digest } = named;
    let content = content_at(contents, &digest)?;
    let file = ListedFile::of(alloc, path, mode, content)?;
    Ok(file)
}

// The files that a record names, with their contents.
fn seen_files_of(
    alloc: Global,
    contents: &Contents,
    named: Vec<SeenFile>,
) -> Result<Vec<ListedFile>, StoreFault>
    ensures files { IfOk result (λ files. seen_of_files (map file_of files.items) ≡ named.items) }
    ensures among { IfOk result (λ files. HaveContents contents.now (map file_of files.items)) }
    ensures broken { IfErr result (IsDamage (¬ HaveKeptContents (map blob_row contents.now) named.items)) }
{
    let mut files = Vec::new(alloc);
    'files: for file in named {
        let file = seen_file_of(alloc, contents, file)?;
        files.push(file)?;
    }
    Ok(files)
}

/// The files whose record is kept under a digest, with their contents.
pub(crate) fn seen_files_at(
    alloc: Global,
    contents: &Contents,
    digest: &[u8],
) -> Result<Recorded<Vec<ListedFile>>, StoreFault>
    ensures named { IfOk result (λ seen. sha256 seen.record ≡ digest.now) }
    ensures among { IfOk result (λ seen. IsAmong contents.now seen.record) }
    ensures record { IfOk result (λ seen. IsSeenRecord (seen_of_files (map file_of seen.part.items)) seen.record) }
    ensures contents { IfOk result (λ seen. HaveContents contents.now (map file_of seen.part.items)) }
    ensures only { IfOk result (λ seen. (other : List SeenFile)
        → HasKept (map blob_row contents.now) digest.now (IsSeenRecord other)
        → other ≡ seen_of_files (map file_of seen.part.items)) }
    ensures broken { IfErr result (IsDamage
        ((seen : List SeenFile) → HasKept (map blob_row contents.now) digest.now (IsSeenRecord seen)
        → ¬ HaveKeptContents (map blob_row contents.now) seen)) }
{
    let record = content_at(contents, digest)?;
    let Some(named) = read_seen(alloc, record.as_slice())? else {
        return Err(StoreFault::Damaged);
    };
    let part = seen_files_of(alloc, contents, named.into_vec())?;
    Ok(Recorded { part, record })
}
