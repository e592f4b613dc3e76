//! What a child changed, read from its record.

ghost use Rattle.std.specs.Prelude.{◌≡◌, true, List, map, IfOk, IfErr, IfSome, MatchOption};
ghost use Rattle.std.specs.Option.{option_map};
ghost use Rattle.sha2.specs.Sha256.{sha256};
ghost use Rattle.answer_records.specs.declared.changed_file.ChangedFile.{ChangedFile};
ghost use Rattle.answer_records.specs.Reading.{IsChangesRecord};
ghost use Rattle.answer_records.specs.Records.{changed_file, changed_of_changes};
ghost use Rattle.repo_store.specs.Complete.{HaveNewContents, IsAmong};
ghost use Rattle.store_faults.specs.Faults.{IsDamage};
ghost use Rattle.repo_store.specs.Lists.{fix_of};
ghost use Rattle.repo_store.specs.RowRules.{HasKept, HaveKeptNewContents, is_kept};
ghost use Rattle.repo_store.specs.Rows.{blob_row};

use super::columns::content_at;
use super::recorded::Recorded;
use crate::StoreFault;
use crate::contents::Contents;
use crate::shared::SharedFix;
use answer_records::{ChangedFile, read_changes};
use hook_base::Content;
use std::alloc::Global;

// The new contents of a file, or `None` if it is gone.
fn now_at(contents: &Contents, digest: &Option<[u8; 32]>) -> Result<Option<Content>, StoreFault>
    ensures now { IfOk result (λ now. option_map sha256 now ≡ digest.now) }
    ensures among { IfOk result (λ now. MatchOption now (Unit {0}) (IsAmong contents.now)) }
    ensures broken { IfErr result (IsDamage
        (¬ IfSome digest.now (λ digest. is_kept (map blob_row contents.now) digest ≡ true))) }
{
    match digest {
        None => Ok(None),
        Some(digest) => {
            let content = content_at(contents, digest)?;
            Ok(Some(content))
        }
    }
}

// The change that a record names, with the new contents.
fn change_of(contents: &Contents, named: ChangedFile) -> Result<SharedFix, StoreFault>
    ensures change { IfOk result (λ change. changed_file (fix_of change) ≡ named) }
    ensures among { IfOk result (λ change. MatchOption change.now (Unit {0}) (IsAmong contents.now)) }
    ensures broken { IfErr result (IsDamage
        (¬ IfSome named.digest (λ digest. is_kept (map blob_row contents.now) digest ≡ true))) }
{
    let now = now_at(contents, &named.digest)?;
    Ok(SharedFix {
        path: named.path,
        now,
    })
}

// The changes that a record names, with the new contents.
fn changes_of(
    alloc: Global,
    contents: &Contents,
    named: Vec<ChangedFile>,
) -> Result<Vec<SharedFix>, StoreFault>
    ensures changes { IfOk result (λ changes. changed_of_changes (map fix_of changes.items) ≡ named.items) }
    ensures among { IfOk result (λ changes. HaveNewContents contents.now (map fix_of changes.items)) }
    ensures broken { IfErr result (IsDamage (¬ HaveKeptNewContents (map blob_row contents.now) named.items)) }
{
    let mut changes = Vec::new(alloc);
    'files: for file in named {
        let change = change_of(contents, file)?;
        changes.push(change)?;
    }
    Ok(changes)
}

/// The changes whose record is kept under a digest, with the new contents.
pub(crate) fn changes_at(
    alloc: Global,
    contents: &Contents,
    digest: &[u8],
) -> Result<Recorded<Vec<SharedFix>>, StoreFault>
    ensures named { IfOk result (λ changes. sha256 changes.record ≡ digest.now) }
    ensures among { IfOk result (λ changes. IsAmong contents.now changes.record) }
    ensures record { IfOk result (λ changes. IsChangesRecord (changed_of_changes (map fix_of changes.part.items))
        changes.record) }
    ensures contents { IfOk result (λ changes. HaveNewContents contents.now (map fix_of changes.part.items)) }
    ensures only { IfOk result (λ changes. (other : List ChangedFile)
        → HasKept (map blob_row contents.now) digest.now (IsChangesRecord other)
        → other ≡ changed_of_changes (map fix_of changes.part.items)) }
    ensures broken { IfErr result (IsDamage
        ((changed : List ChangedFile) → HasKept (map blob_row contents.now) digest.now (IsChangesRecord changed)
        → ¬ HaveKeptNewContents (map blob_row contents.now) changed)) }
{
    let record = content_at(contents, digest)?;
    let Some(named) = read_changes(alloc, record.as_slice())? else {
        return Err(StoreFault::Damaged);
    };
    let part = changes_of(alloc, contents, named.into_vec())?;
    Ok(Recorded { part, record })
}
