//! What the columns of a row hold: a path, a mode, the contents under a digest, and a file made of these.

ghost use Rattle.std.specs.Prelude.{◌≡◌, ◌⊎◌, pos, true, false, map, IfOk, IfErr, IfSome, IfNone, OnOk, MatchResult, IsTrue};
ghost use Rattle.sha2.specs.Sha256.{sha256};
ghost use Rattle.hook_base.specs.Rising.{IsBelow as IsBelowPath};
ghost use Rattle.repo_store.specs.Complete.{IsAmong};
ghost use Rattle.repo_store.specs.Contents.{Collides};
ghost use Rattle.store_faults.specs.Faults.{IsDamage};
ghost use Rattle.repo_store.specs.Lists.{file_of};
ghost use Rattle.repo_store.specs.Rows.{blob_row, mode_number, staged_row};
ghost use Rattle.repo_store.specs.RowRules.{IsFileRow, IsPathText, is_kept};

use crate::StoreFault;
use crate::contents::Contents;
use crate::shared::ListedFile;
use hook_base::{Content, Mode, PathFault, RepoPath};
use std::alloc::Global;
use std::cmp::Ordering;
use std::str;

// The contents under a digest, if there are any. Bytes that are no digest have none.
fn find<'a>(contents: &'a Contents, digest: &[u8]) -> Option<&'a Content>
    ensures under { IfSome result (λ content. sha256 content.now ≡ digest.now) }
    ensures kept { IfSome result (λ _. is_kept (map blob_row contents.now) digest.now ≡ true) }
    ensures among { IfSome result (λ content. IsAmong contents.now content.now) }
    ensures alone { IfSome result (λ content. ¬ Collides content.now contents.now) }
    ensures absent { IfNone result (is_kept (map blob_row contents.now) digest.now ≡ false) }
{
    match <&[u8; 32]>::try_from(digest) {
        Ok(digest) => contents.find(digest),
        Err(_) => None,
    }
}

/// The contents under a row's digest, shared.
pub(crate) fn content_at(contents: &Contents, digest: &[u8]) -> Result<Content, StoreFault>
    ensures found { IfOk result (λ content. sha256 content ≡ digest.now) }
    ensures kept { OnOk result (is_kept (map blob_row contents.now) digest.now ≡ true) }
    ensures among { IfOk result (IsAmong contents.now) }
    ensures alone { IfOk result (λ content. ¬ Collides content contents.now) }
    ensures missing { IfErr result (IsDamage (is_kept (map blob_row contents.now) digest.now ≡ false)) }
    ensures damage { is_kept (map blob_row contents.now) digest.now ≡ false
        → MatchResult result (λ _. ⊥) (λ fault. fault ≡ StoreFault.Damaged) }
{
    match find(contents, digest) {
        Some(content) => Ok(content.clone()?),
        None => Err(StoreFault::Damaged),
    }
}

/// The path of a row.
pub(crate) fn path_at(alloc: Global, bytes: &[u8]) -> Result<RepoPath, StoreFault>
    ensures path { IfOk result (λ path. path ≡ bytes.now) }
    ensures legal { OnOk result (IsPathText bytes.now) }
    ensures illegal { IfErr result (IsDamage (¬ IsPathText bytes.now)) }
{
    match str::from_utf8(bytes) {
        Ok(text) => match RepoPath::read(alloc, text) {
            Ok(path) => Ok(path),
            Err(PathFault::OutOfMemory) => Err(StoreFault::OutOfMemory),
            Err(_) => Err(StoreFault::Damaged),
        },
        Err(_) => Err(StoreFault::Damaged),
    }
}

// The mode of a number, if it is one (docs/REFERENCE.md, "The store").
fn mode_at(number: i64) -> Option<Mode>
    ensures known { IfSome result (λ mode. pos (mode_number mode) ≡ number) }
    ensures unknown { IfNone result (¬ ((number ≡ pos 0) ⊎ (number ≡ pos 1))) }
{
    match number {
        0 => Some(Mode::Plain),
        1 => Some(Mode::Executable),
        _ => None,
    }
}

/// The file of a row.
pub(crate) fn file_at(
    alloc: Global,
    contents: &Contents,
    path: &[u8],
    mode: i64,
    digest: &[u8],
) -> Result<ListedFile, StoreFault>
    ensures file { IfOk result (λ file. staged_row (file_of file)
        ≡ record { path = path.now; mode = mode; digest = digest.now }) }
    ensures among { IfOk result (λ file. IsAmong contents.now file.content) }
    ensures obeys { OnOk result (IsFileRow (map blob_row contents.now) path.now mode digest.now) }
    ensures broken { IfErr result (IsDamage (¬ IsFileRow (map blob_row contents.now) path.now mode digest.now)) }
{
    let Some(mode) = mode_at(mode) else {
        return Err(StoreFault::Damaged);
    };
    let path = path_at(alloc, path)?;
    let content = content_at(contents, digest)?;
    let file = ListedFile::of(alloc, path, mode, content)?;
    Ok(file)
}

/// Whether a path comes after another.
pub(crate) fn is_after(last: &RepoPath, path: &RepoPath) -> bool
    ensures { IsTrue result → IsBelowPath last.now path.now }
{
    match last.cmp(path) {
        Ordering::Less => true,
        _ => false,
    }
}
