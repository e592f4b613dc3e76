//! The fixes that the rows of `fixes` hold, in the order of their paths.

ghost use Rattle.std.specs.Prelude.{◌≡◌, ◌∷◌, [], ◌++◌, map, IsTrue, IfOk, IfErr, OnOk, MatchOption};
ghost use Rattle.std.specs.List.{AllByRecursion};
ghost use Rattle.hook_base.specs.declared.change.Change.{Change};
ghost use Rattle.hook_base.specs.Rising.{IsBelow as IsBelowPath};
ghost use Rattle.hook_base.specs.Trees.{IsRising, IsRisingChanges};
ghost use Rattle.repo_store.specs.Complete.{HaveNewContents, IsAmong};
ghost use Rattle.store_faults.specs.Faults.{IsDamage};
ghost use Rattle.repo_store.specs.Lists.{file_of, fix_of};
ghost use Rattle.repo_store.specs.RowRules.{IsFixRow, IsMarked};
ghost use Rattle.repo_store.specs.Rows.{blob_row, fix_at, fix_row, staged_row};

use super::columns::{content_at, is_after, path_at};
use crate::StoreFault;
use crate::contents::Contents;
use crate::files::has_path;
use crate::shared::{ListedFile, SharedFix};
use hook_base::{Content, RepoPath};
use sqlite::Error;
use std::alloc::Global;
use store_tables::FixRow;

// What a fix makes of its file: its contents, or `None` if it is gone.
fn now_of(contents: &Contents, row: &FixRow) -> Result<Option<Content>, StoreFault>
    ensures now { IfOk result (λ now. fix_at row.now.path now ≡ row.now) }
    ensures among { IfOk result (λ now. MatchOption now (Unit {0}) (IsAmong contents.now)) }
    ensures marked { OnOk result (IsMarked (map blob_row contents.now) row.now.gone row.now.digest) }
    ensures broken { IfErr result (IsDamage (¬ IsMarked (map blob_row contents.now) row.now.gone row.now.digest)) }
{
    match &row.digest {
        None => {
            if row.gone != 1 {
                return Err(StoreFault::Damaged);
            }
            Ok(None)
        }
        Some(digest) => {
            if row.gone != 0 {
                return Err(StoreFault::Damaged);
            }
            let content = content_at(contents, digest.as_slice())?;
            Ok(Some(content))
        }
    }
}

// The fix of a row, which must be of a staged file.
fn fix_of_row(
    alloc: Global,
    contents: &Contents,
    staged: &[ListedFile],
    row: &FixRow,
) -> Result<SharedFix, StoreFault>
    requires { IsRising (map file_of staged.now) }
    ensures fix { IfOk result (λ fix. fix_row (fix_of fix) ≡ row.now) }
    ensures among { IfOk result (λ fix. MatchOption fix.now (Unit {0}) (IsAmong contents.now)) }
    ensures obeys { OnOk result (IsFixRow (map blob_row contents.now) (map staged_row (map file_of staged.now)) row.now) }
    ensures broken { IfErr result (IsDamage
        (¬ IsFixRow (map blob_row contents.now) (map staged_row (map file_of staged.now)) row.now)) }
{
    let path = path_at(alloc, row.path.as_slice())?;
    if !has_path(staged, &path) {
        return Err(StoreFault::Damaged);
    }
    let now = now_of(contents, row)?;
    Ok(SharedFix { path, now })
}

// Whether a path comes after those of all fixes.
fn follows_fixes(fixes: &[SharedFix], path: &RepoPath) -> bool
    requires { IsRisingChanges (map fix_of fixes.now) }
    ensures { IsTrue result → AllByRecursion (λ (change : Change). IsBelowPath change.path path.now)
        (map fix_of fixes.now) }
{
    match fixes {
        [.., last] => is_after(&last.path, path),
        [] => true,
    }
}

// Adds a fix whose path comes after all others.
fn add_fix(fixes: &mut Vec<SharedFix>, fix: SharedFix) -> Result<(), StoreFault>
    requires { IsRisingChanges (map fix_of fixes.old.items) }
    ensures added { OnOk result (map fix_of fixes.new.items ≡ map fix_of fixes.old.items ++ fix_of fix ∷ []) }
    ensures rising { OnOk result (IsRisingChanges (map fix_of fixes.new.items)) }
    ensures why { IfErr result (IsDamage ⊥) }
{
    if !follows_fixes(fixes.as_slice(), &fix.path) {
        return Err(StoreFault::Sql(Error::InvalidQuery));
    }
    fixes.push(fix)?;
    Ok(())
}

/// The fixes of these rows, each of a staged file.
pub(crate) fn fixes_of(
    alloc: Global,
    contents: &Contents,
    staged: &[ListedFile],
    rows: Vec<FixRow>,
) -> Result<Vec<SharedFix>, StoreFault>
    requires { IsRising (map file_of staged.now) }
    ensures fixes { IfOk result (λ fixes. map fix_row (map fix_of fixes.items) ≡ rows.items) }
    ensures rising { IfOk result (λ fixes. IsRisingChanges (map fix_of fixes.items)) }
    ensures among { IfOk result (λ fixes. HaveNewContents contents.now (map fix_of fixes.items)) }
    ensures obeys { OnOk result (AllByRecursion
        (IsFixRow (map blob_row contents.now) (map staged_row (map file_of staged.now))) rows.items) }
    ensures broken { IfErr result (IsDamage
        (¬ AllByRecursion (IsFixRow (map blob_row contents.now) (map staged_row (map file_of staged.now))) rows.items)) }
{
    let mut fixes = Vec::new(alloc);
    'rows: for row in rows {
        let fix = fix_of_row(alloc, contents, staged, &row)?;
        add_fix(&mut fixes, fix)?;
    }
    Ok(fixes)
}
