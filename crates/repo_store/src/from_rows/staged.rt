//! The files that the rows of `staged` hold, in the order of their paths.

ghost use Rattle.std.specs.Prelude.{◌≡◌, ◌∷◌, [], ◌++◌, map, IsTrue, IfOk, IfErr, OnOk};
ghost use Rattle.std.specs.List.{AllByRecursion};
ghost use Rattle.hook_base.specs.declared.file.File.{File};
ghost use Rattle.hook_base.specs.Rising.{IsBelow as IsBelowPath};
ghost use Rattle.hook_base.specs.Trees.{IsRising};
ghost use Rattle.repo_store.specs.Complete.{HaveContents};
ghost use Rattle.store_faults.specs.Faults.{IsDamage};
ghost use Rattle.store_faults.specs.Limits.{Fits};
ghost use Rattle.repo_store.specs.Lists.{file_of};
ghost use Rattle.repo_store.specs.RowRules.{AreStagedRows, IsStagedRow};
ghost use Rattle.repo_store.specs.Rows.{blob_row, staged_row};

use super::columns::{file_at, is_after};
use crate::StoreFault;
use crate::contents::Contents;
use crate::files::fit;
use crate::shared::ListedFile;
use hook_base::RepoPath;
use sqlite::Error;
use std::alloc::Global;
use store_tables::StagedRow;

// Whether a path comes after those of all files.
fn follows_files(files: &[ListedFile], path: &RepoPath) -> bool
    requires { IsRising (map file_of files.now) }
    ensures { IsTrue result → AllByRecursion (λ (file : File). IsBelowPath file.path path.now) (map file_of files.now) }
{
    match files {
        [.., last] => is_after(last.path(), path),
        [] => true,
    }
}

/// Adds a file whose path comes after all others.
pub(crate) fn add_file(files: &mut Vec<ListedFile>, file: ListedFile) -> Result<(), StoreFault>
    requires { IsRising (map file_of files.old.items) }
    ensures added { OnOk result (map file_of files.new.items ≡ map file_of files.old.items ++ file_of file ∷ []) }
    ensures rising { OnOk result (IsRising (map file_of files.new.items)) }
    ensures why { IfErr result (IsDamage ⊥) }
{
    if !follows_files(files.as_slice(), file.path()) {
        return Err(StoreFault::Sql(Error::InvalidQuery));
    }
    files.push(file)?;
    Ok(())
}

// The staged files of these rows, whatever their number.
fn files_of(
    alloc: Global,
    contents: &Contents,
    rows: Vec<StagedRow>,
) -> Result<Vec<ListedFile>, StoreFault>
    ensures files { IfOk result (λ files. map staged_row (map file_of files.items) ≡ rows.items) }
    ensures rising { IfOk result (λ files. IsRising (map file_of files.items)) }
    ensures among { IfOk result (λ files. HaveContents contents.now (map file_of files.items)) }
    ensures obeys { OnOk result (AllByRecursion (IsStagedRow (map blob_row contents.now)) rows.items) }
    ensures broken { IfErr result (IsDamage (¬ AllByRecursion (IsStagedRow (map blob_row contents.now)) rows.items)) }
{
    let mut files = Vec::new(alloc);
    'rows: for row in rows {
        let file = file_at(
            alloc,
            contents,
            row.path.as_slice(),
            row.mode,
            row.digest.as_slice(),
        )?;
        add_file(&mut files, file)?;
    }
    Ok(files)
}

/// The staged files of these rows.
pub(crate) fn staged_of(
    alloc: Global,
    contents: &Contents,
    rows: Vec<StagedRow>,
) -> Result<Vec<ListedFile>, StoreFault>
    ensures files { IfOk result (λ files. map staged_row (map file_of files.items) ≡ rows.items) }
    ensures rising { IfOk result (λ files. IsRising (map file_of files.items)) }
    ensures fits { IfOk result (λ files. Fits (map file_of files.items)) }
    ensures among { IfOk result (λ files. HaveContents contents.now (map file_of files.items)) }
    ensures obeys { OnOk result (AreStagedRows (map blob_row contents.now) rows.items) }
    ensures broken { IfErr result (IsDamage (¬ AreStagedRows (map blob_row contents.now) rows.items)) }
{
    let files = files_of(alloc, contents, rows)?;
    if !fit(files.as_slice()) {
        return Err(StoreFault::Damaged);
    }
    Ok(files)
}
