//! Applies few fixes: each fixed file is replaced or removed by itself, without a walk over all files.

ghost use Rattle.std.specs.Prelude.{◌≡◌, ◌++◌, ◌+◌, ◌<◌, ◌^◌, map, is_some, IfOk, OnOk, IsTrue};
ghost use Rattle.hook_base.specs.Trees.{IsRising, IsRisingChanges, apply_change, apply_changes, entry_of, put_row, remove_file};
ghost use Rattle.repo_store.specs.Accepted.{HaveSameFixed, file_at, files_with_fix};
ghost use Rattle.store_faults.specs.Limits.{path_bytes as path_bytes_of};
ghost use Rattle.repo_store.specs.Lists.{file_of, fix_of};

use crate::files::{place_of, take_out};
use crate::shared::{ListedFile, SharedFix};
use hook_base::{OutOfMemory, RepoPath};
use std::alloc::Global;

// Adds the file of a path, if there is one.
fn push_at(
    found: &mut Vec<ListedFile>,
    files: &[ListedFile],
    path: &RepoPath,
) -> Result<(), OutOfMemory>
    requires { IsRising (map file_of files.now) }
    ensures { OnOk result (map file_of found.new.items
        ≡ map file_of found.old.items ++ file_at path.now (entry_of path.now (map file_of files.now))) }
{
    if let Ok(index) = place_of(files, path) {
        found.push(files[index].clone()?)?;
    }
    Ok(())
}

/// The files that have a fix.
pub(crate) fn files_with_fix(
    alloc: Global,
    files: &[ListedFile],
    fixes: &[SharedFix],
) -> Result<Vec<ListedFile>, OutOfMemory>
    requires { IsRising (map file_of files.now) }
    ensures { IfOk result (λ found. map file_of found.items
        ≡ files_with_fix (map fix_of fixes.now) (map file_of files.now)) }
{
    let mut found = Vec::with_capacity(alloc, fixes.len())?;
    'fixes: for fix in fixes {
        push_at(&mut found, files, &fix.path)?;
    }
    Ok(found)
}

// Replaces the file at the path of this one.
fn replace(files: &mut Vec<ListedFile>, file: ListedFile)
    requires rising { IsRising (map file_of files.old.items) }
    requires there { IsTrue (is_some (entry_of file.path (map file_of files.old.items))) }
    ensures files { map file_of files.new.items ≡ put_row (file_of file) (map file_of files.old.items) }
    ensures bytes { path_bytes_of (map file_of files.new.items) ≡ path_bytes_of (map file_of files.old.items) }
{
    if let Ok(index) = place_of(files.as_slice(), file.path()) {
        files[index] = file;
    }
}

// Replaces the file at the path of a fix by the one that `fixed` has there, or removes it if `fixed` has
// none. Returns by how many bytes the paths become shorter.
fn settle(files: &mut Vec<ListedFile>, fixed: &mut Vec<ListedFile>, fix: &SharedFix) -> usize
    requires files_rise { IsRising (map file_of files.old.items) }
    requires fixed_rise { IsRising (map file_of fixed.old.items) }
    requires same { entry_of fix.now.path (map file_of fixed.old.items)
        ≡ entry_of fix.now.path (apply_change (fix_of fix.now) (map file_of files.old.items)) }
    ensures files { map file_of files.new.items ≡ apply_change (fix_of fix.entry.now) (map file_of files.old.items) }
    ensures fixed { map file_of fixed.new.items ≡ remove_file fix.entry.now.path (map file_of fixed.old.items) }
    ensures bytes { path_bytes_of (map file_of files.old.items) ≡ path_bytes_of (map file_of files.new.items) + result }
{
    match place_of(fixed.as_slice(), &fix.path) {
        Ok(index) => {
            replace(files, fixed.remove(index));
            0
        }
        Err(_) => take_out(files, &fix.path),
    }
}

/// Applies the fixes to the files; `fixed` has the files at their paths with the fixes applied. Returns by
/// how many bytes the paths become shorter.
pub(crate) fn settle_all(
    files: &mut Vec<ListedFile>,
    fixed: Vec<ListedFile>,
    fixes: &[SharedFix],
) -> usize
    requires files_rise { IsRising (map file_of files.old.items) }
    requires fixed_rise { IsRising (map file_of fixed.items) }
    requires fixes_rise { IsRisingChanges (map fix_of fixes.now) }
    requires same { HaveSameFixed (map fix_of fixes.now) (map file_of fixed.items)
        (apply_changes (map fix_of fixes.now) (map file_of files.old.items)) }
    requires counted { path_bytes_of (map file_of files.old.items) < 2 ^ 64 }
    ensures files { map file_of files.new.items ≡ apply_changes (map fix_of fixes.now) (map file_of files.old.items) }
    ensures bytes { path_bytes_of (map file_of files.old.items) ≡ path_bytes_of (map file_of files.new.items) + result }
{
    let mut left = fixed;
    let mut freed = 0;
    'fixes: for fix in fixes {
        freed += settle(files, &mut left, fix);
    }
    freed
}
