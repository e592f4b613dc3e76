//! The files with the fixes applied, in one walk over both, which are in the order of their paths.

ghost use Rattle.std.specs.Prelude.{◌≡◌, ◌++◌, ◌∷◌, [], ℕ, List, map, IfNone, IfSome, IfOk, OnOk};
ghost use Rattle.hook_base.specs.declared.file.File.{File};
ghost use Rattle.hook_base.specs.Rising.{IsBelow, IsBelowAll};
ghost use Rattle.hook_base.specs.Trees.{IsRising, IsRisingChanges, apply_change, apply_changes, path_of, with_bytes};
ghost use Rattle.repo_store.specs.Accepted.{HasReached};
ghost use Rattle.repo_store.specs.Lists.{file_of, fix_of};

use crate::shared::{ListedFile, SharedFix};
use hook_base::{Content, OutOfMemory, RepoPath};
use std::alloc::Global;
use std::cmp::Ordering;

// The fixes without those of earlier paths: these are of no file from the path on.
fn from_path<'a>(fixes: &'a [SharedFix], path: &RepoPath) -> &'a [SharedFix]
    requires { IsRisingChanges (map fix_of fixes.now) }
    ensures rising { IsRisingChanges (map fix_of result.now) }
    ensures reached { HasReached path.now (map fix_of result.now) }
    ensures same { (files : List File) → ((earlier : List ℕ) → IsBelow earlier path.now
        → IsBelowAll path_of earlier files)
        → apply_changes (map fix_of fixes.now) files ≡ apply_changes (map fix_of result.now) files }
{
    let mut left = fixes;
    'earlier: while let [fix, later @ ..] = left {
        match fix.path.cmp(path) {
            Ordering::Less => left = later,
            Ordering::Equal | Ordering::Greater => return left,
        }
    }
    left
}

// The first of the fixes, if it is of the path. No other can be.
fn first_at<'a>(fixes: &'a [SharedFix], path: &RepoPath) -> Option<&'a SharedFix>
    requires rising { IsRisingChanges (map fix_of fixes.now) }
    requires reached { HasReached path.now (map fix_of fixes.now) }
    ensures absent { IfNone result ((file : File) → file.path ≡ path.now
        → apply_changes (map fix_of fixes.now) (file ∷ []) ≡ file ∷ []) }
    ensures found { IfSome result (λ fix. (file : File) → file.path ≡ path.now
        → apply_changes (map fix_of fixes.now) (file ∷ []) ≡ apply_change (fix_of fix.now) (file ∷ [])) }
    ensures same { IfSome result (λ fix. fix.now.path ≡ path.now) }
{
    match fixes {
        [fix, ..] => {
            if fix.path == *path {
                return Some(fix);
            }
            None
        }
        [] => None,
    }
}

// The file with these contents.
fn with_content(
    alloc: Global,
    file: &ListedFile,
    content: &Content,
) -> Result<ListedFile, OutOfMemory>
    ensures { IfOk result (λ made. file_of made ≡ with_bytes content.now (file_of file.now)) }
{
    let path = file.path().clone()?;
    let content = content.clone()?;
    ListedFile::of(alloc, path, file.mode(), content)
}

// Adds a file as the fixes leave it. None of the fixes is of an earlier path.
fn push_fixed(
    alloc: Global,
    made: &mut Vec<ListedFile>,
    file: &ListedFile,
    fixes: &[SharedFix],
) -> Result<(), OutOfMemory>
    requires rising { IsRisingChanges (map fix_of fixes.now) }
    requires reached { HasReached file.now.path (map fix_of fixes.now) }
    ensures { OnOk result (map file_of made.new.items
        ≡ map file_of made.old.items ++ apply_changes (map fix_of fixes.now) (file_of file.now ∷ [])) }
{
    match first_at(fixes, file.path()) {
        Some(fix) => {
            if let Some(content) = &fix.now {
                made.push(with_content(alloc, file, content)?)?;
            }
        }
        None => made.push(file.clone()?)?,
    }
    Ok(())
}

/// The files with the fixes applied.
pub(crate) fn with_fixes(
    alloc: Global,
    files: &[ListedFile],
    fixes: &[SharedFix],
) -> Result<Vec<ListedFile>, OutOfMemory>
    requires files { IsRising (map file_of files.now) }
    requires fixes { IsRisingChanges (map fix_of fixes.now) }
    ensures { IfOk result (λ made. map file_of made.items
        ≡ apply_changes (map fix_of fixes.now) (map file_of files.now)) }
{
    let mut made = Vec::with_capacity(alloc, files.len())?;
    let mut left = fixes;
    'files: for file in files {
        left = from_path(left, file.path());
        push_fixed(alloc, &mut made, file, left)?;
    }
    Ok(made)
}
