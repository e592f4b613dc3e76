//! Single files, looked up among others and shown by reference, and the contents of files and fixes.

ghost use Rattle.std.specs.Prelude.{◌≡◌, map, option_map, slice_get};
ghost use Rattle.std.specs.Option.{option_copied};
ghost use Rattle.hook_base.specs.declared.file.FileEntry.{FileEntry};
ghost use Rattle.hook_base.specs.Trees.{IsRising, entry_of};
ghost use Rattle.repo_store.specs.FileRefs.{copied_file};
ghost use Rattle.repo_store.specs.Lists.{entry_in, file_of, fix_of};
ghost use Rattle.repo_store.specs.Repository.{fixed_bytes};

use crate::FileRef;
use crate::files::place_of;
use crate::shared::{ListedFile, SharedFix};
use hook_base::RepoPath;

/// The file of a path, if there is one.
pub(crate) fn file_at<'a>(files: &'a [ListedFile], path: &RepoPath) -> Option<&'a ListedFile>
    requires { IsRising (map file_of files.now) }
    ensures { option_map entry_in (option_copied result) ≡ entry_of path.now (map file_of files.now) }
{
    match place_of(files, path) {
        Ok(index) => files.get(index),
        Err(_) => None,
    }
}

/// The contents of the file of a path, if there is one.
pub(crate) fn bytes_at<'a>(files: &'a [ListedFile], path: &RepoPath) -> Option<&'a [u8]>
    requires { IsRising (map file_of files.now) }
    ensures { option_copied result ≡ option_map (λ (entry : FileEntry). entry.bytes)
        (entry_of path.now (map file_of files.now)) }
{
    match file_at(files, path) {
        Some(file) => Some(file.content().as_slice()),
        None => None,
    }
}

/// The new contents that the fixes give to a path, if any.
pub(crate) fn fixed_at<'a>(fixes: &'a [SharedFix], path: &RepoPath) -> Option<&'a [u8]>
    ensures { option_copied result ≡ fixed_bytes path.now (map fix_of fixes.now) }
{
    'fixes: for fix in fixes {
        if path.as_str() == fix.path.as_str() {
            return new_bytes(fix);
        }
    }
    None
}

// The new contents of a fix, if its file isn't gone.
fn new_bytes(fix: &SharedFix) -> Option<&[u8]>
    ensures { option_copied result ≡ fix.entry.now.now }
{
    match &fix.now {
        None => None,
        Some(content) => Some(content.as_slice()),
    }
}

/// The file by reference.
pub(crate) fn shown(file: &ListedFile) -> FileRef<'_>
    ensures { copied_file result ≡ file_of file.now }
{
    FileRef {
        path: file.path(),
        mode: file.mode(),
        bytes: file.content().as_slice(),
    }
}

/// The file at an index, by reference, if there is one.
pub(crate) fn shown_at(files: &[ListedFile], index: usize) -> Option<FileRef<'_>>
    ensures { option_map copied_file result ≡ slice_get (map file_of files.now) index }
{
    match files.get(index) {
        Some(file) => Some(shown(file)),
        None => None,
    }
}
