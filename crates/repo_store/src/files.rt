//! A tree as a sorted list of files that share their contents: look-ups, insertions and removals.

ghost use Rattle.std.specs.Prelude.{◌≡◌, ◌↔◌, ◌+◌, ◌<◌, ◌^◌, map, is_some, IfOk, OnOk, MatchResult, IsTrue, vec_len, vec_capacity};
ghost use Rattle.std.specs.Str.{IsUtf8};
ghost use Rattle.hook_base.specs.Paths.{IsRepoPath};
ghost use Rattle.hook_base.specs.Places.{IsAt, IsGap};
ghost use Rattle.hook_base.specs.declared.file.FileEntry.{FileEntry};
ghost use Rattle.hook_base.specs.Trees.{IsRising, entry_of, put_file, put_row, remove_file};
ghost use Rattle.store_faults.specs.Limits.{Fits, path_bytes as path_bytes_of};
ghost use Rattle.repo_store.specs.Lists.{file_of};

use crate::shared::{ListedFile, SharedCommit};
use hook_base::{Bytes, OutOfMemory, RepoPath};
use store_faults::{MOST_FILES, MOST_TREE_PATH_BYTES};

/// The index of the file of a path in sorted files, or the index at which it would be inserted.
pub(crate) fn place_of(files: &[ListedFile], path: &RepoPath) -> Result<usize, usize>
    requires { IsRising (map file_of files.now) }
    ensures { MatchResult result (IsAt path.now (map file_of files.now)) (IsGap path.now (map file_of files.now)) }
{
    files.binary_search_by(|file| file.path().cmp(path))
}

/// Whether a path has a file.
pub(crate) fn has_path(files: &[ListedFile], path: &RepoPath) -> bool
    requires { IsRising (map file_of files.now) }
    ensures { result ≡ is_some (entry_of path.now (map file_of files.now)) }
{
    place_of(files, path).is_ok()
}

/// The bytes of all paths together.
pub(crate) fn count_path_bytes(files: &[ListedFile]) -> usize
    requires { path_bytes_of (map file_of files.now) < 2 ^ 64 }
    ensures { result ≡ path_bytes_of (map file_of files.now) }
{
    files.iter().map(|file| file.path().as_str().len()).sum()
}

/// Whether the files are within the limits of a staged tree (docs/REFERENCE.md, "Limits").
pub(crate) fn fit(files: &[ListedFile]) -> bool
    ensures { IsTrue result ↔ Fits (map file_of files.now) }
{
    if files.len() > MOST_FILES {
        return false;
    }
    let mut left = MOST_TREE_PATH_BYTES;
    'files: for file in files {
        let len = file.path().as_str().len();
        if len > left {
            return false;
        }
        left -= len;
    }
    true
}

/// Whether the files, whose paths have `path_bytes` bytes, still fit with a file at the path too.
pub(crate) fn may_put(files: &[ListedFile], path_bytes: usize, path: &RepoPath) -> bool
    requires counted { path_bytes ≡ path_bytes_of (map file_of files.now) }
    requires rising { IsRising (map file_of files.now) }
    requires fits { Fits (map file_of files.now) }
    ensures fits { (entry : FileEntry) → IsTrue result ↔ Fits (put_file path.now entry (map file_of files.now)) }
    ensures path { IsRepoPath path.now }
    ensures utf8 { IsUtf8 path.now }
{
    let text = path.as_str();
    match place_of(files, path) {
        Ok(_) => true,
        Err(_) => {
            let bytes = path_bytes + text.len();
            files.len() < MOST_FILES && bytes <= MOST_TREE_PATH_BYTES
        }
    }
}

/// Puts a file, for which there is room, in place of the one at its path, or adds it. Returns by how many
/// bytes the paths become longer.
pub(crate) fn put_file(files: &mut Vec<ListedFile>, file: ListedFile) -> usize
    requires rising { IsRising (map file_of files.old.items) }
    requires room { vec_len files.old < vec_capacity files.old }
    ensures files { map file_of files.new.items ≡ put_row (file_of file) (map file_of files.old.items) }
    ensures bytes { path_bytes_of (map file_of files.new.items) ≡ path_bytes_of (map file_of files.old.items) + result }
{
    match place_of(files.as_slice(), file.path()) {
        Ok(index) => {
            files[index] = file;
            0
        }
        Err(index) => {
            let bytes = file.path().as_str().len();
            let _done = files.insert(index, file);
            bytes
        }
    }
}

/// Removes the file of a path, if there is one. Returns by how many bytes the paths become shorter.
pub(crate) fn take_out(files: &mut Vec<ListedFile>, path: &RepoPath) -> usize
    requires { IsRising (map file_of files.old.items) }
    ensures files { map file_of files.new.items ≡ remove_file path.now (map file_of files.old.items) }
    ensures bytes { path_bytes_of (map file_of files.old.items) ≡ path_bytes_of (map file_of files.new.items) + result }
{
    match place_of(files.as_slice(), path) {
        Ok(index) => {
            files.remove(index);
            path.as_str().len()
        }
        Err(_) => 0,
    }
}

/// A commit of these files.
pub(crate) fn commit_with(
    message: &[u8],
    files: &Vec<ListedFile>,
) -> Result<SharedCommit, OutOfMemory>
    ensures { IfOk result (λ commit. (commit.message ≡ message.now)
        × (map file_of commit.files.items ≡ map file_of files.now.items)) }
{
    let message = Bytes::copy_of(*files.allocator(), message)?;
    let files = files.clone()?;
    Ok(SharedCommit { message, files })
}
