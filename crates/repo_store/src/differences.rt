//! Whether files are the same. Contents are compared by their digests without reading any, since no two blobs
//! of a store have the same digest.

ghost use Rattle.std.specs.Prelude.{◌≡◌, ◌≢◌, ◌↔◌, List, ℕ, map, IsTrue};
ghost use Rattle.sha2.specs.Sha256.{sha256};
ghost use Rattle.hook_base.specs.Trees.{IsRising, entry_of};
ghost use Rattle.repo_store.specs.Complete.{HaveContents, HaveDistinctDigests};
ghost use Rattle.repo_store.specs.Lists.{file_of};
ghost use Rattle.repo_store.specs.Rows.{staged_row};

use crate::look_ups::file_at;
use crate::shared::ListedFile;
use hook_base::RepoPath;

// Whether two files have the same mode and the same digest.
fn is_same_entry(file: &ListedFile, other: &ListedFile) -> bool
    ensures { IsTrue result ↔ ((file.now.mode ≡ other.now.mode)
        × (sha256 file.now.content ≡ sha256 other.now.content)) }
{
    file.mode() == other.mode() && file.content().digest() == other.content().digest()
}

// Whether two files have the same path, mode and digest.
fn is_same_row(file: &ListedFile, other: &ListedFile) -> bool
    ensures { IsTrue result ↔ (staged_row (file_of file.now) ≡ staged_row (file_of other.now)) }
{
    file.path() == other.path() && is_same_entry(file, other)
}

/// Whether both have as many files, and the files at each index are the same.
pub(crate) fn are_same_rows(files: &[ListedFile], others: &[ListedFile]) -> bool
    ensures { IsTrue result ↔ (map staged_row (map file_of files.now) ≡ map staged_row (map file_of others.now)) }
{
    if files.len() != others.len() {
        return false;
    }
    'files: for index in 0..files.len() {
        if !is_same_row(&files[index], &others[index]) {
            return false;
        }
    }
    true
}

/// Whether a path has different entries in the two, or an entry in only one of them. All contents must be
/// among some of which no two have the same digest.
pub(crate) fn differ_at(files: &[ListedFile], others: &[ListedFile], path: &RepoPath) -> bool
    requires rising { IsRising (map file_of files.now) }
    requires others { IsRising (map file_of others.now) }
    ensures { (contents : List (List ℕ)) → HaveDistinctDigests contents → HaveContents contents (map file_of files.now)
        → HaveContents contents (map file_of others.now)
        → IsTrue result ↔ (entry_of path.now (map file_of files.now) ≢ entry_of path.now (map file_of others.now)) }
{
    match (file_at(files, path), file_at(others, path)) {
        (Some(file), Some(other)) => !is_same_entry(file, other),
        (None, None) => false,
        _ => true,
    }
}
