//! Whether a path clashes with files: whether one of both would have to be a file and a folder.

ghost use Rattle.std.specs.Prelude.{◌≡◌, ◌↔◌, ◌++◌, [], ◌∷◌, length, map, take, IsTrue};
ghost use Rattle.std.specs.List.{Any};
ghost use Rattle.hook_base.specs.Rising.{path_cmp};
ghost use Rattle.hook_base.specs.Trees.{IsRising};
ghost use Rattle.hook_base.specs.declared.file.File.{File};
ghost use Rattle.repo_store.specs.Clashes.{Clashes, IsFolderOf, slash};
ghost use Rattle.repo_store.specs.Lists.{file_of};

use crate::shared::ListedFile;
use hook_base::RepoPath;
use std::cmp::Ordering;

// How a file's path compares to a text.
fn side_of(file: &ListedFile, text: &[u8]) -> Ordering
    ensures { result ≡ path_cmp file.now.path text.now }
{
    file.path().as_str().as_bytes().cmp(text)
}

// How the first byte of a text compares to a slash. An empty text is less.
fn side_of_slash(text: &[u8]) -> Ordering
    ensures { result ≡ path_cmp (take 1 text.now) (slash ∷ []) }
{
    match text {
        [byte, ..] => byte.cmp(&b'/'),
        [] => Ordering::Less,
    }
}

// How a file's path compares to the paths below a folder: `Equal` if it lies below. The folder's path and its
// slash are compared one after the other, so that nothing is allocated.
fn side_of_folder(file: &ListedFile, folder: &[u8]) -> Ordering
    ensures { let below = folder.now ++ (slash ∷ []) in result ≡ path_cmp (take (length below) file.now.path) below }
{
    let path = file.path().as_str().as_bytes();
    match path.split_at_checked(folder.len()) {
        Some((front, rest)) => front.cmp(folder).then(side_of_slash(rest)),
        None => path.cmp(folder),
    }
}

// Whether a file has this path.
fn has_file_at(files: &[ListedFile], path: &[u8]) -> bool
    requires { IsRising (map file_of files.now) }
    ensures { IsTrue result ↔ Any (λ (file : File). file.path ≡ path.now) (map file_of files.now) }
{
    files.binary_search_by(|file| side_of(file, path)).is_ok()
}

// Whether a file lies below a folder. Such files lie next to each other in sorted files, so a binary search
// finds one.
fn has_file_below(files: &[ListedFile], folder: &[u8]) -> bool
    requires { IsRising (map file_of files.now) }
    ensures { IsTrue result ↔ Any (λ (file : File). IsFolderOf folder.now file.path) (map file_of files.now) }
{
    files
        .binary_search_by(|file| side_of_folder(file, folder))
        .is_ok()
}

// Whether a file's path is a folder of the path. The folders of a path are the texts before its slashes.
fn lies_below_file(files: &[ListedFile], path: &[u8]) -> bool
    requires { IsRising (map file_of files.now) }
    ensures { IsTrue result ↔ Any (λ (file : File). IsFolderOf file.path path.now) (map file_of files.now) }
{
    'bytes: for (index, byte) in path.iter().enumerate() {
        if *byte == b'/' && has_file_at(files, &path[..index]) {
            return true;
        }
    }
    false
}

/// Whether some file's path is a folder of the path, or the path is a folder of some file's.
pub(crate) fn clashes(files: &[ListedFile], path: &RepoPath) -> bool
    requires { IsRising (map file_of files.now) }
    ensures { IsTrue result ↔ Clashes path.now (map file_of files.now) }
{
    let text = path.as_str().as_bytes();
    lies_below_file(files, text) || has_file_below(files, text)
}
