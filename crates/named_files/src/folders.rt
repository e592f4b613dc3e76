//! What is staged of a folder.
//!
//! The contracts cite `specs/Words.antt`.

ghost use Rattle.std.specs.Prelude.{◌≡◌, IfOk, string_bytes};
ghost use Rattle.named_files.specs.Words.{is_left_out, is_of_repository, path_in};

use crate::words::begins_with;
use std::alloc::{AllocError, Global};

// The folder of the repository, at the top of the working folder, and how the paths below it begin.
const REPOSITORY: &str = ".hookhost";

const BELOW_REPOSITORY: &str = ".hookhost/";

/// Whether the path is that of the repository's folder or leads through it.
pub fn is_of_repository(path: &str) -> bool
    ensures { result ≡ is_of_repository path.now }
{
    path == REPOSITORY || begins_with(path, BELOW_REPOSITORY)
}

/// Whether a name in a folder is left out, with all that is below it: no name, the folder itself and the one
/// above, the folder of a repository of Git at any depth, and the repository's folder. The empty path is the
/// working folder.
pub fn is_left_out(folder: &str, name: &str) -> bool
    ensures { result ≡ is_left_out folder.now name.now }
{
    name.is_empty()
        || name == "."
        || name == ".."
        || name == ".git"
        || (folder.is_empty() && name == REPOSITORY)
}

/// The path of a name in a folder. The empty path is the working folder.
pub fn path_in(alloc: Global, folder: &str, name: &str) -> Result<String, AllocError>
    ensures { IfOk result (λ path. string_bytes path ≡ path_in folder.now name.now) }
{
    let mut path = String::from_str(alloc, folder)?;
    if !folder.is_empty() {
        path.push('/')?;
    }
    path.push_str(name)?;
    Ok(path)
}
