//! Digests that are known from a file or a fix at the same path, so that staged contents aren't hashed again.

ghost use Rattle.std.specs.Prelude.{◌≡◌, IfSome};
ghost use Rattle.sha2.specs.Sha256.{sha256};

use crate::shared::{ListedFile, SharedFix};
use hook_base::{Content, RepoPath};
use sha2::{Digest as _, Sha256};

/// The SHA-256 of contents at a path (FIPS 180-4). It isn't computed if a file or a fix has the same contents
/// at that path.
pub(crate) fn digest_of(
    files: &[ListedFile],
    fixes: &[SharedFix],
    path: &RepoPath,
    bytes: &[u8],
) -> [u8; 32]
    ensures { result ≡ sha256 bytes.now }
{
    if let Some(digest) = digest_in_files(files, path, bytes) {
        return digest;
    }
    if let Some(digest) = digest_in_fixes(fixes, path, bytes) {
        return digest;
    }
    Sha256::digest(bytes)
}

// The digest of contents, if the files have the same contents at the path.
fn digest_in_files(files: &[ListedFile], path: &RepoPath, bytes: &[u8]) -> Option<[u8; 32]>
    ensures { IfSome result (λ digest. digest ≡ sha256 bytes.now) }
{
    match files.binary_search_by(|file| file.path().cmp(path)) {
        Ok(index) => digest_if_same(files[index].content(), bytes),
        Err(_) => None,
    }
}

// The digest of contents, if the fixes give the same contents to the path.
fn digest_in_fixes(fixes: &[SharedFix], path: &RepoPath, bytes: &[u8]) -> Option<[u8; 32]>
    ensures { IfSome result (λ digest. digest ≡ sha256 bytes.now) }
{
    match fixes.binary_search_by(|fix| fix.path.cmp(path)) {
        Ok(index) => match &fixes[index].now {
            Some(content) => digest_if_same(content, bytes),
            None => None,
        },
        Err(_) => None,
    }
}

fn digest_if_same(content: &Content, bytes: &[u8]) -> Option<[u8; 32]>
    ensures { IfSome result (λ digest. digest ≡ sha256 bytes.now) }
{
    if content.as_slice() == bytes {
        return Some(content.digest());
    }
    None
}
