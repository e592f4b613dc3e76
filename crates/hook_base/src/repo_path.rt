//! Paths inside a repository.

ghost use Rattle.std.specs.Prelude.{◌≡◌, ◌⊎◌, None, Some, IfOk, IfErr};
ghost use Rattle.hook_base.specs.Paths.{IsRepoPath, path_fault, message_path};

use crate::path_check::fault_of;
use crate::{OutOfMemory, PathFault};
use std::alloc::{AllocError, Global};
use std::cmp::Ordering;
use std::marker::Model;

/// The path of a file inside a repository. It has parts between slashes, none of them empty, `.` or `..`, and
/// the first isn't `.git`. It has no control byte, and at most [`MOST_PATH_BYTES`](crate::MOST_PATH_BYTES)
/// bytes. The path of the message of a commit is one too. Paths are ordered by their bytes. Contracts see the
/// list of these.
#[derive(Debug, Drop)]
pub struct RepoPath {
    text: String,
}

impl Model for RepoPath {
    ghost use Rattle.std.specs.Prelude.{List, ℕ, string_bytes};

    ghost Value = { List ℕ };

    ghost use Rattle.hook_base.specs.Paths.{IsRepoPath};

    ghost view = { λ path. string_bytes path.text };

    ghost invariant = { λ path. IsRepoPath (string_bytes path.text) };
}

impl RepoPath {
    /// Accepts a text as a path. A text that isn't one is refused with its first fault in the order of
    /// [`PathFault`]. A legal path is refused only if memory is: `OutOfMemory` never hides another fault.
    pub fn read(alloc: Global, text: &str) -> Result<RepoPath, PathFault>
        ensures taken { IfOk result (λ path. (path ≡ text.now) × (path_fault text.now ≡ None)) }
        ensures refused { IfErr result (λ fault. ((fault ≡ PathFault.OutOfMemory) × (path_fault text.now ≡ None))
            ⊎ (path_fault text.now ≡ Some fault)) }
    {
        if let Some(fault) = fault_of(text) {
            return Err(fault);
        }
        let text = String::from_str(alloc, text)?;
        Ok(RepoPath { text })
    }

    /// The path of the message of a commit, `.git/COMMIT_EDITMSG` (githooks(5), "commit-msg"; git-commit(1),
    /// "FILES"). `OutOfMemory` if memory is refused.
    pub fn message(alloc: Global) -> Result<RepoPath, OutOfMemory>
        ensures { IfOk result (λ path. path ≡ message_path) }
    {
        let text = String::from_str(alloc, ".git/COMMIT_EDITMSG")?;
        Ok(RepoPath { text })
    }

    /// The path as text.
    pub fn as_str(&self) -> &str
        ensures same { result.now ≡ self.now }
        ensures path { IsRepoPath self.now }
    {
        self.text.as_str()
    }
}

impl Clone for RepoPath {
    ghost use Rattle.std.specs.Prelude.{◌≡◌};

    ghost is_clone = { λ source made. made ≡ source };

    fn clone(&self) -> Result<Self, AllocError> {
        Ok(RepoPath {
            text: self.text.clone()?,
        })
    }
}

impl PartialEq for RepoPath {
    ghost use Rattle.std.specs.Prelude.{nat_eq};
    ghost use Rattle.std.specs.Cmp.{partial_equiv_from_equiv};
    ghost use Rattle.std.specs.Cmp.Lexicographic.{nat_list_eq_equiv, pointwise};

    ghost eq = { pointwise nat_eq };

    ghost laws = { partial_equiv_from_equiv nat_list_eq_equiv };

    fn eq(&self, other: &Self) -> bool {
        self.text == other.text
    }
}

impl Eq for RepoPath {
    ghost use Rattle.std.specs.Cmp.Lexicographic.{nat_list_eq_equiv};

    ghost laws = { nat_list_eq_equiv };
}

impl PartialOrd for RepoPath {
    ghost use Rattle.std.specs.Prelude.{Some};
    ghost use Rattle.std.specs.Ordering.{nat_cmp};
    ghost use Rattle.std.specs.Cmp.Lexicographic.{slice_cmp, texts_po};

    ghost partial_cmp = { λ a b. Some (slice_cmp nat_cmp a b) };

    ghost laws = { texts_po };

    fn partial_cmp(&self, other: &Self) -> Option<Ordering> {
        Some(self.cmp(other))
    }
}

impl Ord for RepoPath {
    ghost use Rattle.std.specs.Prelude.{refl};
    ghost use Rattle.std.specs.Ordering.{nat_cmp};
    ghost use Rattle.std.specs.Cmp.Lexicographic.{nat_list_cmp_total, slice_cmp, texts_ties};

    ghost cmp = { slice_cmp nat_cmp };

    ghost total = { nat_list_cmp_total };

    ghost matches_partial_cmp = { λ a b. refl };

    ghost matches_eq = { texts_ties };

    fn cmp(&self, other: &Self) -> Ordering {
        self.text.cmp(&other.text)
    }
}
