//! The staged files with the fixes applied. They are made before the tables change, so that nothing can fail
//! after that.

ghost use Rattle.std.specs.Prelude.{◌≡◌, map, IfOk};
ghost use Rattle.hook_base.specs.Trees.{IsRising, IsRisingChanges, apply_changes};
ghost use Rattle.repo_store.specs.Accepted.{HasAcceptedFiles, accepted_files};
ghost use Rattle.store_faults.specs.Limits.{Fits, path_bytes as path_bytes_of};
ghost use Rattle.repo_store.specs.Lists.{file_of, fix_of};

use crate::few_fixes::{files_with_fix, settle_all};
use crate::files::count_path_bytes;
use crate::fixed_files::with_fixes;
use crate::shared::{ListedFile, SharedFix};
use hook_base::OutOfMemory;
use std::alloc::Global;

// From this many files to one fix, looking up the file of each fix is quicker than a walk over all files.
const FILES_TO_A_FIX: usize = 64;

// At most this many files are removed one by one, since each removal moves all files after it.
const MOST_TAKEN_OUT: usize = 8;

/// What the fixes make of the staged files.
#[derive(Drop)]
pub(crate) enum Accepted {
    /// If there are few fixes: the files at their paths, with the fixes applied.
    Few(Vec<ListedFile>),
    /// All files.
    All(Vec<ListedFile>),
}

// Whether it is quicker to apply the fixes one by one. Both ways give the same files.
fn are_few(files: &[ListedFile], fixes: &[SharedFix]) -> bool {
    let mut gone = 0;
    'fixes: for fix in fixes {
        if fix.now.is_none() {
            gone += 1;
        }
    }
    gone <= MOST_TAKEN_OUT && fixes.len() <= files.len() / FILES_TO_A_FIX
}

impl Accepted {
    /// What the fixes make of the files.
    pub(crate) fn of(
        alloc: Global,
        files: &[ListedFile],
        fixes: &[SharedFix],
    ) -> Result<Accepted, OutOfMemory>
        requires files { IsRising (map file_of files.now) }
        requires fixes { IsRisingChanges (map fix_of fixes.now) }
        ensures accepted { IfOk result (HasAcceptedFiles (map fix_of fixes.now) (map file_of files.now)) }
        ensures rising { IfOk result (λ accepted. IsRising (map file_of (accepted_files accepted))) }
    {
        if are_few(files, fixes) {
            let found = files_with_fix(alloc, files, fixes)?;
            let few = with_fixes(alloc, found.as_slice(), fixes)?;
            return Ok(Accepted::Few(few));
        }
        let all = with_fixes(alloc, files, fixes)?;
        Ok(Accepted::All(all))
    }

    pub(crate) fn as_slice(&self) -> &[ListedFile]
        ensures { result.now ≡ accepted_files self.now }
    {
        match self {
            Accepted::Few(files) | Accepted::All(files) => files.as_slice(),
        }
    }

    /// Applies the fixes to the files, whose paths have `path_bytes` bytes together. Returns that sum for the
    /// new files.
    pub(crate) fn put_into(
        self,
        files: &mut Vec<ListedFile>,
        path_bytes: usize,
        fixes: &[SharedFix],
    ) -> usize
        requires accepted { HasAcceptedFiles (map fix_of fixes.now) (map file_of files.old.items) self }
        requires accepted_rise { IsRising (map file_of (accepted_files self)) }
        requires files_rise { IsRising (map file_of files.old.items) }
        requires fixes_rise { IsRisingChanges (map fix_of fixes.now) }
        requires fits { Fits (map file_of files.old.items) }
        requires counted { path_bytes ≡ path_bytes_of (map file_of files.old.items) }
        ensures files { map file_of files.new.items
            ≡ apply_changes (map fix_of fixes.now) (map file_of files.old.items) }
        ensures counted { result ≡ path_bytes_of (map file_of files.new.items) }
    {
        match self {
            Accepted::Few(few) => path_bytes - settle_all(files, few, fixes),
            Accepted::All(all) => {
                let bytes = count_path_bytes(all.as_slice());
                *files = all;
                bytes
            }
        }
    }
}
