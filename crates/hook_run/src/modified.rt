//! Whether a hook modified files, as `pre_commit.commands.run._get_diff` finds it out for tracked files.

ghost use Rattle.std.specs.Prelude.{◌≡◌};
ghost use Rattle.std.specs.Option.{option_copied};
ghost use Rattle.hook_base.specs.Trees.{entry_of};
ghost use Rattle.hook_run.specs.PartsEnding.{has_changed, is_modified, is_modified_row, is_tracked};

use hook_base::{File, FileEntry, RepoPath, Tree};

/// Whether a tracked file of the tree `before` is gone from the tree `after`, or has other bytes there.
/// Unlike in `git diff`, a mode doesn't count.
pub fn is_modified(before: &Tree, after: &Tree) -> bool
    ensures { result ≡ is_modified before.now after.now }
{
    'rows: for index in 0..before.len() {
        let row = before.entry(index);
        if is_modified_row(after, index, row) {
            return true;
        }
    }
    false
}

fn is_modified_row(after: &Tree, near: usize, row: &File) -> bool
    ensures { result ≡ is_modified_row after.now row.now }
{
    is_tracked(row) && has_changed(row, entry_near(after, near, &row.path))
}

// What the tree holds at a path. A hook seldom removes files, so each is mostly at the same index as before,
// which is looked at first.
fn entry_near<'a>(tree: &'a Tree, near: usize, path: &RepoPath) -> Option<&'a FileEntry>
    ensures { option_copied result ≡ entry_of path.now tree.now }
{
    if near < tree.len() {
        let row = tree.entry(near);
        if row.path == *path {
            return Some(&row.entry);
        }
    }
    tree.get(path)
}

// The message of a commit isn't tracked: Git keeps it in `.git/COMMIT_EDITMSG` (git-commit(1), "FILES").
fn is_tracked(row: &File) -> bool
    ensures { result ≡ is_tracked row.now }
{
    row.path.as_str() != ".git/COMMIT_EDITMSG"
}

fn has_changed(row: &File, after: Option<&FileEntry>) -> bool
    ensures { result ≡ has_changed row.now (option_copied after.entry) }
{
    match after {
        None => true,
        Some(entry) => row.entry.bytes != entry.bytes,
    }
}
