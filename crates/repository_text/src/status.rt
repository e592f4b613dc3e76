//! The text that `status` prints (docs/REFERENCE.md, "The command line").
//!
//! The contracts cite `specs/StatusText.antt`; `specs/StatusWalk.antt` is for private functions.

ghost use Rattle.std.specs.Prelude.{◌≡◌, ◌++◌, IfOk, OnOk, drop};
ghost use Rattle.repo_store.specs.Repository.{last_tree};
ghost use Rattle.repository_text.specs.StatusText.{change_line_at, paths_of_both, status_text};
ghost use Rattle.repository_text.specs.StatusWalk.{mark_of, paths_from_next};

use hook_base::{OutOfMemory, RepoPath};
use repo_store::Store;
use report_text::{push, push_line};
use sqlite::Alter;
use std::alloc::Global;
use std::cmp::Ordering;

// The next path in the walk over the staged files and those of the last commit, and which of the two have it.
enum Next<'a> {
    Over,
    Staged(&'a RepoPath),
    Last(&'a RepoPath),
    Both(&'a RepoPath),
}

/// How the staged files differ from those of the last commit, a line for each path.
pub fn status_text<S: Alter>(alloc: Global, store: &Store<S>) -> Result<Vec<u8>, OutOfMemory>
    ensures { IfOk result (λ text. text.items
        ≡ status_text store.now.kept.repo.staged (last_tree store.now.kept.repo.history)) }
{
    let mut text = Vec::new(alloc);
    push_change_lines(&mut text, store)?;
    Ok(text)
}

fn push_change_lines<S: Alter>(text: &mut Vec<u8>, store: &Store<S>) -> Result<(), OutOfMemory>
    ensures { OnOk result (text.new.items ≡ text.old.items ++ status_text store.now.kept.repo.staged
        (last_tree store.now.kept.repo.history)) }
{
    let mut staged = 0;
    let mut last = 0;
    'paths: for _turn in 0..usize::MAX {
        match next_of(store, staged, last) {
            Next::Over => return Ok(()),
            Next::Staged(path) => {
                push_change_line(text, store, path)?;
                staged += 1;
            }
            Next::Last(path) => {
                push_change_line(text, store, path)?;
                last += 1;
            }
            Next::Both(path) => {
                push_change_line(text, store, path)?;
                staged += 1;
                last += 1;
            }
        }
    }
    // No memory holds so many files.
    Err(OutOfMemory)
}

// The next step of the walk over both trees, after `staged` of the staged files and `last` of the last
// commit's.
fn next_of<'a, S: Alter>(store: &'a Store<S>, staged: usize, last: usize) -> Next<'a>
    ensures { paths_of_both (drop staged store.now.kept.repo.staged) (drop last (last_tree store.now.kept.repo.history))
        ≡ paths_from_next store.now.kept.repo.staged (last_tree store.now.kept.repo.history) staged last result }
{
    match (store.staged_file(staged), store.head_file(last)) {
        (None, None) => Next::Over,
        (Some(file), None) => Next::Staged(file.path),
        (None, Some(file)) => Next::Last(file.path),
        (Some(file), Some(other)) => match file.path.cmp(other.path) {
            Ordering::Less => Next::Staged(file.path),
            Ordering::Equal => Next::Both(file.path),
            Ordering::Greater => Next::Last(other.path),
        },
    }
}

fn push_change_line<S: Alter>(
    text: &mut Vec<u8>,
    store: &Store<S>,
    path: &RepoPath,
) -> Result<(), OutOfMemory>
    ensures { OnOk result (text.new.items ≡ text.old.items ++ change_line_at store.now.kept.repo.staged
        (last_tree store.now.kept.repo.history) path.now) }
{
    if !store.differs_from_head_at(path) {
        return Ok(());
    }
    push(text, mark_of(store.is_staged(path), store.is_in_head(path)))?;
    push_line(text, path.as_str().as_bytes())
}

// The mark that a path's line begins with.
fn mark_of(is_staged: bool, is_in_head: bool) -> &'static [u8]
    ensures { result.now ≡ mark_of is_staged is_in_head }
{
    match (is_staged, is_in_head) {
        (true, false) => b"A ",
        (false, true) => b"D ",
        _ => b"M ",
    }
}
