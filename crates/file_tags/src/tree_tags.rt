//! The tags of all files of a tree, computed, or shared with those of an older tree.
//!
//! The contracts cite `specs/TreeTags.antt` and `specs/ChangedFiles.antt`.

ghost use Rattle.std.specs.Prelude.{◌≡◌, ◌++◌, ◌<◌, drop, IfOk, OnOk};
ghost use Rattle.std.specs.Option.{option_copied};
ghost use Rattle.hook_base.specs.Rising.{IsRisingBy};
ghost use Rattle.file_tags.specs.ChangedFiles.{IsChangedAt, first_cmp, row_with};
ghost use Rattle.file_tags.specs.TagTables.{texts_of};
ghost use Rattle.file_tags.specs.TreeTags.{tags_of_row, tags_of_tree};

use crate::rules::tags_of;
use crate::shared_tags::SharedTags;
use hook_base::{File, FileEntry, OutOfMemory, RepoPath, Tree};
use std::alloc::Global;
use std::cmp::Ordering;

/// The tags of each file, in the order of the tree. `OutOfMemory` if memory is refused.
pub(crate) fn tags_of_tree(alloc: Global, tree: &Tree) -> Result<Vec<SharedTags>, OutOfMemory>
    ensures { IfOk result (λ tags. tags.items ≡ tags_of_tree tree.now) }
{
    let mut tags = Vec::with_capacity(alloc, tree.len())?;
    'rows: for index in 0..tree.len() {
        tags.push(tags_of_row(alloc, tree.entry(index))?)?;
    }
    Ok(tags)
}

#[tactic(auto, unfolding(crate::specs::TreeTags::tags_of_row))]
fn tags_of_row(alloc: Global, row: &File) -> Result<SharedTags, OutOfMemory>
    ensures { IfOk result (λ tags. tags ≡ tags_of_row row.now) }
{
    SharedTags::new(alloc, tags_of(alloc, &row.path, &row.entry)?)
}

/// The tags of the files of the tree `new`, given those of the tree `old`. The trees differ only at these
/// paths, which are sorted. The tags of the files there are computed, and the others shared. `OutOfMemory`
/// if memory is refused.
pub(crate) fn tags_after(
    alloc: Global,
    tags: &[SharedTags],
    old: &Tree,
    new: &Tree,
    paths: &[&RepoPath],
) -> Result<Vec<SharedTags>, OutOfMemory>
    requires held { tags.now ≡ tags_of_tree old.now }
    requires rising { IsRisingBy (λ path. path) (texts_of paths.now) }
    requires changed { IsChangedAt (texts_of paths.now) old.now new.now }
    ensures { IfOk result (λ after. after.items ≡ tags_of_tree new.now) }
{
    let count = old.len();
    let mut after = Vec::with_capacity(alloc, new.len())?;
    let mut index = 0;
    let mut next = 0;
    // Rows and paths both rise, so the first path left is that of the current row or of a later one.
    'rows: while index < count {
        let row = old.entry(index);
        match first_cmp(paths, next, &row.path) {
            Ordering::Less => next += 1,
            Ordering::Equal => {
                push_tags(alloc, &mut after, &row.path, new.get(&row.path))?;
                index += 1;
            }
            Ordering::Greater => {
                after.push(tags[index].clone()?)?;
                index += 1;
            }
        }
    }
    Ok(after)
}

// How the first of the paths from an index on compares to a path: `Greater` if there is none.
fn first_cmp(paths: &[&RepoPath], next: usize, path: &RepoPath) -> Ordering
    ensures { result ≡ first_cmp (drop next (texts_of paths.now)) path.now }
{
    match paths.get(next) {
        Some(first) => first.cmp(&path),
        None => Ordering::Greater,
    }
}

// Appends the tags of the file at a path, if there is one.
#[tactic(auto, unfolding(crate::specs::TreeTags::tags_of_row))]
fn push_tags(
    alloc: Global,
    tags: &mut Vec<SharedTags>,
    path: &RepoPath,
    found: Option<&FileEntry>,
) -> Result<(), OutOfMemory>
    ensures { OnOk result (tags.new.items ≡ tags.old.items ++ tags_of_tree
        (row_with path.now (option_copied found.entry))) }
{
    if let Some(entry) = found {
        let made = tags_of(alloc, path, entry)?;
        tags.push(SharedTags::new(alloc, made)?)?;
    }
    Ok(())
}
