//! Edits of rows that rise, each at one path.

ghost use Rattle.std.specs.Prelude.{◌≡◌, is_some, IfOk, OnOk, OnErr};
ghost use Rattle.hook_base.specs.Trees.{IsRising, entry_of, put_row, remove_file};

use crate::row_place::{RowPlace, place_for, place_of};
use crate::{OutOfMemory, RepoPath, SharedFile};

/// Replaces the row of the same path, or adds the row. A refusal leaves the rows as they were.
pub(crate) fn put_row(rows: &mut Vec<SharedFile>, row: SharedFile) -> Result<(), OutOfMemory>
    requires { IsRising rows.old.items }
    ensures put { OnOk result (rows.new.items ≡ put_row row rows.old.items) }
    ensures kept { OnErr result (rows.new.items ≡ rows.old.items) }
    ensures rising { IsRising rows.new.items }
{
    match place_for(rows.as_slice(), &row.as_file().path) {
        RowPlace::At(index) => rows[index] = row,
        RowPlace::Before(index) => rows.insert(index, row)?,
    }
    Ok(())
}

/// Removes the row of a path, and answers whether there was one.
pub(crate) fn remove_row(rows: &mut Vec<SharedFile>, path: &RepoPath) -> bool
    requires { IsRising rows.old.items }
    ensures found { result ≡ is_some (entry_of path.now rows.old.items) }
    ensures removed { rows.new.items ≡ remove_file path.now rows.old.items }
    ensures rising { IsRising rows.new.items }
{
    match place_of(rows.as_slice(), path) {
        RowPlace::At(index) => {
            rows.remove(index);
            true
        }
        RowPlace::Before(_) => false,
    }
}

/// A copy of the rows, or `OutOfMemory` if memory is refused.
pub(crate) fn copy_rows(rows: &Vec<SharedFile>) -> Result<Vec<SharedFile>, OutOfMemory>
    ensures { IfOk result (λ copy. copy.items ≡ rows.now.items) }
{
    Ok(rows.clone()?)
}
