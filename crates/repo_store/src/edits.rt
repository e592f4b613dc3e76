//! Several changes of the staged files in the tables: one transaction.

ghost use Rattle.std.specs.Prelude.{◌≡◌, ℕ, List, false, map};
ghost use Rattle.store_tables.specs.Steps.{IsStep};
ghost use Rattle.store_tables.specs.Tables.{Tables, without_fixes};
ghost use Rattle.repo_store.specs.Rows.{with_blobs, with_staged_rows};
ghost use Rattle.repo_store.specs.SharedEdits.{all_rows, edit_of, edited_rows};
ghost use Rattle.repo_store.specs.Answers.{KeptAnswer};
ghost use Rattle.repo_store.specs.Bounded.{HoldsListed};
ghost use Rattle.repo_store.specs.Transactions.{IsCall};

use crate::blobs::keep_in;
use crate::mode::number_of;
use crate::shared_edit::SharedEdit;
use hook_base::Content;
use sqlite::{Alter, Connection, Error, Transaction};
use store_tables::{clear_fixes, put_staged, take_staged};

// Removes the row at the path of an edit, and adds the edit's file, if any.
fn edit_row<S: Alter>(tx: &mut Transaction<'_, S>, edit: &SharedEdit) -> Result<(), Error>
    ensures same_reference { tx.new.conn.ghost_name ≡ tx.old.conn.ghost_name }
    ensures step { IsStep S.Store tx.old.conn.now tx.new.conn.now result
        (λ t. with_staged_rows (edited_rows (edit_of edit.now) t.staged) t) }
{
    take_staged(tx, edit.path.as_str())?;
    match &edit.file {
        Some(file) => put_staged(
            tx,
            edit.path.as_str(),
            number_of(file.mode()),
            &file.content().digest(),
        ),
        None => Ok(()),
    }
}

fn edit_in<S: Alter>(
    tx: &mut Transaction<'_, S>,
    news: &[Content],
    edits: &[SharedEdit],
) -> Result<(), Error>
    ensures same_reference { tx.new.conn.ghost_name ≡ tx.old.conn.ghost_name }
    ensures step { IsStep S.Store tx.old.conn.now tx.new.conn.now result
        (λ t. with_staged_rows (all_rows (map edit_of edits.now) t.staged) (without_fixes (with_blobs news.now t))) }
{
    keep_in(tx, news)?;
    clear_fixes(tx)?;
    'edits: for edit in edits {
        edit_row(tx, edit)?;
    }
    Ok(())
}

/// Makes the edits one after another, keeps the blobs that the table lacks, and forgets the fixes, in one
/// transaction.
pub(crate) fn edit_rows<S: Alter>(
    conn: &mut Connection<S>,
    news: &[Content],
    edits: &[SharedEdit],
) -> Result<(), Error>
    requires { conn.old.in_transaction ≡ false }
    ensures { (t : Tables) (next : ℕ) (answers : List KeptAnswer)
        → IsCall S.Store conn.old conn.new result (λ db. HoldsListed next answers db t)
        (λ db. HoldsListed next answers db (with_staged_rows (all_rows (map edit_of edits.now) t.staged)
        (without_fixes (with_blobs news.now t)))) }
{
    let mut tx = conn.transaction();
    edit_in(&mut tx, news, edits)?;
    tx.commit()
}
