//! A staged file in the tables: one transaction.

ghost use Rattle.std.specs.Prelude.{◌≡◌, ℕ, List, false};
ghost use Rattle.store_tables.specs.Steps.{IsStep};
ghost use Rattle.store_tables.specs.Tables.{Tables, with_staged, without_staged, without_fixes};
ghost use Rattle.repo_store.specs.Answers.{KeptAnswer};
ghost use Rattle.repo_store.specs.Bounded.{HoldsListed};
ghost use Rattle.repo_store.specs.Transactions.{IsCall};
ghost use Rattle.repo_store.specs.Lists.{file_of};
ghost use Rattle.repo_store.specs.Rows.{with_blobs, staged_row};

use crate::blobs::keep_in;
use crate::mode::number_of;
use crate::shared::ListedFile;
use hook_base::Content;
use sqlite::{Alter, Connection, Error, Transaction};
use store_tables::{clear_fixes, put_staged, take_staged};

fn stage_in<S: Alter>(
    tx: &mut Transaction<'_, S>,
    news: &[Content],
    file: &ListedFile,
) -> Result<(), Error>
    ensures same_reference { tx.new.conn.ghost_name ≡ tx.old.conn.ghost_name }
    ensures step { IsStep S.Store tx.old.conn.now tx.new.conn.now result
        (λ t. with_staged (staged_row (file_of file.now))
        (without_staged file.now.path (without_fixes (with_blobs news.now t)))) }
{
    keep_in(tx, news)?;
    clear_fixes(tx)?;
    take_staged(tx, file.path().as_str())?;
    put_staged(
        tx,
        file.path().as_str(),
        number_of(file.mode()),
        &file.content().digest(),
    )
}

/// Stages a file, keeps the blobs that the table lacks, and forgets the fixes, in one transaction.
pub(crate) fn stage_rows<S: Alter>(
    conn: &mut Connection<S>,
    news: &[Content],
    file: &ListedFile,
) -> Result<(), Error>
    requires { conn.old.in_transaction ≡ false }
    ensures { (t : Tables) (next : ℕ) (answers : List KeptAnswer)
        → IsCall S.Store conn.old conn.new result (λ db. HoldsListed next answers db t)
        (λ db. HoldsListed next answers db (with_staged (staged_row (file_of file.now))
        (without_staged file.now.path (without_fixes (with_blobs news.now t))))) }
{
    let mut tx = conn.transaction();
    stage_in(&mut tx, news, file)?;
    tx.commit()
}
