//! Blobs in the tables.

ghost use Rattle.std.specs.Prelude.{◌≡◌, ℕ, List, false};
ghost use Rattle.store_tables.specs.Steps.{IsStep};
ghost use Rattle.store_tables.specs.Tables.{Tables};
ghost use Rattle.repo_store.specs.Answers.{KeptAnswer};
ghost use Rattle.repo_store.specs.Bounded.{HoldsListed};
ghost use Rattle.repo_store.specs.Transactions.{IsCall};
ghost use Rattle.repo_store.specs.Rows.{with_blobs};

use hook_base::Content;
use sqlite::{Alter, Connection, Error, Transaction};
use store_tables::{change_nothing, put_blob};

/// Keeps blobs that the table lacks.
pub(crate) fn keep_in<S: Alter>(tx: &mut Transaction<'_, S>, news: &[Content]) -> Result<(), Error>
    ensures same_reference { tx.new.conn.ghost_name ≡ tx.old.conn.ghost_name }
    ensures step { IsStep S.Store tx.old.conn.now tx.new.conn.now result (λ t. with_blobs news.now t) }
{
    change_nothing(tx)?;
    for content in news {
        put_blob(tx, &content.digest(), content.as_slice())?;
    }
    Ok(())
}

/// Keeps blobs that the table lacks, in one transaction.
pub(crate) fn keep_rows<S: Alter>(conn: &mut Connection<S>, news: &[Content]) -> Result<(), Error>
    requires { conn.old.in_transaction ≡ false }
    ensures { (t : Tables) (next : ℕ) (answers : List KeptAnswer)
        → IsCall S.Store conn.old conn.new result (λ db. HoldsListed next answers db t)
        (λ db. HoldsListed next answers db (with_blobs news.now t)) }
{
    let mut tx = conn.transaction();
    keep_in(&mut tx, news)?;
    tx.commit()
}
