//! Removing all cached answers from the tables: one transaction.

ghost use Rattle.std.specs.Prelude.{◌≡◌, ℕ, List, [], false};
ghost use Rattle.store_tables.specs.Steps.{IsMade};
ghost use Rattle.store_tables.specs.Tables.{Tables, without_answers};
ghost use Rattle.store_tables.specs.Uses.{HoldsRows};
ghost use Rattle.store_tables.specs.declared.rows.UseRow.{UseRow};
ghost use Rattle.repo_store.specs.Answers.{KeptAnswer};
ghost use Rattle.repo_store.specs.Bounded.{HoldsListed};
ghost use Rattle.repo_store.specs.Transactions.{IsCall};

use sqlite::{Alter, Connection, Error, Transaction};
use store_tables::{clear_answers, clear_uses};

fn forget_in<S: Alter>(tx: &mut Transaction<'_, S>) -> Result<(), Error>
    ensures same_reference { tx.new.conn.ghost_name ≡ tx.old.conn.ghost_name }
    ensures made { (t : Tables) (rows : List UseRow)
        → IsMade S.Store tx.old.conn.now tx.new.conn.now result (λ db. HoldsRows db t rows)
        (λ db. HoldsRows db (without_answers t) []) }
{
    clear_answers(tx)?;
    clear_uses(tx)
}

/// Removes all cached answers and their uses, in one transaction.
pub(crate) fn forget_rows<S: Alter>(conn: &mut Connection<S>) -> Result<(), Error>
    requires { conn.old.in_transaction ≡ false }
    ensures { (t : Tables) (next : ℕ) (answers : List KeptAnswer)
        → IsCall S.Store conn.old conn.new result (λ db. HoldsListed next answers db t)
        (λ db. HoldsListed next [] db (without_answers t)) }
{
    let mut tx = conn.transaction();
    forget_in(&mut tx)?;
    tx.commit()
}
