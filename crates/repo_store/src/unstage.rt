//! Removing a path from the staged files in the tables: one transaction.

ghost use Rattle.std.specs.Prelude.{◌≡◌, ℕ, List, false};
ghost use Rattle.store_tables.specs.Steps.{IsStep};
ghost use Rattle.store_tables.specs.Tables.{Tables, without_staged, without_fixes};
ghost use Rattle.repo_store.specs.Answers.{KeptAnswer};
ghost use Rattle.repo_store.specs.Bounded.{HoldsListed};
ghost use Rattle.repo_store.specs.Transactions.{IsCall};

use hook_base::RepoPath;
use sqlite::{Alter, Connection, Error, Transaction};
use store_tables::{clear_fixes, take_staged};

fn unstage_in<S: Alter>(tx: &mut Transaction<'_, S>, path: &RepoPath) -> Result<(), Error>
    ensures same_reference { tx.new.conn.ghost_name ≡ tx.old.conn.ghost_name }
    ensures step { IsStep S.Store tx.old.conn.now tx.new.conn.now result
        (λ t. without_fixes (without_staged path.now t)) }
{
    take_staged(tx, path.as_str())?;
    clear_fixes(tx)
}

/// Removes a path from the staged files, and forgets the fixes, in one transaction.
pub(crate) fn unstage_rows<S: Alter>(conn: &mut Connection<S>, path: &RepoPath) -> Result<(), Error>
    requires { conn.old.in_transaction ≡ false }
    ensures { (t : Tables) (next : ℕ) (answers : List KeptAnswer)
        → IsCall S.Store conn.old conn.new result (λ db. HoldsListed next answers db t)
        (λ db. HoldsListed next answers db (without_fixes (without_staged path.now t))) }
{
    let mut tx = conn.transaction();
    unstage_in(&mut tx, path)?;
    tx.commit()
}
