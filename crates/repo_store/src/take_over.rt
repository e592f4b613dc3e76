//! Finds the store in a database that is opened. A store of version 1 is migrated to version 2.

ghost use Rattle.std.specs.Prelude.{◌≡◌, false, IfOk, IsTrue};
ghost use Rattle.sqlite.specs.Effect.{IsDatabase};
ghost use Rattle.sqlite.specs.Held.{state};
ghost use Rattle.store_tables.specs.Schema.{store_schema};
ghost use Rattle.repo_store.specs.Complete.{IsComplete};
ghost use Rattle.repo_store.specs.ListedAnswers.{IsNextTick};
ghost use Rattle.repo_store.specs.Opening.{IsOpening, IsTakingOver};
ghost use Rattle.repo_store.specs.Rows.{tables_of};
ghost use Rattle.repo_store.specs.RowRules.{AreStoreRows};

use crate::StoreFault;
use crate::lists::Lists;
use crate::migrate::migrate_rows;
use crate::opening::{has_first_tables, has_tables, read_first, read_store};
use sqlite::{Alter, Connection};
use std::alloc::Global;
use store_faults::{FIRST_LIMIT, fault_of};

// Reads a store of version 1, and migrates it in one transaction.
fn take_over<S: Alter>(alloc: Global, conn: &mut Connection<S>) -> Result<Lists, StoreFault>
    requires outside { conn.old.in_transaction ≡ false }
    requires ours { (state S.Store conn.old).now.schema ≡ store_schema }
    requires live { IsTrue (state S.Store conn.old).is_open → IsDatabase (state S.Store conn.old).now }
    requires settled { IsTrue (state S.Store conn.old).is_open
        → (state S.Store conn.old).now ≡ (state S.Store conn.old).committed }
    ensures taken { IsTakingOver S.Store conn.old conn.new result }
    ensures next { IfOk result (λ lists. IsNextTick lists.next) }
    ensures complete { IfOk result (λ lists. IsComplete lists.kept) }
    ensures obeys { IfOk result (λ lists. AreStoreRows (tables_of lists.kept)) }
{
    let mut lists = read_first(alloc, conn)?;
    let keys = lists.answer_keys()?;
    let dropped = keys.len().saturating_sub(FIRST_LIMIT as usize);
    if let Err(error) = migrate_rows(conn, keys.as_slice(), dropped) {
        return Err(fault_of(error));
    }
    lists.limit_answers(FIRST_LIMIT);
    lists.set_next(keys.len() as u64 + 1);
    Ok(lists)
}

/// The store in a database, outside a transaction. A store of version 1 is migrated.
pub(crate) fn find_store<S: Alter>(
    alloc: Global,
    conn: &mut Connection<S>,
) -> Result<Lists, StoreFault>
    requires { conn.old.in_transaction ≡ false }
    ensures { IsOpening S.Store conn.old conn.new result }
{
    if has_tables(conn) {
        return read_store(alloc, conn);
    }
    if has_first_tables(conn) {
        return take_over(alloc, conn);
    }
    Err(StoreFault::NotAStore)
}
