//! Reads a store from a database: whether its tables are there, of which version they are, and what they
//! hold.

ghost use Rattle.std.specs.Prelude.{◌≡◌, ◌↔◌, ℕ, false, IsTrue, IfOk};
ghost use Rattle.sqlite.specs.Effect.{IsDatabase};
ghost use Rattle.sqlite.specs.Held.{state};
ghost use Rattle.store_tables.specs.Schema.{schema_with_uses, store_schema};
ghost use Rattle.repo_store.specs.Answers.{HaveOwnKeys};
ghost use Rattle.repo_store.specs.Complete.{IsComplete};
ghost use Rattle.repo_store.specs.Kept.{limiting};
ghost use Rattle.store_faults.specs.Limits.{IsLimit, first_limit};
ghost use Rattle.repo_store.specs.ListedAnswers.{IsNextTick};
ghost use Rattle.repo_store.specs.Opening.{AreListed, AreListedAlone, IsFoundFirst, IsFoundIn};
ghost use Rattle.repo_store.specs.Rows.{first_tables_of, tables_of};
ghost use Rattle.repo_store.specs.RowRules.{AreStoreRows};
ghost use Rattle.repo_store.specs.Standing.{TellKeys};

use crate::StoreFault;
use crate::from_rows::{first_lists_of, second_lists_of};
use crate::lists::Lists;
use crate::table_rows::read_tables;
use sqlite::{Alter, Connection, Transaction};
use std::alloc::Global;
use store_faults::fault_of;
use store_tables::{has_store_tables, has_uses_tables, read_uses_by_tick};

/// Reads a store of version 1 inside a transaction, and changes nothing. The lists have all its answers, even
/// if they are more than the limit.
pub(crate) fn read_first_in<S: Alter>(
    alloc: Global,
    tx: &mut Transaction<'_, S>,
) -> Result<Lists, StoreFault>
    ensures same_reference { tx.new.conn.ghost_name ≡ tx.old.conn.ghost_name }
    ensures listed { AreListed store_schema IsFoundFirst S.Store tx.old.conn.now tx.new.conn.now result }
    ensures limit { IfOk result (λ lists. lists.kept.limit ≡ first_limit) }
    ensures next { IfOk result (λ lists. lists.next ≡ 1) }
    ensures complete { IfOk result (λ lists. (limit : ℕ) → IsLimit limit → IsComplete (limiting limit lists.kept)) }
    ensures answers { IfOk result (λ lists. HaveOwnKeys lists.kept.answers × TellKeys lists.kept.answers) }
    ensures obeys { IfOk result (λ lists. AreStoreRows (first_tables_of lists.kept)) }
{
    match read_tables(alloc, tx) {
        Ok(tables) => first_lists_of(alloc, tables),
        Err(error) => Err(fault_of(error)),
    }
}

/// Reads a store of version 2 inside a transaction, and changes nothing.
pub(crate) fn read_second_in<S: Alter>(
    alloc: Global,
    tx: &mut Transaction<'_, S>,
) -> Result<Lists, StoreFault>
    ensures same_reference { tx.new.conn.ghost_name ≡ tx.old.conn.ghost_name }
    ensures listed { AreListed schema_with_uses IsFoundIn S.Store tx.old.conn.now tx.new.conn.now result }
    ensures next { IfOk result (λ lists. IsNextTick lists.next) }
    ensures complete { IfOk result (λ lists. IsComplete lists.kept) }
    ensures obeys { IfOk result (λ lists. AreStoreRows (tables_of lists.kept)) }
{
    match read_tables(alloc, tx) {
        Ok(tables) => match read_uses_by_tick(alloc, tx) {
            Ok(uses) => second_lists_of(alloc, tables, uses),
            Err(error) => Err(fault_of(error)),
        },
        Err(error) => Err(fault_of(error)),
    }
}

/// Whether the database, outside a transaction, has exactly the tables of version 1.
pub(crate) fn has_first_tables<S: Alter>(conn: &Connection<S>) -> bool
    requires { conn.now.in_transaction ≡ false }
    ensures ours { IsTrue result ↔ ((state S.Store conn.now).now.schema ≡ store_schema) }
    ensures live { IsTrue (state S.Store conn.now).is_open → IsDatabase (state S.Store conn.now).now }
    ensures settled { IsTrue (state S.Store conn.now).is_open
        → (state S.Store conn.now).now ≡ (state S.Store conn.now).committed }
{
    let _settled = conn.is_autocommit();
    has_store_tables(conn)
}

/// Whether the database, outside a transaction, has exactly the tables of version 2.
pub(crate) fn has_tables<S: Alter>(conn: &Connection<S>) -> bool
    requires { conn.now.in_transaction ≡ false }
    ensures ours { IsTrue result ↔ ((state S.Store conn.now).now.schema ≡ schema_with_uses) }
    ensures live { IsTrue (state S.Store conn.now).is_open → IsDatabase (state S.Store conn.now).now }
    ensures settled { IsTrue (state S.Store conn.now).is_open
        → (state S.Store conn.now).now ≡ (state S.Store conn.now).committed }
{
    let _settled = conn.is_autocommit();
    has_uses_tables(conn)
}

/// Reads all tables of a store of version 2 in one transaction, which changes nothing.
pub(crate) fn read_store<S: Alter>(
    alloc: Global,
    conn: &mut Connection<S>,
) -> Result<Lists, StoreFault>
    requires { conn.old.in_transaction ≡ false }
    ensures read { AreListedAlone schema_with_uses IsFoundIn S.Store conn.old conn.new result }
    ensures next { IfOk result (λ lists. IsNextTick lists.next) }
    ensures complete { IfOk result (λ lists. IsComplete lists.kept) }
    ensures obeys { IfOk result (λ lists. AreStoreRows (tables_of lists.kept)) }
{
    let mut tx = conn.transaction();
    read_second_in(alloc, &mut tx)
}

/// Reads all tables of a store of version 1 in one transaction, which changes nothing. The lists have all its
/// answers, even if they are more than the limit.
pub(crate) fn read_first<S: Alter>(
    alloc: Global,
    conn: &mut Connection<S>,
) -> Result<Lists, StoreFault>
    requires { conn.old.in_transaction ≡ false }
    ensures read { AreListedAlone store_schema IsFoundFirst S.Store conn.old conn.new result }
    ensures complete { IfOk result (λ lists. (limit : ℕ) → IsLimit limit → IsComplete (limiting limit lists.kept)) }
    ensures answers { IfOk result (λ lists. HaveOwnKeys lists.kept.answers × TellKeys lists.kept.answers) }
    ensures obeys { IfOk result (λ lists. AreStoreRows (first_tables_of lists.kept)) }
{
    let mut tx = conn.transaction();
    read_first_in(alloc, &mut tx)
}
