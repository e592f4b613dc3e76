//! The statements that make, read and change the table of uses, which only version 2 of a store has
//! (docs/REFERENCE.md, "The store"). An error is the database's own, or in a read lack of memory. Then the
//! statement isn't done, or the whole transaction is rolled back. Nothing is committed, and all other tables
//! stay as they were.

ghost use Rattle.std.specs.Prelude.{◌≡◌};
ghost use Rattle.store_tables.specs.Steps.{IsChange};
ghost use Rattle.store_tables.specs.Uses.{AddsUses, ChangesUses, HoldsUses, IsReadOfUses, MakesBareUses, MakesUses, with_use, without_use, without_uses};

use crate::rowids::decoded_apart;
use crate::rows::UseRow;
use sqlite::{Alter, Error, Transaction, params};
use std::alloc::Global;

/// Makes the table after the seven of version 1, which keep their rows.
pub fn make_uses<S: Alter>(tx: &mut Transaction<'_, S>) -> Result<(), Error>
    ensures same_reference { tx.new.conn.ghost_name ≡ tx.old.conn.ghost_name }
    ensures step { IsChange S.Store tx.old.conn.now tx.new.conn.now result MakesBareUses }
    ensures only { IsChange S.Store tx.old.conn.now tx.new.conn.now result AddsUses }
{
    tx.execute(
        "CREATE TABLE uses (words BLOB NOT NULL, seen BLOB NOT NULL, tick INTEGER NOT NULL UNIQUE, PRIMARY KEY (words, seen)) STRICT",
        &[],
    )?;
    Ok(())
}

/// The uses, in the order of their keys. `InvalidQuery` comes if two rows have the same rowid, which a table
/// excludes. `NoRowid` comes if one has the greatest rowid, since no row could be added after it.
pub fn read_uses<S: Alter>(alloc: Global, tx: &mut Transaction<'_, S>) -> Result<Vec<UseRow>, Error>
    ensures same_reference { tx.new.conn.ghost_name ≡ tx.old.conn.ghost_name }
    ensures read { IsReadOfUses S.Store tx.old.conn.now tx.new.conn.now result
        (λ rows trees. HoldsUses trees rows.items) }
{
    let shown = tx.query_all(
        "SELECT rowid, words, seen, tick FROM uses ORDER BY words, seen",
        &[],
    )?;
    decoded_apart(alloc, shown)
}

/// The uses in the order of their ticks, that of the least recently used answer first; otherwise as
/// `read_uses`.
pub fn read_uses_by_tick<S: Alter>(
    alloc: Global,
    tx: &mut Transaction<'_, S>,
) -> Result<Vec<UseRow>, Error>
    ensures same_reference { tx.new.conn.ghost_name ≡ tx.old.conn.ghost_name }
    ensures read { IsReadOfUses S.Store tx.old.conn.now tx.new.conn.now result
        (λ rows trees. HoldsUses trees rows.items) }
{
    let shown = tx.query_all(
        "SELECT rowid, words, seen, tick FROM uses ORDER BY tick",
        &[],
    )?;
    decoded_apart(alloc, shown)
}

/// Notes a use of the answer under a key that has none, with a tick that no other has.
pub fn put_use<S: Alter>(
    tx: &mut Transaction<'_, S>,
    words: &[u8],
    seen: &[u8],
    tick: i64,
) -> Result<(), Error>
    ensures same_reference { tx.new.conn.ghost_name ≡ tx.old.conn.ghost_name }
    ensures step { IsChange S.Store tx.old.conn.now tx.new.conn.now result
        (MakesUses (with_use (record { words = words.now; seen = seen.now; tick = tick }))) }
    ensures only { IsChange S.Store tx.old.conn.now tx.new.conn.now result ChangesUses }
{
    tx.execute(
        "INSERT INTO uses (words, seen, tick) VALUES (?1, ?2, ?3)",
        params![words, seen, tick],
    )?;
    Ok(())
}

/// Removes the use of the answer under a key, if there is one.
pub fn take_use<S: Alter>(
    tx: &mut Transaction<'_, S>,
    words: &[u8],
    seen: &[u8],
) -> Result<(), Error>
    ensures same_reference { tx.new.conn.ghost_name ≡ tx.old.conn.ghost_name }
    ensures step { IsChange S.Store tx.old.conn.now tx.new.conn.now result
        (MakesUses (without_use words.now seen.now)) }
    ensures only { IsChange S.Store tx.old.conn.now tx.new.conn.now result ChangesUses }
{
    tx.execute(
        "DELETE FROM uses WHERE words = ?1 AND seen = ?2",
        params![words, seen],
    )?;
    Ok(())
}

/// Removes all uses.
pub fn clear_uses<S: Alter>(tx: &mut Transaction<'_, S>) -> Result<(), Error>
    ensures same_reference { tx.new.conn.ghost_name ≡ tx.old.conn.ghost_name }
    ensures step { IsChange S.Store tx.old.conn.now tx.new.conn.now result (MakesUses without_uses) }
    ensures only { IsChange S.Store tx.old.conn.now tx.new.conn.now result ChangesUses }
{
    tx.execute("DELETE FROM uses", &[])?;
    Ok(())
}
