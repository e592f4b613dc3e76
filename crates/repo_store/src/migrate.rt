//! The migration of a store from version 1 to version 2 (docs/REFERENCE.md, "A store of version 1").

ghost use Rattle.std.specs.Prelude.{◌≡◌, false, ℕ, ◌+◌, ◌≤◌, List, [], ◌++◌, pos, length, map, reverse, take, OnOk};
ghost use Rattle.store_tables.specs.Steps.{IsMade};
ghost use Rattle.store_tables.specs.Tables.{AreKeyed, HoldsTables, Tables, with_meta, with_new_meta};
ghost use Rattle.store_tables.specs.Uses.{HoldsRows};
ghost use Rattle.repo_store.specs.Answers.{HaveOwnKeys, KeptAnswer};
ghost use Rattle.repo_store.specs.Bounded.{HoldsListed};
ghost use Rattle.repo_store.specs.Index.{key_of};
ghost use Rattle.store_faults.specs.Limits.{first_limit};
ghost use Rattle.repo_store.specs.Rows.{limit_row, version_row};
ghost use Rattle.repo_store.specs.Transactions.{IsCall};
ghost use Rattle.repo_store.specs.UsesOf.{TellTheirKeys, greatest_tick, key_rows, without_all, without_uses_of};

use crate::uses::{drop_all_in, number_in};
use sqlite::{Alter, Connection, Error, Transaction};
use store_faults::FIRST_LIMIT;
use store_tables::{make_uses, put_meta, replace_meta};

// Makes the table of uses, numbers the uses of all keys, and removes the answers under the first `dropped`
// keys.
fn list_in<S: Alter>(
    tx: &mut Transaction<'_, S>,
    keys: &[([u8; 32], [u8; 32])],
    dropped: usize,
) -> Result<(), Error>
    requires { dropped ≤ length keys.now }
    ensures same_reference { tx.new.conn.ghost_name ≡ tx.old.conn.ghost_name }
    ensures few { OnOk result (length keys.now ≤ greatest_tick) }
    ensures made { (t : Tables) → IsMade S.Store tx.old.conn.now tx.new.conn.now result
        (λ db. HoldsTables db t × AreKeyed (db.trees 0))
        (λ db. HoldsRows db (without_all (take dropped keys.now) t)
        (without_uses_of (take dropped keys.now) (key_rows (reverse keys.now)))) }
{
    make_uses(tx)?;
    number_in(tx, keys)?;
    drop_all_in(tx, &keys[..dropped])
}

// The same, and writes the limit and the version.
fn mark_in<S: Alter>(
    tx: &mut Transaction<'_, S>,
    keys: &[([u8; 32], [u8; 32])],
    dropped: usize,
) -> Result<(), Error>
    requires { dropped ≤ length keys.now }
    ensures same_reference { tx.new.conn.ghost_name ≡ tx.old.conn.ghost_name }
    ensures few { OnOk result (length keys.now ≤ greatest_tick) }
    ensures made { (t : Tables) → IsMade S.Store tx.old.conn.now tx.new.conn.now result
        (λ db. HoldsTables db t × AreKeyed (db.trees 0))
        (λ db. HoldsRows db (with_new_meta version_row
        (with_meta (limit_row (pos first_limit)) (without_all (take dropped keys.now) t)))
        (without_uses_of (take dropped keys.now) (key_rows (reverse keys.now)))) }
{
    list_in(tx, keys, dropped)?;
    put_meta(tx, "limit", FIRST_LIMIT)?;
    replace_meta(tx, "version", 2)
}

// The same, as a contract on the answers: the keys are those of all answers, the last one first. The first
// `dropped` of them are those of the answers that are removed.
fn migrate_in<S: Alter>(
    tx: &mut Transaction<'_, S>,
    keys: &[([u8; 32], [u8; 32])],
    dropped: usize,
) -> Result<(), Error>
    requires { dropped ≤ length keys.now }
    ensures same_reference { tx.new.conn.ghost_name ≡ tx.old.conn.ghost_name }
    ensures few { OnOk result (length keys.now ≤ greatest_tick) }
    ensures made { (t : Tables) (front : List KeptAnswer) (back : List KeptAnswer)
        → keys.now ≡ map key_of (reverse (front ++ back)) → dropped ≡ length back → HaveOwnKeys (front ++ back)
        → TellTheirKeys (front ++ back) back → IsMade S.Store tx.old.conn.now tx.new.conn.now result
        (λ db. HoldsTables db t × AreKeyed (db.trees 0))
        (λ db. HoldsListed (length (front ++ back) + 1) front db
        (with_new_meta version_row (with_meta (limit_row (pos first_limit))
        (without_all (map key_of (reverse back)) t)))) }
{
    mark_in(tx, keys, dropped)
}

/// Migrates a store from version 1 to version 2, in one transaction. The keys are those of all its answers,
/// the last one first. The first `dropped` of them are those of the answers that are removed. `TooBig` comes
/// if there are more answers than ticks.
pub(crate) fn migrate_rows<S: Alter>(
    conn: &mut Connection<S>,
    keys: &[([u8; 32], [u8; 32])],
    dropped: usize,
) -> Result<(), Error>
    requires outside { conn.old.in_transaction ≡ false }
    requires part { dropped ≤ length keys.now }
    ensures few { OnOk result (length keys.now ≤ greatest_tick) }
    ensures call { (t : Tables) (front : List KeptAnswer) (back : List KeptAnswer)
        → keys.now ≡ map key_of (reverse (front ++ back)) → dropped ≡ length back → HaveOwnKeys (front ++ back)
        → TellTheirKeys (front ++ back) back → IsCall S.Store conn.old conn.new result
        (λ db. HoldsTables db t × AreKeyed (db.trees 0))
        (λ db. (length keys.now ≤ greatest_tick)
        × HoldsListed (length (front ++ back) + 1) front db
        (with_new_meta version_row (with_meta (limit_row (pos first_limit))
        (without_all (map key_of (reverse back)) t)))) }
{
    let mut tx = conn.transaction();
    migrate_in(&mut tx, keys, dropped)?;
    tx.commit()
}
