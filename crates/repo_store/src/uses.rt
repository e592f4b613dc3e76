//! The uses of the cached answers in the tables, which give the order of the answers: one transaction for
//! each change. A key is the digests of the records of an answer's words and of the files that its child saw.

ghost use Rattle.std.specs.Prelude.{◌≡◌, ℕ, ◌+◌, ◌≤◌, List, [], ◌++◌, pos, false, length, map, reverse, OnOk};
ghost use Rattle.std.specs.List.{AllByRecursion};
ghost use Rattle.store_tables.specs.Steps.{IsMade};
ghost use Rattle.store_tables.specs.Tables.{Tables, with_new_meta, without_answer};
ghost use Rattle.store_tables.specs.Uses.{HoldsRows, with_use, without_use};
ghost use Rattle.store_tables.specs.declared.rows.UseRow.{UseRow};
ghost use Rattle.repo_store.specs.Answers.{HaveOwnKeys, KeptAnswer};
ghost use Rattle.repo_store.specs.Bounded.{HoldsListed};
ghost use Rattle.repo_store.specs.Index.{key_of};
ghost use Rattle.repo_store.specs.Remembered.{TellsKey};
ghost use Rattle.repo_store.specs.Rows.{limit_row};
ghost use Rattle.repo_store.specs.Transactions.{IsCall};
ghost use Rattle.repo_store.specs.UsedAnswers.{in_front};
ghost use Rattle.repo_store.specs.UsesOf.{TellTheirKeys, greatest_tick, key_rows, without_all, without_uses_of};

use crate::limits::GREATEST_TICK;
use sqlite::{Alter, Connection, Error, ErrorCode, Transaction};
use store_tables::{change_nothing, clear_uses, put_use, replace_meta, take_answer, take_use};

// Notes the use of the answer under a key that has none, with a tick that no other has.
fn put_in<S: Alter>(
    tx: &mut Transaction<'_, S>,
    words: &[u8],
    seen: &[u8],
    tick: u64,
) -> Result<(), Error>
    requires { tick ≤ greatest_tick }
    ensures same_reference { tx.new.conn.ghost_name ≡ tx.old.conn.ghost_name }
    ensures made { (t : Tables) (rows : List UseRow)
        → IsMade S.Store tx.old.conn.now tx.new.conn.now result (λ db. HoldsRows db t rows)
        (λ db. HoldsRows db t (with_use (record { words = words.now; seen = seen.now; tick = pos tick }) rows)) }
{
    put_use(tx, words, seen, tick as i64)
}

/// Gives the use of the answer under a key this tick, in place of the one that it had.
pub(crate) fn use_in<S: Alter>(
    tx: &mut Transaction<'_, S>,
    words: &[u8],
    seen: &[u8],
    tick: u64,
) -> Result<(), Error>
    requires { tick ≤ greatest_tick }
    ensures same_reference { tx.new.conn.ghost_name ≡ tx.old.conn.ghost_name }
    ensures made { (t : Tables) (rows : List UseRow)
        → IsMade S.Store tx.old.conn.now tx.new.conn.now result (λ db. HoldsRows db t rows)
        (λ db. HoldsRows db t (with_use (record { words = words.now; seen = seen.now; tick = pos tick })
        (without_use words.now seen.now rows))) }
{
    take_use(tx, words, seen)?;
    put_in(tx, words, seen, tick)
}

/// Brings the answer under a key to the front, with this tick, in one transaction.
pub(crate) fn use_rows<S: Alter>(
    conn: &mut Connection<S>,
    words: &[u8],
    seen: &[u8],
    tick: u64,
) -> Result<(), Error>
    requires outside { conn.old.in_transaction ≡ false }
    requires fits { tick ≤ greatest_tick }
    ensures { (t : Tables) (answers : List KeptAnswer) (answer : KeptAnswer) → key_of answer ≡ (words.now, seen.now)
        → AllByRecursion (TellsKey answer) answers → 1 ≤ tick
        → IsCall S.Store conn.old conn.new result (λ db. HoldsListed tick answers db t)
        (λ db. HoldsListed (tick + 1) (in_front answer answers) db t) }
{
    let mut tx = conn.transaction();
    use_in(&mut tx, words, seen, tick)?;
    tx.commit()
}

/// Removes the answer under a key, and its use.
pub(crate) fn drop_in<S: Alter>(
    tx: &mut Transaction<'_, S>,
    words: &[u8],
    seen: &[u8],
) -> Result<(), Error>
    ensures same_reference { tx.new.conn.ghost_name ≡ tx.old.conn.ghost_name }
    ensures made { (t : Tables) (rows : List UseRow)
        → IsMade S.Store tx.old.conn.now tx.new.conn.now result (λ db. HoldsRows db t rows)
        (λ db. HoldsRows db (without_answer words.now seen.now t) (without_use words.now seen.now rows)) }
{
    take_answer(tx, words, seen)?;
    take_use(tx, words, seen)
}

// `TooBig` if there are more keys than ticks.
fn check_count(keys: &[([u8; 32], [u8; 32])]) -> Result<(), Error>
    ensures { OnOk result (length keys.now ≤ greatest_tick) }
{
    if keys.len() as u64 > GREATEST_TICK {
        return Err(Error::SqliteFailure(ErrorCode::TooBig));
    }
    Ok(())
}

/// Gives each of the keys, none of which has a use yet, a tick: 1, 2 and so on. The keys come in the order of
/// their last uses, the least recent first. `TooBig` comes if there are more keys than ticks.
pub(crate) fn number_in<S: Alter>(
    tx: &mut Transaction<'_, S>,
    keys: &[([u8; 32], [u8; 32])],
) -> Result<(), Error>
    ensures same_reference { tx.new.conn.ghost_name ≡ tx.old.conn.ghost_name }
    ensures few { OnOk result (length keys.now ≤ greatest_tick) }
    ensures made { (t : Tables) → IsMade S.Store tx.old.conn.now tx.new.conn.now result (λ db. HoldsRows db t [])
        (λ db. HoldsRows db t (key_rows (reverse keys.now))) }
{
    change_nothing(tx)?;
    check_count(keys)?;
    let mut tick = 0;
    'keys: for key in keys {
        tick += 1;
        put_in(tx, &key.0, &key.1, tick)?;
    }
    Ok(())
}

// Renumbers the uses of all answers.
fn renumber_in<S: Alter>(
    tx: &mut Transaction<'_, S>,
    keys: &[([u8; 32], [u8; 32])],
) -> Result<(), Error>
    ensures same_reference { tx.new.conn.ghost_name ≡ tx.old.conn.ghost_name }
    ensures made { (t : Tables) (rows : List UseRow)
        → IsMade S.Store tx.old.conn.now tx.new.conn.now result (λ db. HoldsRows db t rows)
        (λ db. HoldsRows db t (key_rows (reverse keys.now))) }
{
    clear_uses(tx)?;
    number_in(tx, keys)
}

/// Renumbers the uses of all answers, from 1 on, in one transaction (docs/REFERENCE.md, "The store"). The
/// keys are those of all answers, that of the least recently used first.
pub(crate) fn renumber_rows<S: Alter>(
    conn: &mut Connection<S>,
    keys: &[([u8; 32], [u8; 32])],
) -> Result<(), Error>
    requires { conn.old.in_transaction ≡ false }
    ensures { (t : Tables) (next : ℕ) (answers : List KeptAnswer) → keys.now ≡ map key_of (reverse answers)
        → IsCall S.Store conn.old conn.new result (λ db. HoldsListed next answers db t)
        (λ db. HoldsListed (length answers + 1) answers db t) }
{
    let mut tx = conn.transaction();
    renumber_in(&mut tx, keys)?;
    tx.commit()
}

/// Removes the answers under these keys, and their uses.
pub(crate) fn drop_all_in<S: Alter>(
    tx: &mut Transaction<'_, S>,
    keys: &[([u8; 32], [u8; 32])],
) -> Result<(), Error>
    ensures same_reference { tx.new.conn.ghost_name ≡ tx.old.conn.ghost_name }
    ensures made { (t : Tables) (rows : List UseRow)
        → IsMade S.Store tx.old.conn.now tx.new.conn.now result (λ db. HoldsRows db t rows)
        (λ db. HoldsRows db (without_all keys.now t) (without_uses_of keys.now rows)) }
{
    change_nothing(tx)?;
    'keys: for key in keys {
        drop_in(tx, &key.0, &key.1)?;
    }
    Ok(())
}

// Removes the answers under these keys, and sets the limit.
fn limit_in<S: Alter>(
    tx: &mut Transaction<'_, S>,
    keys: &[([u8; 32], [u8; 32])],
    limit: u32,
) -> Result<(), Error>
    ensures same_reference { tx.new.conn.ghost_name ≡ tx.old.conn.ghost_name }
    ensures made { (t : Tables) (rows : List UseRow)
        → IsMade S.Store tx.old.conn.now tx.new.conn.now result (λ db. HoldsRows db t rows)
        (λ db. HoldsRows db (with_new_meta (limit_row (pos limit)) (without_all keys.now t))
        (without_uses_of keys.now rows)) }
{
    drop_all_in(tx, keys)?;
    replace_meta(tx, "limit", limit)
}

/// Sets the limit, and removes the answers beyond it, in one transaction. The keys are those of the answers
/// to remove, that of the least recently used first.
pub(crate) fn limit_rows<S: Alter>(
    conn: &mut Connection<S>,
    keys: &[([u8; 32], [u8; 32])],
    limit: u32,
) -> Result<(), Error>
    requires { conn.old.in_transaction ≡ false }
    ensures { (t : Tables) (next : ℕ) (front : List KeptAnswer) (back : List KeptAnswer)
        → keys.now ≡ map key_of (reverse back) → HaveOwnKeys (front ++ back) → TellTheirKeys (front ++ back) back
        → IsCall S.Store conn.old conn.new result (λ db. HoldsListed next (front ++ back) db t)
        (λ db. HoldsListed next front db (with_new_meta (limit_row (pos limit)) (without_all keys.now t))) }
{
    let mut tx = conn.transaction();
    limit_in(&mut tx, keys, limit)?;
    tx.commit()
}
