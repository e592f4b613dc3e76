//! The tables of an empty store of version 2, made in one transaction (docs/REFERENCE.md, "The store").

ghost use Rattle.std.specs.Prelude.{◌≡◌, [], false, IsTrue};
ghost use Rattle.store_tables.specs.Schema.{no_schema};
ghost use Rattle.store_tables.specs.Steps.{IsMade};
ghost use Rattle.store_tables.specs.Tables.{IsBare};
ghost use Rattle.repo_store.specs.Bounded.{HoldsNext};
ghost use Rattle.repo_store.specs.Transactions.{IsCall};
ghost use Rattle.repo_store.specs.Kept.{nothing_kept};
ghost use Rattle.sqlite.specs.Held.{state};

use sqlite::{Alter, Connection, Error, Transaction};
use store_faults::FIRST_LIMIT;
use store_tables::{make_tables, make_uses, put_meta};

fn make_in<S: Alter>(tx: &mut Transaction<'_, S>) -> Result<(), Error>
    ensures same_reference { tx.new.conn.ghost_name ≡ tx.old.conn.ghost_name }
    ensures made { IsMade S.Store tx.old.conn.now tx.new.conn.now result (IsBare no_schema)
        (λ db. HoldsNext 1 db nothing_kept) }
{
    make_tables(tx)?;
    make_uses(tx)?;
    put_meta(tx, "limit", FIRST_LIMIT)?;
    put_meta(tx, "version", 2)
}

pub(crate) fn make<S: Alter>(conn: &mut Connection<S>) -> Result<(), Error>
    requires { conn.old.in_transaction ≡ false }
    ensures { IsCall S.Store conn.old conn.new result (IsBare no_schema) (λ db. HoldsNext 1 db nothing_kept) }
{
    let mut tx = conn.transaction();
    make_in(&mut tx)?;
    tx.commit()
}

/// Whether the database, outside a transaction, has no tables, indexes or views.
pub(crate) fn has_no_tables<S: Alter>(conn: &Connection<S>) -> bool
    requires { conn.now.in_transaction ≡ false }
    ensures bare { IsTrue result → IsTrue (state S.Store conn.now).is_open
        → IsBare no_schema (state S.Store conn.now).now }
    ensures settled { IsTrue (state S.Store conn.now).is_open
        → (state S.Store conn.now).now ≡ (state S.Store conn.now).committed }
{
    let _settled = conn.is_autocommit();
    let schema = conn.schema();
    schema.tables.is_empty() && schema.indexes.is_empty() && schema.views.is_empty()
}
