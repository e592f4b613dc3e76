//! The statements that make the seven tables of version 1, each after those that it refers to
//! (docs/REFERENCE.md, "The store").

ghost use Rattle.std.specs.Prelude.{◌≡◌};
ghost use Rattle.store_tables.specs.Schema.{no_schema};
ghost use Rattle.store_tables.specs.Steps.{IsMade};
ghost use Rattle.store_tables.specs.Tables.{IsBare, IsEmptyStore, first_tables};

use sqlite::{Alter, Error, Transaction};

fn make_meta<S: Alter>(tx: &mut Transaction<'_, S>) -> Result<(), Error>
    ensures same_reference { tx.new.conn.ghost_name ≡ tx.old.conn.ghost_name }
    ensures made { IsMade S.Store tx.old.conn.now tx.new.conn.now result (IsBare (first_tables 0 0))
        (IsBare (first_tables 1 1)) }
{
    tx.execute(
        "CREATE TABLE meta (name TEXT PRIMARY KEY, value INTEGER NOT NULL) STRICT",
        &[],
    )?;
    Ok(())
}

fn make_blobs<S: Alter>(tx: &mut Transaction<'_, S>) -> Result<(), Error>
    ensures same_reference { tx.new.conn.ghost_name ≡ tx.old.conn.ghost_name }
    ensures made { IsMade S.Store tx.old.conn.now tx.new.conn.now result (IsBare (first_tables 1 1))
        (IsBare (first_tables 2 2)) }
{
    tx.execute(
        "CREATE TABLE blobs (digest BLOB PRIMARY KEY, bytes BLOB NOT NULL) STRICT",
        &[],
    )?;
    Ok(())
}

fn make_staged<S: Alter>(tx: &mut Transaction<'_, S>) -> Result<(), Error>
    ensures same_reference { tx.new.conn.ghost_name ≡ tx.old.conn.ghost_name }
    ensures made { IsMade S.Store tx.old.conn.now tx.new.conn.now result (IsBare (first_tables 2 2))
        (IsBare (first_tables 3 3)) }
{
    tx.execute(
        "CREATE TABLE staged (path TEXT PRIMARY KEY, mode INTEGER NOT NULL, digest BLOB NOT NULL REFERENCES blobs) STRICT",
        &[],
    )?;
    Ok(())
}

fn make_fixes<S: Alter>(tx: &mut Transaction<'_, S>) -> Result<(), Error>
    ensures same_reference { tx.new.conn.ghost_name ≡ tx.old.conn.ghost_name }
    ensures made { IsMade S.Store tx.old.conn.now tx.new.conn.now result (IsBare (first_tables 3 3))
        (IsBare (first_tables 4 4)) }
{
    tx.execute(
        "CREATE TABLE fixes (path TEXT PRIMARY KEY, gone INTEGER NOT NULL, digest BLOB REFERENCES blobs) STRICT",
        &[],
    )?;
    Ok(())
}

fn make_commits<S: Alter>(tx: &mut Transaction<'_, S>) -> Result<(), Error>
    ensures same_reference { tx.new.conn.ghost_name ≡ tx.old.conn.ghost_name }
    ensures made { IsMade S.Store tx.old.conn.now tx.new.conn.now result (IsBare (first_tables 4 4))
        (IsBare (first_tables 5 4)) }
{
    tx.execute(
        "CREATE TABLE commits (n INTEGER PRIMARY KEY, message BLOB NOT NULL) STRICT",
        &[],
    )?;
    Ok(())
}

fn make_entries<S: Alter>(tx: &mut Transaction<'_, S>) -> Result<(), Error>
    ensures same_reference { tx.new.conn.ghost_name ≡ tx.old.conn.ghost_name }
    ensures made { IsMade S.Store tx.old.conn.now tx.new.conn.now result (IsBare (first_tables 5 4))
        (IsBare (first_tables 6 5)) }
{
    tx.execute(
        "CREATE TABLE entries (n INTEGER NOT NULL REFERENCES commits, path TEXT NOT NULL, mode INTEGER NOT NULL, digest BLOB NOT NULL REFERENCES blobs, PRIMARY KEY (n, path)) STRICT",
        &[],
    )?;
    Ok(())
}

fn make_answers<S: Alter>(tx: &mut Transaction<'_, S>) -> Result<(), Error>
    ensures same_reference { tx.new.conn.ghost_name ≡ tx.old.conn.ghost_name }
    ensures made { IsMade S.Store tx.old.conn.now tx.new.conn.now result (IsBare (first_tables 6 5))
        (IsBare (first_tables 7 6)) }
{
    tx.execute(
        "CREATE TABLE answers (words BLOB NOT NULL REFERENCES blobs, seen BLOB NOT NULL REFERENCES blobs, output BLOB NOT NULL REFERENCES blobs, changes BLOB NOT NULL REFERENCES blobs, status INTEGER NOT NULL, PRIMARY KEY (words, seen)) STRICT",
        &[],
    )?;
    Ok(())
}

/// Makes the seven tables of version 1 in a database without tables, indexes and views.
pub fn make_tables<S: Alter>(tx: &mut Transaction<'_, S>) -> Result<(), Error>
    ensures same_reference { tx.new.conn.ghost_name ≡ tx.old.conn.ghost_name }
    ensures made { IsMade S.Store tx.old.conn.now tx.new.conn.now result (IsBare no_schema) IsEmptyStore }
{
    make_meta(tx)?;
    make_blobs(tx)?;
    make_staged(tx)?;
    make_fixes(tx)?;
    make_commits(tx)?;
    make_entries(tx)?;
    make_answers(tx)?;
    Ok(())
}
