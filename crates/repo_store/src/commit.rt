//! A commit in the tables: one transaction.

ghost use Rattle.std.specs.Prelude.{◌≡◌, ℕ, List, false, map, pos};
ghost use Rattle.store_tables.specs.Steps.{IsStep};
ghost use Rattle.store_tables.specs.Tables.{Tables, with_commit, without_fixes};
ghost use Rattle.repo_store.specs.Answers.{KeptAnswer};
ghost use Rattle.repo_store.specs.Bounded.{HoldsListed};
ghost use Rattle.repo_store.specs.Transactions.{IsCall};
ghost use Rattle.repo_store.specs.Lists.{file_of};
ghost use Rattle.repo_store.specs.Rows.{entry_row, with_entries};

use crate::mode::number_of;
use crate::shared::{ListedFile, SharedCommit};
use sqlite::{Alter, Connection, Error, Transaction};
use store_tables::{change_nothing, clear_fixes, put_commit, put_entry};

fn put_files<S: Alter>(
    tx: &mut Transaction<'_, S>,
    n: u32,
    files: &[ListedFile],
) -> Result<(), Error>
    ensures same_reference { tx.new.conn.ghost_name ≡ tx.old.conn.ghost_name }
    ensures step { IsStep S.Store tx.old.conn.now tx.new.conn.now result
        (λ t. with_entries (map (entry_row n) (map file_of files.now)) t) }
{
    change_nothing(tx)?;
    for file in files {
        put_entry(
            tx,
            n,
            file.path().as_str(),
            number_of(file.mode()),
            &file.content().digest(),
        )?;
    }
    Ok(())
}

fn commit_in<S: Alter>(
    tx: &mut Transaction<'_, S>,
    n: u32,
    commit: &SharedCommit,
) -> Result<(), Error>
    ensures same_reference { tx.new.conn.ghost_name ≡ tx.old.conn.ghost_name }
    ensures step { IsStep S.Store tx.old.conn.now tx.new.conn.now result
        (λ t. without_fixes (with_entries (map (entry_row n) (map file_of commit.now.files.items))
        (with_commit (record { n = pos n; message = commit.now.message }) t))) }
{
    put_commit(tx, n, commit.message.as_slice())?;
    put_files(tx, n, commit.files.as_slice())?;
    clear_fixes(tx)
}

/// Adds a commit with its files, and forgets the fixes, in one transaction.
pub(crate) fn commit_rows<S: Alter>(
    conn: &mut Connection<S>,
    n: u32,
    commit: &SharedCommit,
) -> Result<(), Error>
    requires { conn.old.in_transaction ≡ false }
    ensures { (t : Tables) (next : ℕ) (answers : List KeptAnswer)
        → IsCall S.Store conn.old conn.new result (λ db. HoldsListed next answers db t)
        (λ db. HoldsListed next answers db (without_fixes
        (with_entries (map (entry_row n) (map file_of commit.now.files.items))
        (with_commit (record { n = pos n; message = commit.now.message }) t)))) }
{
    let mut tx = conn.transaction();
    commit_in(&mut tx, n, commit)?;
    tx.commit()
}
