//! All rows, as they are read, of the seven tables that both versions of a store have.

ghost use Rattle.std.specs.Prelude.{◌≡◌};
ghost use Rattle.repo_store.specs.FromRows.{AreShown, AreTablesShown};
ghost use Rattle.repo_store.specs.Opening.{AreRead};

use sqlite::{Alter, Error, Transaction};
use std::alloc::Global;
use store_tables::{
    AnswerRow, BlobRow, CommitRow, EntryRow, FixRow, MetaRow, StagedRow, read_answers, read_blobs,
    read_commits, read_entries, read_fixes, read_meta, read_staged,
};

/// The rows of all tables except `meta`.
#[derive(Drop)]
pub(crate) struct StoreRows {
    pub(crate) blobs: Vec<BlobRow>,
    pub(crate) staged: Vec<StagedRow>,
    pub(crate) fixes: Vec<FixRow>,
    pub(crate) commits: Vec<CommitRow>,
    pub(crate) entries: Vec<EntryRow>,
    pub(crate) answers: Vec<AnswerRow>,
}

/// The rows of all seven tables.
#[derive(Drop)]
pub(crate) struct TableRows {
    pub(crate) meta: Vec<MetaRow>,
    pub(crate) store: StoreRows,
}

// Reads all tables except `meta`.
fn read_rows<S: Alter>(alloc: Global, tx: &mut Transaction<'_, S>) -> Result<StoreRows, Error>
    ensures same_reference { tx.new.conn.ghost_name ≡ tx.old.conn.ghost_name }
    ensures read { AreRead S.Store tx.old.conn.now tx.new.conn.now result AreShown }
{
    let answers = read_answers(alloc, tx)?;
    let blobs = read_blobs(alloc, tx)?;
    let staged = read_staged(alloc, tx)?;
    let fixes = read_fixes(alloc, tx)?;
    let commits = read_commits(alloc, tx)?;
    let entries = read_entries(alloc, tx)?;
    Ok(StoreRows {
        blobs,
        staged,
        fixes,
        commits,
        entries,
        answers,
    })
}

/// Reads all seven tables.
pub(crate) fn read_tables<S: Alter>(
    alloc: Global,
    tx: &mut Transaction<'_, S>,
) -> Result<TableRows, Error>
    ensures same_reference { tx.new.conn.ghost_name ≡ tx.old.conn.ghost_name }
    ensures read { AreRead S.Store tx.old.conn.now tx.new.conn.now result AreTablesShown }
{
    let meta = read_meta(alloc, tx)?;
    let store = read_rows(alloc, tx)?;
    Ok(TableRows { meta, store })
}
