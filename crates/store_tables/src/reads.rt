//! One query for each table. A contract says which rows are returned; a test shows that they come in the
//! requested order. An error is the database's own or lack of memory, or `InvalidQuery` where a function says
//! so; nothing is changed.
//!
//! `NoRowid` comes if a row has the greatest rowid, since no row could be added after it. This isn't tested
//! for `commits`, whose rowids are its numbers.

ghost use Rattle.std.specs.Prelude.{◌≡◌, [], ◌∷◌, true};
ghost use Rattle.sqlite_rules.specs.Edit.{have_rowids};
ghost use Rattle.store_tables.specs.Steps.{IsRead};
ghost use Rattle.store_tables.specs.Tables.{Stored, AreKeyed, meta_cells, blob_cells, staged_cells, fix_cells, commit_cells, entry_cells, answer_cells};

use crate::columns::decoded;
use crate::rowids::{decoded_apart, rowids_in};
use crate::rows::{AnswerRow, BlobRow, CommitRow, EntryRow, FixRow, MetaRow, StagedRow};
use sqlite::{Alter, Error, Transaction};
use std::alloc::Global;

/// All numbers that the store keeps about itself, in the order of their names. `InvalidQuery` comes if two
/// rows have the same rowid, which a table excludes.
pub fn read_meta<S: Alter>(
    alloc: Global,
    tx: &mut Transaction<'_, S>,
) -> Result<Vec<MetaRow>, Error>
    ensures same_reference { tx.new.conn.ghost_name ≡ tx.old.conn.ghost_name }
    ensures read { IsRead S.Store tx.old.conn.now tx.new.conn.now result
        (λ rows trees. Stored meta_cells (1 ∷ 2 ∷ []) rows.items (trees 0)) }
    ensures keyed { IsRead S.Store tx.old.conn.now tx.new.conn.now result (λ rows trees. AreKeyed (trees 0)) }
{
    let shown = tx.query_all("SELECT rowid, name, value FROM meta ORDER BY name", &[])?;
    decoded_apart(alloc, shown)
}

/// All blobs, in the order of their digests.
pub fn read_blobs<S: Alter>(
    alloc: Global,
    tx: &mut Transaction<'_, S>,
) -> Result<Vec<BlobRow>, Error>
    ensures same_reference { tx.new.conn.ghost_name ≡ tx.old.conn.ghost_name }
    ensures read { IsRead S.Store tx.old.conn.now tx.new.conn.now result
        (λ rows trees. Stored blob_cells (1 ∷ 2 ∷ []) rows.items (trees 2)) }
{
    let shown = tx.query_all(
        "SELECT rowid, digest, bytes FROM blobs ORDER BY digest",
        &[],
    )?;
    let _rowids = rowids_in(alloc, &shown)?;
    decoded(alloc, shown, 1)
}

/// All commits, in the order of their numbers.
pub fn read_commits<S: Alter>(
    alloc: Global,
    tx: &mut Transaction<'_, S>,
) -> Result<Vec<CommitRow>, Error>
    ensures same_reference { tx.new.conn.ghost_name ≡ tx.old.conn.ghost_name }
    ensures read { IsRead S.Store tx.old.conn.now tx.new.conn.now result
        (λ rows trees. Stored commit_cells (0 ∷ 2 ∷ []) rows.items (trees 8)) }
{
    let shown = tx.query_all("SELECT n, message FROM commits ORDER BY n", &[])?;
    decoded(alloc, shown, 0)
}

/// The files of all commits, in the order of the commits' numbers and then of the paths.
pub fn read_entries<S: Alter>(
    alloc: Global,
    tx: &mut Transaction<'_, S>,
) -> Result<Vec<EntryRow>, Error>
    ensures same_reference { tx.new.conn.ghost_name ≡ tx.old.conn.ghost_name }
    ensures read { IsRead S.Store tx.old.conn.now tx.new.conn.now result
        (λ rows trees. Stored entry_cells (1 ∷ 2 ∷ 3 ∷ 4 ∷ []) rows.items (trees 9)) }
{
    let shown = tx.query_all(
        "SELECT rowid, n, path, mode, digest FROM entries ORDER BY n, path",
        &[],
    )?;
    let _rowids = rowids_in(alloc, &shown)?;
    decoded(alloc, shown, 1)
}

/// The staged files, in the order of their paths. `InvalidQuery` comes if two rows have the same rowid, which
/// a table excludes.
pub fn read_staged<S: Alter>(
    alloc: Global,
    tx: &mut Transaction<'_, S>,
) -> Result<Vec<StagedRow>, Error>
    ensures same_reference { tx.new.conn.ghost_name ≡ tx.old.conn.ghost_name }
    ensures read { IsRead S.Store tx.old.conn.now tx.new.conn.now result
        (λ rows trees. Stored staged_cells (1 ∷ 2 ∷ 3 ∷ []) rows.items (trees 4) × AreKeyed (trees 4)) }
{
    let shown = tx.query_all(
        "SELECT rowid, path, mode, digest FROM staged ORDER BY path",
        &[],
    )?;
    decoded_apart(alloc, shown)
}

/// The fixes, in the order of their paths.
pub fn read_fixes<S: Alter>(
    alloc: Global,
    tx: &mut Transaction<'_, S>,
) -> Result<Vec<FixRow>, Error>
    ensures same_reference { tx.new.conn.ghost_name ≡ tx.old.conn.ghost_name }
    ensures read { IsRead S.Store tx.old.conn.now tx.new.conn.now result
        (λ rows trees. Stored fix_cells (1 ∷ 2 ∷ 3 ∷ []) rows.items (trees 6) × (have_rowids (trees 6) ≡ true)) }
{
    let shown = tx.query_all(
        "SELECT rowid, path, gone, digest FROM fixes ORDER BY path",
        &[],
    )?;
    let _rowids = rowids_in(alloc, &shown)?;
    decoded(alloc, shown, 1)
}

/// The cached answers, in the order of their keys. `InvalidQuery` comes if two rows have the same rowid,
/// which a table excludes.
pub fn read_answers<S: Alter>(
    alloc: Global,
    tx: &mut Transaction<'_, S>,
) -> Result<Vec<AnswerRow>, Error>
    ensures same_reference { tx.new.conn.ghost_name ≡ tx.old.conn.ghost_name }
    ensures read { IsRead S.Store tx.old.conn.now tx.new.conn.now result
        (λ rows trees. Stored answer_cells (1 ∷ 2 ∷ 3 ∷ 4 ∷ 5 ∷ []) rows.items (trees 11) × AreKeyed (trees 11)) }
{
    let shown = tx.query_all(
        "SELECT rowid, words, seen, output, changes, status FROM answers ORDER BY words, seen",
        &[],
    )?;
    decoded_apart(alloc, shown)
}
