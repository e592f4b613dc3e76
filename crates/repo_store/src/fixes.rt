//! The fixes in the tables: one transaction.

ghost use Rattle.std.specs.Prelude.{◌≡◌, ℕ, List, [], false, map, IsTrue};
ghost use Rattle.store_tables.specs.Steps.{IsStep};
ghost use Rattle.store_tables.specs.Tables.{Tables, with_fix};
ghost use Rattle.repo_store.specs.Answers.{KeptAnswer};
ghost use Rattle.repo_store.specs.Bounded.{HoldsListed};
ghost use Rattle.repo_store.specs.Transactions.{IsCall};
ghost use Rattle.repo_store.specs.Lists.{fix_of};
ghost use Rattle.repo_store.specs.Rows.{fix_row, with_blobs, with_fix_rows};

use crate::blobs::{keep_in, keep_rows};
use crate::shared::SharedFix;
use hook_base::Content;
use sqlite::{Alter, Connection, Error, Transaction};
use store_tables::{clear_fixes, put_fix};

fn put_shared<S: Alter>(tx: &mut Transaction<'_, S>, fix: &SharedFix) -> Result<(), Error>
    ensures same_reference { tx.new.conn.ghost_name ≡ tx.old.conn.ghost_name }
    ensures step { IsStep S.Store tx.old.conn.now tx.new.conn.now result (with_fix (fix_row (fix_of fix.entry.now))) }
{
    match &fix.now {
        None => put_fix(tx, fix.path.as_str(), None),
        Some(content) => {
            let digest = content.digest();
            put_fix(tx, fix.path.as_str(), Some(digest.as_slice()))
        }
    }
}

fn put_fixes<S: Alter>(tx: &mut Transaction<'_, S>, fixes: &[SharedFix]) -> Result<(), Error>
    ensures same_reference { tx.new.conn.ghost_name ≡ tx.old.conn.ghost_name }
    ensures step { IsStep S.Store tx.old.conn.now tx.new.conn.now result
        (λ t. with_fix_rows (map fix_row (map fix_of fixes.now)) t) }
{
    clear_fixes(tx)?;
    for fix in fixes {
        put_shared(tx, fix)?;
    }
    Ok(())
}

fn set_in<S: Alter>(
    tx: &mut Transaction<'_, S>,
    news: &[Content],
    fixes: &[SharedFix],
) -> Result<(), Error>
    ensures same_reference { tx.new.conn.ghost_name ≡ tx.old.conn.ghost_name }
    ensures step { IsStep S.Store tx.old.conn.now tx.new.conn.now result
        (λ t. with_fix_rows (map fix_row (map fix_of fixes.now)) (with_blobs news.now t)) }
{
    keep_in(tx, news)?;
    put_fixes(tx, fixes)
}

/// Sets the fixes, and keeps the blobs that the table lacks, in one transaction. If there were no fixes and
/// there are none, the table of fixes isn't touched: nothing is written, and there is no wait for the disk.
pub(crate) fn set_rows<S: Alter>(
    conn: &mut Connection<S>,
    news: &[Content],
    fixes: &[SharedFix],
    were_none: bool,
) -> Result<(), Error>
    requires { conn.old.in_transaction ≡ false }
    ensures { (t : Tables) (next : ℕ) (answers : List KeptAnswer) → (IsTrue were_none → t.fixes ≡ [])
        → IsCall S.Store conn.old conn.new result (λ db. HoldsListed next answers db t)
        (λ db. HoldsListed next answers db (with_fix_rows (map fix_row (map fix_of fixes.now)) (with_blobs news.now t))) }
{
    if were_none && fixes.is_empty() {
        return keep_rows(conn, news);
    }
    replace_rows(conn, news, fixes)
}

// Replaces the fixes, and keeps the blobs that the table lacks, in one transaction.
fn replace_rows<S: Alter>(
    conn: &mut Connection<S>,
    news: &[Content],
    fixes: &[SharedFix],
) -> Result<(), Error>
    requires { conn.old.in_transaction ≡ false }
    ensures { (t : Tables) (next : ℕ) (answers : List KeptAnswer)
        → IsCall S.Store conn.old conn.new result (λ db. HoldsListed next answers db t)
        (λ db. HoldsListed next answers db (with_fix_rows (map fix_row (map fix_of fixes.now)) (with_blobs news.now t))) }
{
    let mut tx = conn.transaction();
    set_in(&mut tx, news, fixes)?;
    tx.commit()
}
