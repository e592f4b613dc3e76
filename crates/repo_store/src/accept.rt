//! Accepting the fixes in the tables: one transaction, which writes only the rows of the fixed files.

ghost use Rattle.std.specs.Prelude.{◌≡◌, ℕ, List, false, map};
ghost use Rattle.hook_base.specs.Trees.{IsRising};
ghost use Rattle.store_tables.specs.Steps.{IsStep};
ghost use Rattle.store_tables.specs.Tables.{Tables, without_fixes};
ghost use Rattle.repo_store.specs.Accepted.{all_rewritten, rewritten};
ghost use Rattle.repo_store.specs.Answers.{KeptAnswer};
ghost use Rattle.repo_store.specs.Bounded.{HoldsListed};
ghost use Rattle.repo_store.specs.Transactions.{IsCall};
ghost use Rattle.repo_store.specs.Lists.{file_of, fix_of};
ghost use Rattle.repo_store.specs.Rows.{with_staged_rows};

use crate::look_ups::file_at;
use crate::mode::number_of;
use crate::shared::{ListedFile, SharedFix};
use hook_base::RepoPath;
use sqlite::{Alter, Connection, Error, Transaction};
use store_tables::{clear_fixes, put_staged, take_staged};

// Removes the row at a path, and adds the file that `files` has there, if any.
fn rewrite<S: Alter>(
    tx: &mut Transaction<'_, S>,
    path: &RepoPath,
    files: &[ListedFile],
) -> Result<(), Error>
    requires { IsRising (map file_of files.now) }
    ensures same_reference { tx.new.conn.ghost_name ≡ tx.old.conn.ghost_name }
    ensures step { IsStep S.Store tx.old.conn.now tx.new.conn.now result
        (λ t. with_staged_rows (rewritten (map file_of files.now) path.now t.staged) t) }
{
    take_staged(tx, path.as_str())?;
    match file_at(files, path) {
        Some(file) => put_staged(
            tx,
            path.as_str(),
            number_of(file.mode()),
            &file.content().digest(),
        ),
        None => Ok(()),
    }
}

fn accept_in<S: Alter>(
    tx: &mut Transaction<'_, S>,
    fixes: &[SharedFix],
    files: &[ListedFile],
) -> Result<(), Error>
    requires { IsRising (map file_of files.now) }
    ensures same_reference { tx.new.conn.ghost_name ≡ tx.old.conn.ghost_name }
    ensures step { IsStep S.Store tx.old.conn.now tx.new.conn.now result
        (λ t. with_staged_rows (all_rewritten (map file_of files.now) (map fix_of fixes.now) t.staged)
        (without_fixes t)) }
{
    clear_fixes(tx)?;
    'fixes: for fix in fixes {
        rewrite(tx, &fix.path, files)?;
    }
    Ok(())
}

/// Replaces the rows at the paths of the fixes by those of the files there, and forgets the fixes, in one
/// transaction. A path without a file in `files` has no row afterwards.
pub(crate) fn accept_rows<S: Alter>(
    conn: &mut Connection<S>,
    fixes: &[SharedFix],
    files: &[ListedFile],
) -> Result<(), Error>
    requires outside { conn.old.in_transaction ≡ false }
    requires rising { IsRising (map file_of files.now) }
    ensures { (t : Tables) (next : ℕ) (answers : List KeptAnswer)
        → IsCall S.Store conn.old conn.new result (λ db. HoldsListed next answers db t)
        (λ db. HoldsListed next answers db (with_staged_rows
        (all_rewritten (map file_of files.now) (map fix_of fixes.now) t.staged) (without_fixes t))) }
{
    let mut tx = conn.transaction();
    accept_in(&mut tx, fixes, files)?;
    tx.commit()
}
