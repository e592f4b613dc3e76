//! One statement for each change of a table, or two where a number is replaced. At `Ok` the statement is
//! done. An error is the database's own: then that statement isn't done, or the whole transaction is rolled
//! back. Nothing is committed. All other tables stay as they were, also those that a later version of a store
//! lists after the seven.

ghost use Rattle.std.specs.Prelude.{◌≡◌, pos};
ghost use Rattle.store_tables.specs.Schema as spec;
ghost use Rattle.store_tables.specs.Steps.{IsChange, IsStep};
ghost use Rattle.store_tables.specs.Tables.{ChangesNothing, ChangesOnly, MakesIfKeyed, with_meta, with_new_meta, without_meta, with_blob, with_staged, without_staged, without_all_staged, with_fix, fix_row_of_digest, without_fixes, with_commit, with_entry, with_answer, without_answer, without_answers};

use sqlite::{Alter, Error, Transaction, params};

/// Keeps a number under a name that has none yet.
pub fn put_meta<S: Alter>(tx: &mut Transaction<'_, S>, name: &str, value: u32) -> Result<(), Error>
    ensures same_reference { tx.new.conn.ghost_name ≡ tx.old.conn.ghost_name }
    ensures step { IsStep S.Store tx.old.conn.now tx.new.conn.now result
        (with_meta (record { name = name.now; value = pos value })) }
    ensures only { IsChange S.Store tx.old.conn.now tx.new.conn.now result (ChangesOnly spec.meta) }
{
    tx.execute(
        "INSERT INTO meta (name, value) VALUES (?1, ?2)",
        params![name, value],
    )?;
    Ok(())
}

// Removes the number under a name, if there is one.
fn take_meta<S: Alter>(tx: &mut Transaction<'_, S>, name: &str) -> Result<(), Error>
    ensures same_reference { tx.new.conn.ghost_name ≡ tx.old.conn.ghost_name }
    ensures step { IsChange S.Store tx.old.conn.now tx.new.conn.now result
        (MakesIfKeyed spec.meta (without_meta name.now)) }
    ensures only { IsChange S.Store tx.old.conn.now tx.new.conn.now result (ChangesOnly spec.meta) }
{
    tx.execute("DELETE FROM meta WHERE name = ?1", params![name])?;
    Ok(())
}

/// Keeps a number under a name, in place of the one there, if any. These are two statements: after an error
/// the old number may be removed already, so the transaction must not be committed.
pub fn replace_meta<S: Alter>(
    tx: &mut Transaction<'_, S>,
    name: &str,
    value: u32,
) -> Result<(), Error>
    ensures same_reference { tx.new.conn.ghost_name ≡ tx.old.conn.ghost_name }
    ensures step { IsChange S.Store tx.old.conn.now tx.new.conn.now result
        (MakesIfKeyed spec.meta (with_new_meta (record { name = name.now; value = pos value }))) }
    ensures only { IsChange S.Store tx.old.conn.now tx.new.conn.now result (ChangesOnly spec.meta) }
{
    take_meta(tx, name)?;
    put_meta(tx, name, value)
}

/// Keeps a blob under its digest, which has none yet.
pub fn put_blob<S: Alter>(
    tx: &mut Transaction<'_, S>,
    digest: &[u8],
    bytes: &[u8],
) -> Result<(), Error>
    ensures same_reference { tx.new.conn.ghost_name ≡ tx.old.conn.ghost_name }
    ensures step { IsStep S.Store tx.old.conn.now tx.new.conn.now result
        (with_blob (record { digest = digest.now; bytes = bytes.now })) }
    ensures only { IsChange S.Store tx.old.conn.now tx.new.conn.now result (ChangesOnly spec.blobs) }
{
    tx.execute(
        "INSERT INTO blobs (digest, bytes) VALUES (?1, ?2)",
        params![digest, bytes],
    )?;
    Ok(())
}

/// Stages a file at a path that isn't staged.
pub fn put_staged<S: Alter>(
    tx: &mut Transaction<'_, S>,
    path: &str,
    mode: u32,
    digest: &[u8],
) -> Result<(), Error>
    ensures same_reference { tx.new.conn.ghost_name ≡ tx.old.conn.ghost_name }
    ensures step { IsStep S.Store tx.old.conn.now tx.new.conn.now result
        (with_staged (record { path = path.now; mode = pos mode; digest = digest.now })) }
    ensures only { IsChange S.Store tx.old.conn.now tx.new.conn.now result (ChangesOnly spec.staged) }
{
    tx.execute(
        "INSERT INTO staged (path, mode, digest) VALUES (?1, ?2, ?3)",
        params![path, mode, digest],
    )?;
    Ok(())
}

/// Adds a commit with this number, which none has yet.
pub fn put_commit<S: Alter>(
    tx: &mut Transaction<'_, S>,
    n: u32,
    message: &[u8],
) -> Result<(), Error>
    ensures same_reference { tx.new.conn.ghost_name ≡ tx.old.conn.ghost_name }
    ensures step { IsStep S.Store tx.old.conn.now tx.new.conn.now result
        (with_commit (record { n = pos n; message = message.now })) }
    ensures only { IsChange S.Store tx.old.conn.now tx.new.conn.now result (ChangesOnly spec.commits) }
{
    tx.execute(
        "INSERT INTO commits (n, message) VALUES (?1, ?2)",
        params![n, message],
    )?;
    Ok(())
}

/// Adds a file to a commit that has none at its path.
pub fn put_entry<S: Alter>(
    tx: &mut Transaction<'_, S>,
    n: u32,
    path: &str,
    mode: u32,
    digest: &[u8],
) -> Result<(), Error>
    ensures same_reference { tx.new.conn.ghost_name ≡ tx.old.conn.ghost_name }
    ensures step { IsStep S.Store tx.old.conn.now tx.new.conn.now result
        (with_entry (record { n = pos n; path = path.now; mode = pos mode; digest = digest.now })) }
    ensures only { IsChange S.Store tx.old.conn.now tx.new.conn.now result (ChangesOnly spec.entries) }
{
    tx.execute(
        "INSERT INTO entries (n, path, mode, digest) VALUES (?1, ?2, ?3, ?4)",
        params![n, path, mode, digest],
    )?;
    Ok(())
}

/// Caches an answer under a key that has none.
pub fn put_answer<S: Alter>(
    tx: &mut Transaction<'_, S>,
    words: &[u8],
    seen: &[u8],
    output: &[u8],
    changes: &[u8],
    status: u32,
) -> Result<(), Error>
    ensures same_reference { tx.new.conn.ghost_name ≡ tx.old.conn.ghost_name }
    ensures step { IsStep S.Store tx.old.conn.now tx.new.conn.now result
        (with_answer (record {
          words = words.now;
          seen = seen.now;
          output = output.now;
          changes = changes.now;
          status =
              pos status;
        })) }
    ensures only { IsChange S.Store tx.old.conn.now tx.new.conn.now result (ChangesOnly spec.answers) }
{
    tx.execute(
        "INSERT INTO answers (words, seen, output, changes, status) VALUES (?1, ?2, ?3, ?4, ?5)",
        params![words, seen, output, changes, status],
    )?;
    Ok(())
}

/// Adds a fix of a path that has none: the digest of its new contents, or `None` if the file is gone.
pub fn put_fix<S: Alter>(
    tx: &mut Transaction<'_, S>,
    path: &str,
    now: Option<&[u8]>,
) -> Result<(), Error>
    ensures same_reference { tx.new.conn.ghost_name ≡ tx.old.conn.ghost_name }
    ensures step { IsStep S.Store tx.old.conn.now tx.new.conn.now result
        (with_fix (fix_row_of_digest path.now now.entry)) }
    ensures only { IsChange S.Store tx.old.conn.now tx.new.conn.now result (ChangesOnly spec.fixes) }
{
    tx.execute(
        "INSERT INTO fixes (path, gone, digest) VALUES (?1, ?2, ?3)",
        params![path, now.is_none(), now],
    )?;
    Ok(())
}

/// Removes a path from the staged files, if it is there.
pub fn take_staged<S: Alter>(tx: &mut Transaction<'_, S>, path: &str) -> Result<(), Error>
    ensures same_reference { tx.new.conn.ghost_name ≡ tx.old.conn.ghost_name }
    ensures step { IsStep S.Store tx.old.conn.now tx.new.conn.now result (without_staged path.now) }
    ensures only { IsChange S.Store tx.old.conn.now tx.new.conn.now result (ChangesOnly spec.staged) }
{
    tx.execute("DELETE FROM staged WHERE path = ?1", params![path])?;
    Ok(())
}

/// Removes all staged files.
pub fn clear_staged<S: Alter>(tx: &mut Transaction<'_, S>) -> Result<(), Error>
    ensures same_reference { tx.new.conn.ghost_name ≡ tx.old.conn.ghost_name }
    ensures step { IsStep S.Store tx.old.conn.now tx.new.conn.now result without_all_staged }
    ensures only { IsChange S.Store tx.old.conn.now tx.new.conn.now result (ChangesOnly spec.staged) }
{
    tx.execute("DELETE FROM staged", &[])?;
    Ok(())
}

/// Removes all fixes.
pub fn clear_fixes<S: Alter>(tx: &mut Transaction<'_, S>) -> Result<(), Error>
    ensures same_reference { tx.new.conn.ghost_name ≡ tx.old.conn.ghost_name }
    ensures step { IsStep S.Store tx.old.conn.now tx.new.conn.now result (without_fixes) }
    ensures only { IsChange S.Store tx.old.conn.now tx.new.conn.now result (ChangesOnly spec.fixes) }
{
    tx.execute("DELETE FROM fixes", &[])?;
    Ok(())
}

/// Removes the cached answer under a key, if there is one.
pub fn take_answer<S: Alter>(
    tx: &mut Transaction<'_, S>,
    words: &[u8],
    seen: &[u8],
) -> Result<(), Error>
    ensures same_reference { tx.new.conn.ghost_name ≡ tx.old.conn.ghost_name }
    ensures step { IsStep S.Store tx.old.conn.now tx.new.conn.now result (without_answer words.now seen.now) }
    ensures only { IsChange S.Store tx.old.conn.now tx.new.conn.now result (ChangesOnly spec.answers) }
{
    tx.execute(
        "DELETE FROM answers WHERE words = ?1 AND seen = ?2",
        params![words, seen],
    )?;
    Ok(())
}

/// Removes all cached answers.
pub fn clear_answers<S: Alter>(tx: &mut Transaction<'_, S>) -> Result<(), Error>
    ensures same_reference { tx.new.conn.ghost_name ≡ tx.old.conn.ghost_name }
    ensures step { IsStep S.Store tx.old.conn.now tx.new.conn.now result (without_answers) }
    ensures only { IsChange S.Store tx.old.conn.now tx.new.conn.now result (ChangesOnly spec.answers) }
{
    tx.execute("DELETE FROM answers", &[])?;
    Ok(())
}

/// Runs an empty statement, which changes nothing. It is `Ok` only if the database is open.
pub fn change_nothing<S: Alter>(tx: &mut Transaction<'_, S>) -> Result<(), Error>
    ensures same_reference { tx.new.conn.ghost_name ≡ tx.old.conn.ghost_name }
    ensures step { IsStep S.Store tx.old.conn.now tx.new.conn.now result (λ t. t) }
    ensures nothing { IsChange S.Store tx.old.conn.now tx.new.conn.now result ChangesNothing }
{
    tx.execute("", &[])?;
    Ok(())
}
