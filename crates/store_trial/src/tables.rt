//! Reads and writes the tables of a database without a store. So the cost of a store can be separated from
//! that of its database, and the rows that a store left can be counted.

use crate::answer::Answer;
use sha2::{Digest as _, Sha256};
use sqlite::{Alter, Connection, Error, Transaction};
use std::alloc::Global;
use store_tables::{
    BlobRow, put_blob, read_answers, read_blobs, read_commits, read_entries, read_fixes, read_meta,
    read_staged,
};

/// How many rows the tables have.
#[derive(Clone, Copy)]
struct Counts {
    rows: usize,
    contents: usize,
    /// Contents whose digest isn't the one that they are stored with.
    strays: usize,
}

/// Reads each table once, hashes the contents, and adds the counts to the answer.
pub(crate) fn add_counts<S: Alter>(
    conn: &mut Connection<S>,
    answer: &mut Answer,
) -> Result<(), Error> {
    let counts = read_tables(answer.alloc(), conn)?;
    answer.show(counts.rows);
    answer.show(counts.contents);
    answer.show(counts.strays);
    Ok(())
}

fn read_tables<S: Alter>(alloc: Global, conn: &mut Connection<S>) -> Result<Counts, Error> {
    if !conn.is_autocommit() {
        return Err(Error::InvalidQuery);
    }
    let mut tx = conn.transaction();
    let rows = count_rows(alloc, &mut tx)?;
    let blobs = read_blobs(alloc, &mut tx)?;
    Ok(Counts {
        rows,
        contents: blobs.len(),
        strays: count_strays(blobs.as_slice()),
    })
}

/// How many rows the tables have, without the contents.
fn count_rows<S: Alter>(alloc: Global, tx: &mut Transaction<'_, S>) -> Result<usize, Error> {
    let mut rows = read_meta(alloc, tx)?.len();
    rows = rows.saturating_add(read_staged(alloc, tx)?.len());
    rows = rows.saturating_add(read_fixes(alloc, tx)?.len());
    rows = rows.saturating_add(read_commits(alloc, tx)?.len());
    rows = rows.saturating_add(read_entries(alloc, tx)?.len());
    Ok(rows.saturating_add(read_answers(alloc, tx)?.len()))
}

/// Stores contents with their digest, in a transaction of their own.
pub(crate) fn insert_contents<S: Alter>(
    conn: &mut Connection<S>,
    bytes: &[u8],
) -> Result<(), Error> {
    if !conn.is_autocommit() {
        return Err(Error::InvalidQuery);
    }
    let digest = Sha256::digest(bytes);
    let mut tx = conn.transaction();
    put_blob(&mut tx, &digest, bytes)?;
    tx.commit()
}

fn count_strays(blobs: &[BlobRow]) -> usize {
    blobs
        .iter()
        .filter(|blob| blob.digest.as_slice() != Sha256::digest(blob.bytes.as_slice()).as_slice())
        .count()
}
