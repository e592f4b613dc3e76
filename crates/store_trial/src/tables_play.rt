//! A play of the statements on the tables. Rows are inserted in no order, read back, removed, and read back
//! again, all in one transaction that isn't committed. For each row the answer has its table's name, its
//! texts and digests, and its numbers.

use crate::answer::Answer;
use crate::stop::Stop;
use sqlite::{Alter, Connection, Error, Transaction};
use store_tables::{
    FixRow, clear_answers, clear_fixes, clear_uses, make_tables, make_uses, put_answer, put_blob,
    put_commit, put_entry, put_fix, put_meta, put_staged, put_use, read_answers, read_blobs,
    read_commits, read_entries, read_fixes, read_meta, read_staged, read_uses_by_tick,
    replace_meta, take_answer, take_staged, take_use,
};

/// Plays the statements in a database that has no tables.
pub(crate) fn play_tables<S: Alter>(
    conn: &mut Connection<S>,
    answer: &mut Answer,
) -> Result<Result<(), Error>, Stop> {
    if !conn.is_autocommit() {
        return Ok(Err(Error::InvalidQuery));
    }
    let mut tx = conn.transaction();
    if let Err(error) = make_all(&mut tx) {
        return Ok(Err(error));
    }
    fill(&mut tx)?;
    fill_more(&mut tx)?;
    add_rows(&mut tx, answer)?;
    change_some(&mut tx)?;
    answer.add(b"changed");
    add_rows(&mut tx, answer)?;
    empty_some(&mut tx)?;
    answer.add(b"emptied");
    add_rows(&mut tx, answer)?;
    Ok(Ok(()))
}

// Makes the tables of version 1, and the one that version 2 adds.
fn make_all<S: Alter>(tx: &mut Transaction<'_, S>) -> Result<(), Error> {
    make_tables(tx)?;
    make_uses(tx)
}

fn fill<S: Alter>(tx: &mut Transaction<'_, S>) -> Result<(), Error> {
    put_meta(tx, "version", 1)?;
    put_meta(tx, "limit", 2)?;
    put_blob(tx, b"one", b"1")?;
    put_blob(tx, b"two", b"2")?;
    put_blob(tx, b"three", b"3")?;
    put_blob(tx, b"four", b"4")?;
    put_staged(tx, "b.txt", 1, b"two")?;
    put_staged(tx, "a.txt", 0, b"one")?;
    put_commit(tx, 2, b"second\n")?;
    put_commit(tx, 1, b"first\n")
}

fn fill_more<S: Alter>(tx: &mut Transaction<'_, S>) -> Result<(), Error> {
    put_entry(tx, 2, "a.txt", 1, b"two")?;
    put_entry(tx, 1, "b.txt", 1, b"three")?;
    put_entry(tx, 1, "a.txt", 0, b"one")?;
    put_fix(tx, "b.txt", None)?;
    put_fix(tx, "a.txt", Some(b"two"))?;
    put_answer(tx, b"two", b"one", b"four", b"three", 0)?;
    put_answer(tx, b"one", b"two", b"three", b"four", 3)?;
    use_answers(tx)
}

fn use_answers<S: Alter>(tx: &mut Transaction<'_, S>) -> Result<(), Error> {
    put_use(tx, b"one", b"two", 2)?;
    put_use(tx, b"two", b"one", 1)
}

fn change_some<S: Alter>(tx: &mut Transaction<'_, S>) -> Result<(), Error> {
    replace_meta(tx, "limit", 9)?;
    replace_meta(tx, "new", 5)?;
    take_answer(tx, b"two", b"two")?;
    take_answer(tx, b"one", b"two")?;
    change_uses(tx)
}

// Removes the use of the answer that was removed, and uses the other answer once more.
fn change_uses<S: Alter>(tx: &mut Transaction<'_, S>) -> Result<(), Error> {
    take_use(tx, b"two", b"two")?;
    take_use(tx, b"one", b"two")?;
    take_use(tx, b"two", b"one")?;
    put_use(tx, b"two", b"one", 3)
}

fn empty_some<S: Alter>(tx: &mut Transaction<'_, S>) -> Result<(), Error> {
    take_staged(tx, "b.txt")?;
    clear_fixes(tx)?;
    clear_answers(tx)?;
    clear_uses(tx)
}

fn add_rows<S: Alter>(tx: &mut Transaction<'_, S>, answer: &mut Answer) -> Result<(), Stop> {
    add_meta(tx, answer)?;
    add_blobs(tx, answer)?;
    add_staged(tx, answer)?;
    add_fixes(tx, answer)?;
    add_further(tx, answer)
}

fn add_further<S: Alter>(tx: &mut Transaction<'_, S>, answer: &mut Answer) -> Result<(), Stop> {
    add_commits(tx, answer)?;
    add_entries(tx, answer)?;
    add_answers(tx, answer)?;
    add_uses(tx, answer)
}

fn add_meta<S: Alter>(tx: &mut Transaction<'_, S>, answer: &mut Answer) -> Result<(), Stop> {
    for row in &read_meta(answer.alloc(), tx)? {
        answer.add_all(&[b"meta", row.name.as_slice()]);
        answer.show(row.value);
    }
    Ok(())
}

fn add_blobs<S: Alter>(tx: &mut Transaction<'_, S>, answer: &mut Answer) -> Result<(), Stop> {
    for row in &read_blobs(answer.alloc(), tx)? {
        answer.add_all(&[b"blobs", row.digest.as_slice(), row.bytes.as_slice()]);
    }
    Ok(())
}

fn add_staged<S: Alter>(tx: &mut Transaction<'_, S>, answer: &mut Answer) -> Result<(), Stop> {
    for row in &read_staged(answer.alloc(), tx)? {
        answer.add_all(&[b"staged", row.path.as_slice(), row.digest.as_slice()]);
        answer.show(row.mode);
    }
    Ok(())
}

fn add_fixes<S: Alter>(tx: &mut Transaction<'_, S>, answer: &mut Answer) -> Result<(), Stop> {
    for row in &read_fixes(answer.alloc(), tx)? {
        answer.add_all(&[b"fixes", row.path.as_slice(), digest_of(row)]);
        answer.show(row.gone);
    }
    Ok(())
}

fn digest_of(row: &FixRow) -> &[u8] {
    match &row.digest {
        None => b"no digest",
        Some(digest) => digest.as_slice(),
    }
}

fn add_commits<S: Alter>(tx: &mut Transaction<'_, S>, answer: &mut Answer) -> Result<(), Stop> {
    for row in &read_commits(answer.alloc(), tx)? {
        answer.add_all(&[b"commits", row.message.as_slice()]);
        answer.show(row.n);
    }
    Ok(())
}

fn add_entries<S: Alter>(tx: &mut Transaction<'_, S>, answer: &mut Answer) -> Result<(), Stop> {
    for row in &read_entries(answer.alloc(), tx)? {
        answer.add_all(&[b"entries", row.path.as_slice(), row.digest.as_slice()]);
        answer.show(row.n);
        answer.show(row.mode);
    }
    Ok(())
}

fn add_answers<S: Alter>(tx: &mut Transaction<'_, S>, answer: &mut Answer) -> Result<(), Stop> {
    for row in &read_answers(answer.alloc(), tx)? {
        answer.add_all(&[b"answers", row.words.as_slice(), row.seen.as_slice()]);
        answer.add_all(&[row.output.as_slice(), row.changes.as_slice()]);
        answer.show(row.status);
    }
    Ok(())
}

// Adds the uses, the earliest first.
fn add_uses<S: Alter>(tx: &mut Transaction<'_, S>, answer: &mut Answer) -> Result<(), Stop> {
    for row in &read_uses_by_tick(answer.alloc(), tx)? {
        answer.add_all(&[b"uses", row.words.as_slice(), row.seen.as_slice()]);
        answer.show(row.tick);
    }
    Ok(())
}
