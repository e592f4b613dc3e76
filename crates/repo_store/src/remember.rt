//! Caching an answer in the tables, with its use: one transaction.

ghost use Rattle.std.specs.Prelude.{◌≡◌, ℕ, ◌+◌, ◌≤◌, List, [], ◌∷◌, ◌++◌, pos, false};
ghost use Rattle.std.specs.List.{AllByRecursion};
ghost use Rattle.store_tables.specs.Steps.{IsMade, IsStep};
ghost use Rattle.store_tables.specs.Tables.{Tables, without_answer};
ghost use Rattle.store_tables.specs.Uses.{HoldsRows, with_use, without_use};
ghost use Rattle.store_tables.specs.declared.rows.UseRow.{UseRow};
ghost use Rattle.repo_store.specs.Answers.{KeptAnswer};
ghost use Rattle.repo_store.specs.Bounded.{HoldsListed};
ghost use Rattle.repo_store.specs.Index.{key_of};
ghost use Rattle.repo_store.specs.Remembered.{TellsKey};
ghost use Rattle.repo_store.specs.Remembering.{with_answer_row};
ghost use Rattle.repo_store.specs.Rows.{answer_row, with_blobs};
ghost use Rattle.repo_store.specs.Transactions.{IsCall};
ghost use Rattle.repo_store.specs.UsedAnswers.{in_front};
ghost use Rattle.repo_store.specs.UsesOf.{TakesPlace, greatest_tick, use_row};

use crate::blobs::keep_in;
use crate::shared_answer::SharedAnswer;
use crate::uses::{drop_in, use_in};
use hook_base::Content;
use sqlite::{Alter, Connection, Error, Transaction};
use store_tables::{put_answer, take_answer};

// Replaces the answer under the key with these digests, if any, and keeps the blobs that the table lacks.
fn put_in_place<S: Alter>(
    tx: &mut Transaction<'_, S>,
    news: &[Content],
    answer: &SharedAnswer,
    words: &[u8],
    seen: &[u8],
) -> Result<(), Error>
    requires { key_of answer.now ≡ (words.now, seen.now) }
    ensures same_reference { tx.new.conn.ghost_name ≡ tx.old.conn.ghost_name }
    ensures step { IsStep S.Store tx.old.conn.now tx.new.conn.now result
        (λ t. with_answer_row (answer_row answer.now) (with_blobs news.now t)) }
{
    keep_in(tx, news)?;
    let output = answer.output().digest();
    let changes = answer.changes_record().digest();
    let status = u32::from(answer.status());
    take_answer(tx, words, seen)?;
    put_answer(tx, words, seen, &output, &changes, status)
}

// The same, and gives its use this tick.
fn remember_in<S: Alter>(
    tx: &mut Transaction<'_, S>,
    news: &[Content],
    answer: &SharedAnswer,
    tick: u64,
) -> Result<(), Error>
    requires { tick ≤ greatest_tick }
    ensures same_reference { tx.new.conn.ghost_name ≡ tx.old.conn.ghost_name }
    ensures made { (t : Tables) (rows : List UseRow)
        → IsMade S.Store tx.old.conn.now tx.new.conn.now result (λ db. HoldsRows db t rows)
        (λ db. HoldsRows db (with_answer_row (answer_row answer.now) (with_blobs news.now t))
        (with_use (use_row answer.now tick) (without_use (key_of answer.now).0 (key_of answer.now).1 rows))) }
{
    let words = answer.words_record().digest();
    let seen = answer.seen_record().digest();
    put_in_place(tx, news, answer, &words, &seen)?;
    use_in(tx, &words, &seen, tick)
}

/// Puts an answer in place of the one of its key, if any, with this tick, and keeps the blobs that the table
/// lacks, in one transaction.
pub(crate) fn remember_rows<S: Alter>(
    conn: &mut Connection<S>,
    news: &[Content],
    answer: &SharedAnswer,
    tick: u64,
) -> Result<(), Error>
    requires outside { conn.old.in_transaction ≡ false }
    requires fits { tick ≤ greatest_tick }
    ensures { (t : Tables) (answers : List KeptAnswer) → AllByRecursion (TellsKey answer.now) answers → 1 ≤ tick
        → IsCall S.Store conn.old conn.new result (λ db. HoldsListed tick answers db t)
        (λ db. HoldsListed (tick + 1) (in_front answer.now answers) db
        (with_answer_row (answer_row answer.now) (with_blobs news.now t))) }
{
    let mut tx = conn.transaction();
    remember_in(&mut tx, news, answer, tick)?;
    tx.commit()
}

// Puts an answer with this tick, and removes the one under a key.
fn remember_in_place_in<S: Alter>(
    tx: &mut Transaction<'_, S>,
    news: &[Content],
    answer: &SharedAnswer,
    tick: u64,
    words: &[u8],
    seen: &[u8],
) -> Result<(), Error>
    requires { tick ≤ greatest_tick }
    ensures same_reference { tx.new.conn.ghost_name ≡ tx.old.conn.ghost_name }
    ensures made { (t : Tables) (rows : List UseRow)
        → IsMade S.Store tx.old.conn.now tx.new.conn.now result (λ db. HoldsRows db t rows)
        (λ db. HoldsRows db (without_answer words.now seen.now
        (with_answer_row (answer_row answer.now) (with_blobs news.now t)))
        (without_use words.now seen.now (with_use (use_row answer.now tick)
        (without_use (key_of answer.now).0 (key_of answer.now).1 rows)))) }
{
    remember_in(tx, news, answer, tick)?;
    drop_in(tx, words, seen)
}

/// Puts an answer, whose key no other has, with this tick, and keeps the blobs that the table lacks. Removes
/// the least recently used answer, which has this key. All of it is one transaction.
pub(crate) fn remember_in_place_rows<S: Alter>(
    conn: &mut Connection<S>,
    news: &[Content],
    answer: &SharedAnswer,
    tick: u64,
    words: &[u8],
    seen: &[u8],
) -> Result<(), Error>
    requires outside { conn.old.in_transaction ≡ false }
    requires fits { tick ≤ greatest_tick }
    ensures { (t : Tables) (front : List KeptAnswer) (last : KeptAnswer) → key_of last ≡ (words.now, seen.now)
        → TakesPlace answer.now last front → 1 ≤ tick
        → IsCall S.Store conn.old conn.new result (λ db. HoldsListed tick (front ++ last ∷ []) db t)
        (λ db. HoldsListed (tick + 1) (answer.now ∷ front) db
        (without_answer words.now seen.now (with_answer_row (answer_row answer.now) (with_blobs news.now t)))) }
{
    let mut tx = conn.transaction();
    remember_in_place_in(&mut tx, news, answer, tick, words, seen)?;
    tx.commit()
}
