//! Caching an answer: in the tables and in memory.

ghost use Rattle.std.specs.Prelude.{◌≡◌, ◌≢◌, ◌+◌, ◌≤◌, ◌∷◌, [], false, drop, length, take, IfErr, List, OnErr, OnOk};
ghost use Rattle.std.specs.List.{AllByRecursion, Any};
ghost use Rattle.store_tables.specs.Tables.{Tables};
ghost use Rattle.repo_store.specs.Answers.{HaveOwnKeys, KeptAnswer};
ghost use Rattle.repo_store.specs.Bounded.{HoldsListed};
ghost use Rattle.store_faults.specs.Faults.{IsRefusal};
ghost use Rattle.repo_store.specs.Index.{key_of};
ghost use Rattle.repo_store.specs.Remembered.{TellsKey};
ghost use Rattle.repo_store.specs.Rows.{answer_row, with_blobs};
ghost use Rattle.repo_store.specs.Remembering.{with_answer_row};
ghost use Rattle.repo_store.specs.Standing.{TellKeys, put_tables, surplus_of, without_key_row};
ghost use Rattle.repo_store.specs.Transactions.{IsCall};
ghost use Rattle.repo_store.specs.UsedAnswers.{in_front, with_answer_within};
ghost use Rattle.repo_store.specs.UsesOf.{greatest_tick};

use crate::StoreFault;
use crate::lists::Lists;
use crate::remember::{remember_in_place_rows, remember_rows};
use crate::shared_answer::SharedAnswer;
use sqlite::{Alter, Connection, Error};
use store_faults::fault_of;

// Replaces the answer of the same key.
fn put_again<S: Alter>(
    conn: &mut Connection<S>,
    lists: &mut Lists,
    before: usize,
    answer: SharedAnswer,
    tick: u64,
) -> Result<(), Error>
    requires outside { conn.old.in_transaction ≡ false }
    requires since { before ≤ length lists.old.kept.contents }
    requires there { Any (λ (other : KeptAnswer). key_of other ≡ key_of answer) lists.old.kept.answers }
    requires told { AllByRecursion (TellsKey answer) lists.old.kept.answers }
    requires first { 1 ≤ tick }
    requires last { tick ≤ greatest_tick }
    ensures rows { (t : Tables) → IsCall S.Store conn.old conn.new result
        (λ db. HoldsListed tick lists.old.kept.answers db t)
        (λ db. HoldsListed (tick + 1) (in_front answer lists.old.kept.answers) db
        (with_answer_row (answer_row answer) (with_blobs (drop before lists.old.kept.contents) t))) }
    ensures done { OnOk result (lists.new.kept
        ≡ record lists.old.kept { answers = in_front answer lists.old.kept.answers }) }
    ensures same { OnErr result (lists.new.kept ≡ lists.old.kept) }
{
    match remember_rows(conn, lists.since(before), &answer, tick) {
        Ok(()) => {
            lists.replace_answer(answer);
            Ok(())
        }
        Err(error) => Err(error),
    }
}

// Puts the newest answer, which is in memory already, into the tables. The last answer is removed if there
// are too many.
fn put_newest_rows<S: Alter>(
    conn: &mut Connection<S>,
    lists: &Lists,
    before: usize,
    tick: u64,
) -> Result<(), Error>
    requires outside { conn.old.in_transaction ≡ false }
    requires since { before ≤ length lists.now.kept.contents }
    requires some { lists.now.kept.answers ≢ [] }
    requires first { 1 ≤ tick }
    requires last { tick ≤ greatest_tick }
    ensures { (answer : KeptAnswer) (others : List KeptAnswer) → lists.now.kept.answers ≡ answer ∷ others
        → HaveOwnKeys (answer ∷ others) → TellKeys (answer ∷ others) → 1 ≤ lists.now.kept.limit
        → length others ≤ lists.now.kept.limit → (t : Tables)
        → IsCall S.Store conn.old conn.new result (λ db. HoldsListed tick others db t)
        (λ db. HoldsListed (tick + 1) (take lists.now.kept.limit (answer ∷ others)) db
        (without_key_row (surplus_of lists.now.kept.limit (answer ∷ others))
        (with_answer_row (answer_row answer) (with_blobs (drop before lists.now.kept.contents) t)))) }
{
    let answer = lists.newest_answer();
    let news = lists.since(before);
    match lists.surplus() {
        Some(key) => remember_in_place_rows(conn, news, answer, tick, &key.0, &key.1),
        None => remember_rows(conn, news, answer, tick),
    }
}

// The same, and then removes the last answer in memory too. A refusal removes the newest one again.
fn put_newest<S: Alter>(
    conn: &mut Connection<S>,
    lists: &mut Lists,
    before: usize,
    tick: u64,
) -> Result<(), Error>
    requires outside { conn.old.in_transaction ≡ false }
    requires since { before ≤ length lists.old.kept.contents }
    requires some { lists.old.kept.answers ≢ [] }
    requires first { 1 ≤ tick }
    requires last { tick ≤ greatest_tick }
    ensures rows { (answer : KeptAnswer) (others : List KeptAnswer) → lists.old.kept.answers ≡ answer ∷ others
        → HaveOwnKeys (answer ∷ others) → TellKeys (answer ∷ others) → 1 ≤ lists.old.kept.limit
        → length others ≤ lists.old.kept.limit → (t : Tables)
        → IsCall S.Store conn.old conn.new result (λ db. HoldsListed tick others db t)
        (λ db. HoldsListed (tick + 1) (take lists.old.kept.limit (answer ∷ others)) db
        (without_key_row (surplus_of lists.old.kept.limit (answer ∷ others))
        (with_answer_row (answer_row answer) (with_blobs (drop before lists.old.kept.contents) t)))) }
    ensures done { OnOk result (lists.new.kept
        ≡ record lists.old.kept { answers = take lists.old.kept.limit lists.old.kept.answers }) }
    ensures same { OnErr result (lists.new.kept ≡ record lists.old.kept { answers = drop 1 lists.old.kept.answers }) }
{
    match put_newest_rows(conn, lists, before, tick) {
        Ok(()) => {
            let limit = lists.answer_limit();
            lists.limit_answers(limit);
            Ok(())
        }
        Err(error) => {
            lists.take_answer_back();
            Err(error)
        }
    }
}

/// Puts an answer into the tables, with the blobs that are in memory from index `before` on, and in front of
/// the others in memory. A refusal leaves the answers as they were.
pub(crate) fn put_prepared<S: Alter>(
    conn: &mut Connection<S>,
    lists: &mut Lists,
    before: usize,
    answer: SharedAnswer,
    tick: u64,
) -> Result<(), StoreFault>
    requires outside { conn.old.in_transaction ≡ false }
    requires since { before ≤ length lists.old.kept.contents }
    requires own { HaveOwnKeys lists.old.kept.answers }
    requires told { TellKeys (answer ∷ lists.old.kept.answers) }
    requires few { length lists.old.kept.answers ≤ lists.old.kept.limit }
    requires some { 1 ≤ lists.old.kept.limit }
    requires first { 1 ≤ tick }
    requires last { tick ≤ greatest_tick }
    ensures rows { (t : Tables) → IsCall S.Store conn.old conn.new result
        (λ db. HoldsListed tick lists.old.kept.answers db t)
        (λ db. HoldsListed (tick + 1) (with_answer_within lists.old.kept.limit answer lists.old.kept.answers) db
        (put_tables lists.old.kept.limit lists.old.kept.answers answer (drop before lists.old.kept.contents) t)) }
    ensures done { OnOk result (lists.new.kept
        ≡ record lists.old.kept { answers = with_answer_within lists.old.kept.limit answer lists.old.kept.answers }) }
    ensures same { OnErr result (lists.new.kept ≡ lists.old.kept) }
    ensures why { IfErr result (IsRefusal ⊥ ⊥ ⊥) }
{
    let _settled = conn.is_autocommit();
    if lists.has_key_of(&answer) {
        return match put_again(conn, lists, before, answer, tick) {
            Ok(()) => Ok(()),
            Err(error) => Err(fault_of(error)),
        };
    }
    // It is put in memory first, since that may be refused.
    if let Err(_refused) = lists.add_answer(answer) {
        return Err(StoreFault::OutOfMemory);
    }
    match put_newest(conn, lists, before, tick) {
        Ok(()) => Ok(()),
        Err(error) => Err(fault_of(error)),
    }
}
