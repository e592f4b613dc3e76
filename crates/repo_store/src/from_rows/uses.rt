//! The order of the answers that the rows of `uses` give.

ghost use Rattle.std.specs.Prelude.{◌≡◌, ◌↔◌, ◌≤◌, pos, length, map, reverse, IsPermutation, IsTrue, IfErr, IfNone, IfOk, IfSome, OnOk};
ghost use Rattle.std.specs.List.{AllByRecursion};
ghost use Rattle.store_tables.specs.declared.rows.UseRow.{UseRow};
ghost use Rattle.repo_store.specs.Answers.{HaveOwnKeys, KeptAnswer};
ghost use Rattle.repo_store.specs.Bounded.{IsTick, key_of_use};
ghost use Rattle.store_faults.specs.Faults.{IsDamage};
ghost use Rattle.repo_store.specs.FromRows.{AreMoved, AreUsesFor, HaveTicks, tick_of};
ghost use Rattle.repo_store.specs.Index.{key_of};
ghost use Rattle.repo_store.specs.ListedAnswers.{IsNextTick};
ghost use Rattle.repo_store.specs.UsesOf.{AreUsesOf, FallBelow, greatest_tick};

use crate::StoreFault;
use crate::answer_list::AnswerList;
use crate::limits::GREATEST_TICK;
use sqlite::Error;
use std::alloc::Global;
use store_tables::UseRow;

// The tick of a number. One out of range is damage.
fn tick_at(number: i64) -> Result<u64, StoreFault>
    ensures tick { IfOk result (λ tick. pos tick ≡ number) }
    ensures first { IfOk result (λ tick. 1 ≤ tick) }
    ensures last { IfOk result (λ tick. tick ≤ greatest_tick) }
    ensures unknown { IfErr result (IsDamage (¬ IsTick number)) }
{
    if number < 1 || number > GREATEST_TICK as i64 {
        return Err(StoreFault::Damaged);
    }
    Ok(number as u64)
}

// The tick that the next use gets: one after the ticks of these rows, which must rise.
fn next_after(uses: &[UseRow]) -> Result<u64, StoreFault>
    ensures next { IfOk result IsNextTick }
    ensures ticks { OnOk result (HaveTicks uses.now) }
    ensures fall { IfOk result (λ next. FallBelow next (map tick_of (reverse uses.now))) }
    ensures broken { IfErr result (IsDamage (¬ AllByRecursion (λ (row : UseRow). IsTick row.tick) uses.now)) }
{
    let mut next: u64 = 1;
    'uses: for row in uses {
        let tick = tick_at(row.tick)?;
        if tick < next {
            return Err(StoreFault::Sql(Error::InvalidQuery));
        }
        next = tick + 1;
    }
    Ok(next)
}

// The bytes as a digest, if there are 32.
fn digest_in(bytes: &[u8]) -> Option<&[u8; 32]>
    ensures same { IfSome result (λ digest. digest.now ≡ bytes.now) }
    ensures none { IfNone result (¬ (length bytes.now ≡ 32)) }
{
    match <&[u8; 32]>::try_from(bytes) {
        Ok(digest) => Some(digest),
        Err(_) => None,
    }
}

// Whether there is an answer for a use.
fn has_answer(answers: &AnswerList, row: &UseRow) -> bool
    ensures { ¬ IsTrue result → AllByRecursion (λ (answer : KeptAnswer). ¬ (key_of answer ≡ key_of_use row.now))
        answers.now.answers }
{
    let Some(words) = digest_in(row.words.as_slice()) else {
        return false;
    };
    let Some(seen) = digest_in(row.seen.as_slice()) else {
        return false;
    };
    answers.find(*words, *seen).is_some()
}

// Whether there are as many uses as answers, and each has one.
fn have_answers(answers: &AnswerList, uses: &[UseRow]) -> bool
    ensures count { IsTrue result → length uses.now ≡ length answers.now.answers }
    ensures none { ¬ IsTrue result → ¬ IsPermutation (map key_of_use uses.now) (map key_of answers.now.answers) }
{
    if uses.len() != answers.len() {
        return false;
    }
    'uses: for row in uses {
        if !has_answer(answers, row) {
            return false;
        }
    }
    true
}

// Brings the answer of a use to the front.
fn bring(answers: &mut AnswerList, row: &UseRow)
    ensures limit { answers.new.limit ≡ answers.old.limit }
    ensures next { answers.new.next ≡ answers.old.next }
    ensures moved { AreMoved answers.old.answers answers.new.answers }
{
    let Some(words) = digest_in(row.words.as_slice()) else {
        return;
    };
    let Some(seen) = digest_in(row.seen.as_slice()) else {
        return;
    };
    answers.bring(*words, *seen);
}

// Brings the answer of each use to the front, one after another.
fn bring_each(answers: &mut AnswerList, uses: &[UseRow])
    ensures limit { answers.new.limit ≡ answers.old.limit }
    ensures next { answers.new.next ≡ answers.old.next }
    ensures moved { AreMoved answers.old.answers answers.new.answers }
{
    'uses: for row in uses {
        bring(answers, row);
    }
}

// Whether a use has this key.
fn has_key(row: &UseRow, key: &([u8; 32], [u8; 32])) -> bool
    ensures { IsTrue result → key.now ≡ key_of_use row.now }
{
    row.words.as_slice() == key.0.as_slice() && row.seen.as_slice() == key.1.as_slice()
}

// Whether the uses have these keys, in their order.
fn have_keys(uses: &[UseRow], keys: &[([u8; 32], [u8; 32])]) -> bool
    ensures { IsTrue result → map key_of_use uses.now ≡ keys.now }
{
    if uses.len() != keys.len() {
        return false;
    }
    'uses: for index in 0..uses.len() {
        if !has_key(&uses[index], &keys[index]) {
            return false;
        }
    }
    true
}

/// Puts the answers in the order of their uses, which come in that of their ticks. A use without an answer is
/// damage, and so is an answer without a use. Two uses of one key or of one tick are `Sql`, since the table
/// excludes them.
pub(crate) fn follow_uses(
    alloc: Global,
    answers: &mut AnswerList,
    uses: &[UseRow],
) -> Result<(), StoreFault>
    ensures limit { answers.new.limit ≡ answers.old.limit }
    ensures uses { OnOk result (AreUsesOf answers.new.next uses.now answers.new.answers) }
    ensures next { OnOk result (IsNextTick answers.new.next) }
    ensures moved { OnOk result (IsPermutation answers.new.answers answers.old.answers) }
    ensures keys { OnOk result (HaveOwnKeys answers.new.answers) }
    ensures broken { IfErr result (IsDamage (¬ AreUsesFor uses.now answers.old.answers)) }
{
    let next = next_after(uses)?;
    if !have_answers(answers, uses) {
        return Err(StoreFault::Damaged);
    }
    bring_each(answers, uses);
    let keys = answers.keys(alloc)?;
    if !have_keys(uses, keys.as_slice()) {
        return Err(StoreFault::Sql(Error::InvalidQuery));
    }
    answers.set_next(next);
    // The contract of `len` says that each key is in the list once.
    let _length = answers.len();
    Ok(())
}
