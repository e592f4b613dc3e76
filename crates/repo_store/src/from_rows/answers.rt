//! The answers that the rows of `answers` hold.

ghost use Rattle.std.specs.Prelude.{◌≡◌, ◌≤◌, ◌↔◌, pos, map, reverse, IfOk, IfErr, OnOk, IsTrue};
ghost use Rattle.std.specs.List.{AllByRecursion};
ghost use Rattle.std.specs.Option.{option_copied};
ghost use Rattle.std.specs.declared.cmp.Ordering.TheVariants.{Less};
ghost use Rattle.hook_base.specs.Trees.{IsRising};
ghost use Rattle.sqlite_trees.specs.Tree.{IsAscending};
ghost use Rattle.repo_store.specs.Answers.{HaveOwnKeys};
ghost use Rattle.repo_store.specs.Bounded.{key_cmp, key_of_answer};
ghost use Rattle.repo_store.specs.Complete.{HasRecords, HaveRecords};
ghost use Rattle.store_faults.specs.Faults.{IsDamage};
ghost use Rattle.repo_store.specs.FromRows.{FollowsKey, IsKeyBelow};
ghost use Rattle.store_faults.specs.Limits.{IsLimit, most_status};
ghost use Rattle.repo_store.specs.Lists.{file_of, fix_of};
ghost use Rattle.repo_store.specs.RowRules.{IsAnswerRow, IsStatus};
ghost use Rattle.repo_store.specs.Rows.{answer_row, blob_row};
ghost use Rattle.repo_store.specs.SoundAnswers.{IsSoundAnswer, KeepToSeen};

use super::changed_files::changes_at;
use super::columns::content_at;
use super::seen_files::seen_files_at;
use super::words::words_at;
use crate::StoreFault;
use crate::answer_list::AnswerList;
use crate::contents::Contents;
use crate::files::has_path;
use crate::shared::{ListedFile, SharedFix};
use crate::shared_answer::{AnswerRecords, SharedAnswer};
use std::alloc::Global;
use std::cmp::Ordering;
use store_tables::AnswerRow;

// The exit code of a row. A number that isn't from 0 to 255 is damage.
fn status_at(number: i64) -> Result<u8, StoreFault>
    ensures status { IfOk result (λ status. pos status ≡ number) }
    ensures known { IfOk result (λ status. status ≤ most_status) }
    ensures unknown { IfErr result (IsDamage (¬ IsStatus number)) }
{
    if number < 0 || number > 255 {
        return Err(StoreFault::Damaged);
    }
    Ok(number as u8)
}

// Whether each change is of one of the files.
fn keep_to_seen(changes: &[SharedFix], seen: &[ListedFile]) -> bool
    requires { IsRising (map file_of seen.now) }
    ensures { IsTrue result ↔ KeepToSeen (map fix_of changes.now) (map file_of seen.now) }
{
    'changes: for change in changes {
        if !has_path(seen, &change.path) {
            return false;
        }
    }
    true
}

// The answer of a row.
fn answer_of(
    alloc: Global,
    contents: &Contents,
    row: &AnswerRow,
) -> Result<SharedAnswer, StoreFault>
    ensures row { IfOk result (λ answer. answer_row answer ≡ row.now) }
    ensures sound { IfOk result IsSoundAnswer }
    ensures records { IfOk result (HasRecords contents.now) }
    ensures broken { IfErr result (IsDamage (¬ IsAnswerRow (map blob_row contents.now) row.now)) }
{
    let status = status_at(row.status)?;
    let words = words_at(alloc, contents, row.words.as_slice())?;
    let seen = seen_files_at(alloc, contents, row.seen.as_slice())?;
    let output = content_at(contents, row.output.as_slice())?;
    let changes = changes_at(alloc, contents, row.changes.as_slice())?;
    if !keep_to_seen(changes.part.as_slice(), seen.part.as_slice()) {
        return Err(StoreFault::Damaged);
    }
    let records = AnswerRecords {
        words: words.record,
        seen: seen.record,
        changes: changes.record,
    };
    Ok(SharedAnswer::of(words.part, seen.part, output, changes.part, status, records))
}

/// The answers of these rows, that of the last row first.
pub(crate) fn answers_of(
    alloc: Global,
    limit: u32,
    contents: &Contents,
    rows: Vec<AnswerRow>,
) -> Result<AnswerList, StoreFault>
    requires { IsLimit limit }
    ensures rows { IfOk result (λ list. map answer_row list.answers ≡ reverse rows.items) }
    ensures limit { IfOk result (λ list. list.limit ≡ limit) }
    ensures next { IfOk result (λ list. list.next ≡ 1) }
    ensures sound { IfOk result (λ list. AllByRecursion IsSoundAnswer list.answers) }
    ensures records { IfOk result (λ list. HaveRecords contents.now list.answers) }
    ensures keys { IfOk result (λ list. HaveOwnKeys list.answers) }
    ensures obeys { OnOk result (AllByRecursion (IsAnswerRow (map blob_row contents.now)) rows.items) }
    ensures broken { IfErr result (IsDamage (¬ AllByRecursion (IsAnswerRow (map blob_row contents.now)) rows.items)) }
{
    let mut answers = AnswerList::new(alloc, limit)?;
    'rows: for row in rows {
        let answer = answer_of(alloc, contents, &row)?;
        answers.admit(answer)?;
    }
    Ok(answers)
}

// Whether the key of a row comes after another.
fn is_above(last: &AnswerRow, row: &AnswerRow) -> bool
    ensures { IsTrue result ↔ (key_cmp (key_of_answer last.now) (key_of_answer row.now) ≡ Less) }
{
    match last.words.as_slice().cmp(row.words.as_slice()) {
        Ordering::Less => true,
        Ordering::Equal => matches!(
            last.seen.as_slice().cmp(row.seen.as_slice()),
            Ordering::Less
        ),
        Ordering::Greater => false,
    }
}

// Whether the key of a row comes after that of the last, if there is one.
fn follows(last: Option<&AnswerRow>, row: &AnswerRow) -> bool
    ensures { IsTrue result ↔ FollowsKey (option_copied last.entry) row.now }
{
    match last {
        Some(last) => is_above(last, row),
        None => true,
    }
}

/// Whether the key of each row comes before that of the next.
pub(crate) fn answers_rise(rows: &[AnswerRow]) -> bool
    ensures { IsTrue result → IsAscending IsKeyBelow rows.now }
{
    let mut last: Option<&AnswerRow> = None;
    'rows: for row in rows {
        if !follows(last, row) {
            return false;
        }
        last = Some(row);
    }
    true
}
