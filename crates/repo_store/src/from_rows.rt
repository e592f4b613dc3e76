//! Reads the lists from the rows of all tables, and finds which rows are damaged (docs/REFERENCE.md, "The
//! store"). There is one file for each table, one for columns that several tables have, and one for each
//! record of an answer.

mod answers;
mod blobs;
mod changed_files;
mod columns;
mod commits;
mod fixes;
mod meta;
mod recorded;
mod seen_files;
mod staged;
mod uses;
mod words;

ghost use Rattle.std.specs.Prelude.{◌≡◌, ℕ, List, map, reverse, IfOk, IfErr, OnOk};
ghost use Rattle.std.specs.declared.cmp.Ordering.TheVariants.{Less};
ghost use Rattle.sqlite_trees.specs.Tree.{IsAscending};
ghost use Rattle.store_tables.specs.declared.rows.MetaRow.{MetaRow};
ghost use Rattle.repo_store.specs.Answers.{HaveOwnKeys};
ghost use Rattle.repo_store.specs.Bounded.{AreBoundedRows, AreVersionRows, key_cmp};
ghost use Rattle.repo_store.specs.Complete.{IsComplete};
ghost use Rattle.store_faults.specs.Faults.{IsDamage};
ghost use Rattle.repo_store.specs.FromRows.{AreRowsRefused, AreRowsWithin, IsSame, tables_of_rows, tables_with};
ghost use Rattle.repo_store.specs.Index.{key_of};
ghost use Rattle.repo_store.specs.Kept.{limiting};
ghost use Rattle.store_faults.specs.Limits.{IsLimit, first_limit};
ghost use Rattle.repo_store.specs.ListedAnswers.{IsNextTick};
ghost use Rattle.repo_store.specs.RowRules.{AreFirstVersionRows, AreStoreRows};
ghost use Rattle.repo_store.specs.Rows.{answer_row, first_tables_of, tables_of};
ghost use Rattle.repo_store.specs.Standing.{TellKeys};
ghost use Rattle.repo_store.specs.UsesOf.{AreUsesOf};

use crate::StoreFault;
use crate::lists::Lists;
use crate::table_rows::{StoreRows, TableRows};
use answers::{answers_of, answers_rise};
use blobs::contents_of;
use commits::commits_of;
use fixes::fixes_of;
use meta::{is_first_version, is_second_version, limit_in};
use sqlite::Error;
use staged::staged_of;
use std::alloc::Global;
use store_faults::FIRST_LIMIT;
use store_tables::UseRow;
pub(crate) use uses::follow_uses;

/// The lists that these rows hold, except for the order of the answers: that of the last row comes first.
fn lists_of(alloc: Global, limit: u32, rows: StoreRows) -> Result<Lists, StoreFault>
    requires { IsLimit limit }
    ensures same { IfOk result (λ lists. (meta : List MetaRow)
        → IsSame (tables_of_rows meta rows) (tables_with meta lists.kept)) }
    ensures order { IfOk result (λ lists. map answer_row lists.kept.answers ≡ reverse rows.answers.items) }
    ensures limit { IfOk result (λ lists. lists.kept.limit ≡ limit) }
    ensures next { IfOk result (λ lists. lists.next ≡ 1) }
    ensures complete { IfOk result (λ lists. (limit : ℕ) → IsLimit limit → IsComplete (limiting limit lists.kept)) }
    ensures answers { IfOk result (λ lists. HaveOwnKeys lists.kept.answers × TellKeys lists.kept.answers) }
    ensures obeys { OnOk result ((meta : List MetaRow) → AreStoreRows (tables_of_rows meta rows)) }
    ensures broken { IfErr result (IsDamage ((meta : List MetaRow) → ¬ AreStoreRows (tables_of_rows meta rows))) }
{
    let StoreRows {
        blobs,
        staged,
        fixes,
        commits,
        entries,
        answers,
    } = rows;
    let contents = contents_of(alloc, blobs)?;
    let staged = staged_of(alloc, &contents, staged)?;
    let fixes = fixes_of(alloc, &contents, staged.as_slice(), fixes)?;
    let history = commits_of(alloc, &contents, commits, entries)?;
    let answers = answers_of(alloc, limit, &contents, answers)?;
    Ok(Lists::of(contents, history, staged, fixes, answers))
}

// The lists that these rows hold, with the answers in the order of their uses. More answers than the limit
// are damage.
fn lists_within(
    alloc: Global,
    limit: u32,
    rows: StoreRows,
    uses: &[UseRow],
) -> Result<Lists, StoreFault>
    requires { IsLimit limit }
    ensures same { IfOk result (λ lists. (meta : List MetaRow)
        → IsSame (tables_of_rows meta rows) (tables_with meta lists.kept)) }
    ensures limit { IfOk result (λ lists. lists.kept.limit ≡ limit) }
    ensures uses { IfOk result (λ lists. AreUsesOf lists.next uses.now lists.kept.answers) }
    ensures next { IfOk result (λ lists. IsNextTick lists.next) }
    ensures complete { IfOk result (λ lists. IsComplete lists.kept) }
    ensures obeys { OnOk result ((meta : List MetaRow) → AreStoreRows (tables_of_rows meta rows)) }
    ensures broken { IfErr result (IsDamage (¬ AreRowsWithin limit rows uses.now)) }
{
    let mut lists = lists_of(alloc, limit, rows)?;
    if lists.count_answers() > limit as u64 {
        return Err(StoreFault::Damaged);
    }
    lists.follow_uses(uses)?;
    Ok(lists)
}

/// The lists of a store of version 2. Its rows come in the order of their keys, and the uses in that of their
/// ticks.
pub(crate) fn second_lists_of(
    alloc: Global,
    tables: TableRows,
    uses: Vec<UseRow>,
) -> Result<Lists, StoreFault>
    ensures same { IfOk result (λ lists. IsSame (tables_of_rows tables.meta.items tables.store) (tables_of lists.kept)) }
    ensures uses { IfOk result (λ lists. AreUsesOf lists.next uses.items lists.kept.answers) }
    ensures next { IfOk result (λ lists. IsNextTick lists.next) }
    ensures complete { IfOk result (λ lists. IsComplete lists.kept) }
    ensures obeys { OnOk result (AreStoreRows (tables_of_rows tables.meta.items tables.store)) }
    ensures refused { IfErr result (AreRowsRefused (AreVersionRows tables.meta.items)
        (AreBoundedRows (tables_of_rows tables.meta.items tables.store) uses.items)) }
{
    let TableRows { meta, store } = tables;
    if !is_second_version(meta.as_slice()) {
        return Err(StoreFault::NotAStore);
    }
    match limit_in(meta.as_slice()) {
        Some(limit) => lists_within(alloc, limit, store, uses.as_slice()),
        None => Err(StoreFault::Damaged),
    }
}

/// The lists of a store of version 1, with the answers in the order that a migration gives them. The answers
/// must come in the order of their keys: any other order is `Sql`.
pub(crate) fn first_lists_of(alloc: Global, tables: TableRows) -> Result<Lists, StoreFault>
    ensures same { IfOk result (λ lists. IsSame (tables_of_rows tables.meta.items tables.store)
        (first_tables_of lists.kept)) }
    ensures fall { IfOk result (λ lists. IsAscending (λ a b. key_cmp (key_of b) (key_of a) ≡ Less) lists.kept.answers) }
    ensures limit { IfOk result (λ lists. lists.kept.limit ≡ first_limit) }
    ensures next { IfOk result (λ lists. lists.next ≡ 1) }
    ensures complete { IfOk result (λ lists. (limit : ℕ) → IsLimit limit → IsComplete (limiting limit lists.kept)) }
    ensures answers { IfOk result (λ lists. HaveOwnKeys lists.kept.answers × TellKeys lists.kept.answers) }
    ensures obeys { OnOk result (AreStoreRows (tables_of_rows tables.meta.items tables.store)) }
    ensures refused { IfErr result (AreRowsRefused (AreFirstVersionRows tables.meta.items)
        (AreStoreRows (tables_of_rows tables.meta.items tables.store))) }
{
    let TableRows { meta, store } = tables;
    if !is_first_version(meta.as_slice()) {
        return Err(StoreFault::NotAStore);
    }
    if !answers_rise(store.answers.as_slice()) {
        return Err(StoreFault::Sql(Error::InvalidQuery));
    }
    lists_of(alloc, FIRST_LIMIT, store)
}
