//! The commits that the rows of `commits` hold, with the files that the rows of `entries` give them.

ghost use Rattle.std.specs.Prelude.{◌≡◌, ◌+◌, ◌<◌, ◌≤◌, ◌^◌, [], map, pos, length, IsTrue, IsPermutation, IfOk, IfErr, IfSome, IfNone, OnOk};
ghost use Rattle.std.specs.List.{AllByRecursion};
ghost use Rattle.store_tables.specs.Rowids.{IsLastRowidBelow, AreRisingRowids as IsRisingNumbers};
ghost use Rattle.hook_base.specs.Trees.{IsRising};
ghost use Rattle.repo_store.specs.Complete.{HaveContents};
ghost use Rattle.store_faults.specs.Faults.{IsDamage};
ghost use Rattle.repo_store.specs.FromRows.{AreBare, AreEntered, with_file};
ghost use Rattle.store_faults.specs.Limits.{IsSmall};
ghost use Rattle.repo_store.specs.Lists.{commit_of, file_of};
ghost use Rattle.repo_store.specs.Repository.{Commit};
ghost use Rattle.repo_store.specs.RowRules.{AreCommitRows, IsEntryRow, IsNumbered, commit_number_in};
ghost use Rattle.repo_store.specs.Rows.{blob_row, commit_rows, entry_rows};

use super::columns::file_at;
use super::staged::add_file;
use crate::StoreFault;
use crate::contents::Contents;
use crate::shared::{ListedFile, SharedCommit};
use sqlite::Error;
use std::alloc::Global;
use store_faults::{MOST_COMMITS, MOST_CONTENT_BYTES};
use store_tables::{CommitRow, EntryRow};

// Whether the number of a commit is greater than the last.
fn is_above(last: Option<i64>, number: i64) -> bool
    ensures { IsTrue result → IsLastRowidBelow last number }
{
    match last {
        None => true,
        Some(before) => before < number,
    }
}

// Whether the number of each commit is less than that of the next.
fn commits_rise(rows: &[CommitRow]) -> bool
    ensures { IsTrue result → IsRisingNumbers (map commit_number_in rows.now) }
{
    let mut last: Option<i64> = None;
    for row in rows {
        if !is_above(last, row.n) {
            return false;
        }
        last = Some(row.n);
    }
    true
}

// The commit of a row, which must be numbered next after this many commits; without its files.
fn commit_at(alloc: Global, commits: usize, row: CommitRow) -> Result<SharedCommit, StoreFault>
    requires { commits < 2 ^ 62 }
    ensures commit { IfOk result (λ commit. commit_of commit ≡ record { message = row.message; tree = [] }) }
    ensures obeys { OnOk result ((row.n ≡ pos (commits + 1)) × IsSmall row.message) }
    ensures broken { IfErr result (IsDamage (¬ ((row.n ≡ pos (commits + 1)) × IsSmall row.message))) }
{
    if row.n != commits as i64 + 1 {
        return Err(StoreFault::Damaged);
    }
    if row.message.len() > MOST_CONTENT_BYTES {
        return Err(StoreFault::Damaged);
    }
    Ok(SharedCommit {
        message: row.message,
        files: Vec::new(alloc),
    })
}

// The commits of these rows, without their files.
fn history_of(alloc: Global, rows: Vec<CommitRow>) -> Result<Vec<SharedCommit>, StoreFault>
    ensures commits { IfOk result (λ history. commit_rows 1 (map commit_of history.items) ≡ rows.items) }
    ensures bare { IfOk result (λ history. AreBare (map commit_of history.items)) }
    ensures obeys { OnOk result (AreCommitRows rows.items) }
    ensures broken { IfErr result (IsDamage (¬ AreCommitRows rows.items)) }
{
    if !commits_rise(rows.as_slice()) {
        return Err(StoreFault::Sql(Error::InvalidQuery));
    }
    if rows.len() > MOST_COMMITS {
        return Err(StoreFault::Damaged);
    }
    let mut history = Vec::new(alloc);
    'rows: for row in rows {
        let commit = commit_at(alloc, history.len(), row)?;
        history.push(commit)?;
    }
    Ok(history)
}

// The index of the commit of a number, out of this many commits. A number that no commit has is damage.
fn place_of(number: i64, commits: usize) -> Result<usize, StoreFault>
    ensures there { IfOk result (λ place. (number ≡ pos (place + 1)) × (place + 1 ≤ commits)) }
    ensures nowhere { IfErr result (λ fault. (fault ≡ StoreFault.Damaged) × ¬ IsNumbered commits number) }
{
    if number < 1 {
        return Err(StoreFault::Damaged);
    }
    let place = (number - 1) as usize;
    if place >= commits {
        return Err(StoreFault::Damaged);
    }
    Ok(place)
}

// Adds a file to the commit at an index, after its other files.
fn add_entry(
    history: &mut Vec<SharedCommit>,
    place: usize,
    file: ListedFile,
) -> Result<(), StoreFault>
    requires there { place < length history.old.items }
    requires rising { AllByRecursion (λ (commit : Commit). IsRising commit.tree) (map commit_of history.old.items) }
    ensures added { OnOk result (map commit_of history.new.items
        ≡ with_file place (file_of file) (map commit_of history.old.items)) }
    ensures rising { OnOk result (AllByRecursion (λ (commit : Commit). IsRising commit.tree)
        (map commit_of history.new.items)) }
    ensures why { IfErr result (IsDamage ⊥) }
{
    let commit = &mut history[place];
    add_file(&mut commit.files, file)
}

// Adds the files of these rows to their commits, which have none yet.
fn add_entries(
    alloc: Global,
    contents: &Contents,
    history: &mut Vec<SharedCommit>,
    rows: Vec<EntryRow>,
) -> Result<(), StoreFault>
    requires { AreBare (map commit_of history.old.items) }
    ensures entered { OnOk result (AreEntered (map commit_of history.old.items) (map commit_of history.new.items)
        rows.items) }
    ensures among { OnOk result (AllByRecursion (λ (commit : Commit). HaveContents contents.now commit.tree)
        (map commit_of history.new.items)) }
    ensures obeys { OnOk result (AllByRecursion (IsEntryRow (map blob_row contents.now) (length history.old.items))
        rows.items) }
    ensures broken { IfErr result (IsDamage
        (¬ AllByRecursion (IsEntryRow (map blob_row contents.now) (length history.old.items)) rows.items)) }
{
    'rows: for row in rows {
        let place = place_of(row.n, history.len())?;
        let file = file_at(
            alloc,
            contents,
            row.path.as_slice(),
            row.mode,
            row.digest.as_slice(),
        )?;
        add_entry(history, place, file)?;
    }
    Ok(())
}

/// The commits of these rows, with their files.
pub(crate) fn commits_of(
    alloc: Global,
    contents: &Contents,
    commits: Vec<CommitRow>,
    entries: Vec<EntryRow>,
) -> Result<Vec<SharedCommit>, StoreFault>
    ensures commits { IfOk result (λ history. commit_rows 1 (map commit_of history.items) ≡ commits.items) }
    ensures entries { IfOk result (λ history. IsPermutation (entry_rows 1 (map commit_of history.items)) entries.items) }
    ensures rising { IfOk result (λ history. AllByRecursion (λ (commit : Commit). IsRising commit.tree)
        (map commit_of history.items)) }
    ensures among { IfOk result (λ history. AllByRecursion (λ (commit : Commit). HaveContents contents.now commit.tree)
        (map commit_of history.items)) }
    ensures obeys { OnOk result (AreCommitRows commits.items
        × AllByRecursion (IsEntryRow (map blob_row contents.now) (length commits.items)) entries.items) }
    ensures broken { IfErr result (IsDamage
        (¬ (AreCommitRows commits.items × AllByRecursion (IsEntryRow (map blob_row contents.now) (length commits.items))
        entries.items))) }
{
    let mut history = history_of(alloc, commits)?;
    add_entries(alloc, contents, &mut history, entries)?;
    Ok(history)
}
