//! The rowids in the rows of a query: whether all are distinct, and whether one more row could be added.

ghost use Rattle.std.specs.Prelude.{◌≡◌, drop, map, IfOk, IsTrue};
ghost use Rattle.sqlite_value.specs.declared.value.Value.TheVariants.{Int};
ghost use Rattle.sqlite_value.specs.Order.{column};
ghost use Rattle.store_tables.specs.Rowids.{AreDistinct, IsLastRowidBelow, AreRisingRowids, ShowRowids};

use crate::columns::{FromColumns, decoded, number_at};
use sqlite::{Error, ErrorCode, Row};
use std::alloc::Global;

/// The rowid in the first column of each row. `NoRowid` comes if one of them is the greatest rowid: a row is
/// added after all others, so no further row could be.
pub(crate) fn rowids_in(alloc: Global, rows: &[Row]) -> Result<Vec<i64>, Error>
    ensures { IfOk result (λ rowids. map Int rowids.items ≡ map (λ row. column row 0) rows.now) }
{
    let mut rowids = Vec::new(alloc);
    for row in rows {
        let rowid = number_at(row, 0)?;
        if rowid == i64::MAX {
            return Err(Error::SqliteFailure(ErrorCode::NoRowid));
        }
        rowids.push(rowid)?;
    }
    Ok(rowids)
}

fn is_below(last: Option<i64>, next: i64) -> bool
    ensures { IsTrue result → IsLastRowidBelow last next }
{
    match last {
        None => true,
        Some(before) => before < next,
    }
}

fn rises(numbers: &[i64]) -> bool
    ensures { IsTrue result → AreRisingRowids numbers.now }
{
    let mut last: Option<i64> = None;
    for number in numbers {
        if !is_below(last, *number) {
            return false;
        }
        last = Some(*number);
    }
    true
}

// Whether no number comes twice. Sorts the numbers.
fn are_apart(numbers: &mut Vec<i64>) -> bool
    ensures { IsTrue result → AreDistinct numbers.old.items }
{
    numbers.sort_unstable();
    rises(numbers)
}

/// Decodes each row of a query's result, whose first column is the rowid, from the second column on.
/// `InvalidQuery` comes if two rows have the same rowid, and `NoRowid` if one has the greatest.
pub(crate) fn decoded_apart<T: FromColumns>(alloc: Global, shown: Vec<Row>) -> Result<Vec<T>, Error>
    ensures rows { IfOk result (λ items. map T.cells items.items ≡ map (drop 1) shown.items) }
    ensures apart { IfOk result (λ items. ShowRowids shown.items) }
{
    let mut rowids = rowids_in(alloc, &shown)?;
    if !are_apart(&mut rowids) {
        return Err(Error::InvalidQuery);
    }
    decoded(alloc, shown, 1)
}
