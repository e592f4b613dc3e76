//! One column of a query's row, read as the type that its table gives it.

ghost use Rattle.std.specs.Prelude.{◌≡◌, ◌≤◌, length, map, drop, IfOk, OnOk};
ghost use Rattle.sqlite_value.specs.declared.value.Value.TheVariants.{Int, Text, Blob};
ghost use Rattle.sqlite_value.specs.Order.{column};
ghost use Rattle.sqlite.specs.Values.{or_null};

use owned_lists::Bytes;
use sqlite::types::{Type, ValueRef};
use sqlite::{Error, Row};
use std::alloc::Global;

/// What a row of a query's result holds from a given column on.
pub(crate) trait FromColumns: Drop {
    ghost use Rattle.sqlite_value.specs.Order.{Row as SqlRow};

    ghost cells: { Self → SqlRow };

    fn from_columns(alloc: Global, row: &Row, first: usize) -> Result<Self, Error>
        requires { first ≤ 1 }
        ensures { IfOk result (λ it. drop first row.now ≡ cells it) };
}

pub(crate) fn has_columns(row: &Row, count: usize) -> Result<(), Error>
    ensures { OnOk result (length row.now ≡ count) }
{
    if row.column_count() == count {
        Ok(())
    } else {
        Err(Error::InvalidColumnIndex(count))
    }
}

pub(crate) fn number_at(row: &Row, at: usize) -> Result<i64, Error>
    ensures { IfOk result (λ n. column row.now at ≡ Int n) }
{
    row.get(at)
}

/// The bytes of a text, whether or not they are valid UTF-8.
pub(crate) fn text_at(alloc: Global, row: &Row, at: usize) -> Result<Bytes, Error>
    ensures { IfOk result (λ text. column row.now at ≡ Text text) }
{
    match row.get_ref(at)? {
        ValueRef::Text(bytes) => Ok(Bytes::from(bytes.to_vec(alloc)?)),
        value => Err(Error::InvalidColumnType(at, Type::of(value))),
    }
}

pub(crate) fn blob_at(alloc: Global, row: &Row, at: usize) -> Result<Bytes, Error>
    ensures { IfOk result (λ bytes. column row.now at ≡ Blob bytes) }
{
    match row.get_ref(at)? {
        ValueRef::Blob(bytes) => Ok(Bytes::from(bytes.to_vec(alloc)?)),
        value => Err(Error::InvalidColumnType(at, Type::of(value))),
    }
}

pub(crate) fn blob_if_any(alloc: Global, row: &Row, at: usize) -> Result<Option<Bytes>, Error>
    ensures { IfOk result (λ bytes. column row.now at ≡ or_null Blob bytes) }
{
    match row.get_ref(at)? {
        ValueRef::Null => Ok(None),
        ValueRef::Blob(bytes) => Ok(Some(Bytes::from(bytes.to_vec(alloc)?))),
        value => Err(Error::InvalidColumnType(at, Type::of(value))),
    }
}

/// Decodes each row of a query's result from a given column on. A row is freed as soon as it is decoded, so
/// that no more than one row's contents are in memory twice.
pub(crate) fn decoded<T: FromColumns>(
    alloc: Global,
    rows: Vec<Row>,
    first: usize,
) -> Result<Vec<T>, Error>
    requires { first ≤ 1 }
    ensures { IfOk result (λ items. map T.cells items.items ≡ map (drop first) rows.items) }
{
    let mut items = Vec::with_capacity(alloc, rows.len())?;
    for row in rows {
        items.push(T::from_columns(alloc, &row, first)?)?;
    }
    Ok(items)
}
