//! What the rows of `meta` say: the version of a store, and in version 2 how many answers it caches at most
//! (docs/REFERENCE.md, "The store").

ghost use Rattle.std.specs.Prelude.{◌≡◌, ◌↔◌, ℕ, ◌∷◌, [], pos, IsPermutation, IfNone, IfSome, IsTrue};
ghost use Rattle.repo_store.specs.Bounded.{AreVersionRows};
ghost use Rattle.repo_store.specs.FromRows.{HasLimit};
ghost use Rattle.store_faults.specs.Limits.{IsLimit};
ghost use Rattle.repo_store.specs.Rows.{first_version_row, limit_row, version_row};

use store_faults::MOST_ANSWERS;
use store_tables::MetaRow;

fn is_number(value: i64, number: i64) -> bool
    ensures { IsTrue result ↔ (value ≡ number) }
{
    value == number
}

// Whether this says that the store is of version 1.
fn is_first_version_row(row: &MetaRow) -> bool
    ensures { IsTrue result ↔ (row.now ≡ first_version_row) }
{
    is_number(row.value, 1) && row.name.as_slice() == b"version".as_slice()
}

// Whether this says that the store is of version 2.
fn is_version_row(row: &MetaRow) -> bool
    ensures { IsTrue result ↔ (row.now ≡ version_row) }
{
    is_number(row.value, 2) && row.name.as_slice() == b"version".as_slice()
}

// Whether this says how many answers the store caches at most.
fn is_limit_row(row: &MetaRow) -> bool
    ensures { IsTrue result ↔ (row.now ≡ limit_row row.now.value) }
{
    row.name.as_slice() == b"limit".as_slice()
}

/// Whether the numbers that a store keeps about itself are those of version 1.
pub(crate) fn is_first_version(rows: &[MetaRow]) -> bool
    ensures { IsTrue result ↔ (rows.now ≡ first_version_row ∷ []) }
{
    match rows {
        [row] => is_first_version_row(row),
        _ => false,
    }
}

// Whether the first row is that of version 2, and the second that of the limit.
fn are_version_and_limit(version: &MetaRow, limit: &MetaRow) -> bool
    ensures { IsTrue result ↔ ((version.now ≡ version_row) × (limit.now ≡ limit_row limit.now.value)) }
{
    is_version_row(version) && is_limit_row(limit)
}

/// Whether the numbers that a store keeps about itself are those of version 2, with or without a limit.
pub(crate) fn is_second_version(rows: &[MetaRow]) -> bool
    ensures { IsTrue result ↔ AreVersionRows rows.now }
{
    match rows {
        [row] => is_version_row(row),
        [row, other] => are_version_and_limit(row, other) || are_version_and_limit(other, row),
        _ => false,
    }
}

// The limit, if the number is in its range.
fn limit_at(number: i64) -> Option<u32>
    ensures limit { IfSome result (λ limit. pos limit ≡ number) }
    ensures within { IfSome result IsLimit }
    ensures none { IfNone result ((limit : ℕ) → IsLimit limit → ¬ (number ≡ pos limit)) }
{
    if number < 1 || number > MOST_ANSWERS as i64 {
        return None;
    }
    Some(number as u32)
}

/// How many answers a store of version 2 caches at most, if it says so and the number is in its range.
pub(crate) fn limit_in(rows: &[MetaRow]) -> Option<u32>
    requires { AreVersionRows rows.now }
    ensures limit { IfSome result (λ limit. IsPermutation rows.now (version_row ∷ limit_row (pos limit) ∷ [])) }
    ensures within { IfSome result IsLimit }
    ensures none { IfNone result (¬ HasLimit rows.now) }
{
    match rows {
        [row, other] => {
            if is_version_row(row) {
                limit_at(other.value)
            } else {
                limit_at(row.value)
            }
        }
        _ => None,
    }
}
