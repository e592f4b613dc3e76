//! Whether a database has exactly the tables of a store, of version 1 or of version 2: its schema is compared
//! part by part.

ghost use Rattle.std.specs.Prelude.{◌≡◌, ◌↔◌, ◌+◌, ◌∷◌, [], ◌<◌, ◌^◌, None, Some, true, false, drop, IsTrue};
ghost use Rattle.sqlite_value.specs.Keys.{plain};
ghost use Rattle.sqlite.specs.Effect.{IsDatabase};
ghost use Rattle.sqlite.specs.Held.{state};
ghost use Rattle.store_tables.specs.Schema as spec;
ghost use Rattle.store_tables.specs.Shape.{IsPlain, IsKeyed};
ghost use Rattle.store_tables.specs.Schema.{column_of, refers_to, schema_with_uses, store_schema};

use sqlite::{Alter, Connection};
use sqlite_items::Items;
use sqlite_schema::code::Terms;
use sqlite_schema::schema::{Action, Column, Index, Kind, Reference, Stamps, Table};
use sqlite_value::keys::{Collation, Order};
use sqlite_value::value::Value;

// Whether this is the column of this name and type in a STRICT table, without a default and compared as
// BINARY.
fn is_column(column: &Column, name: &str, kind: Kind, not_null: bool) -> bool
    ensures { IsTrue result ↔ (column.now ≡ column_of name.now kind not_null) }
{
    column.name.as_slice() == name.as_bytes()
        && column.kind == kind
        && column.is_strict
        && column.not_null == not_null
        && matches!(&column.default, Value::Null)
        && column.collation == Collation::Binary
}

// Whether this is a reference to a table's primary key, checked at once and without ON DELETE and ON UPDATE
// actions. Its rules are those of SQLite's "SQLite Foreign Key Support", sections 4.2 and 4.3.
fn is_reference(reference: &Reference, place: usize, parent: &str) -> bool
    ensures { IsTrue result ↔ (reference.now ≡ refers_to place parent.now) }
{
    reference.columns.as_slice() == [place].as_slice()
        && reference.parent.as_slice() == parent.as_bytes()
        && reference.parent_columns.is_empty()
        && reference.on_delete == Action::NoAction
        && reference.on_update == Action::NoAction
        && !reference.is_deferred
}

fn has_no_terms(terms: &Terms) -> bool
    ensures { IsTrue result ↔ (terms.now ≡ []) }
{
    terms.roots.is_empty()
}

fn has_no_stamps(stamps: &Stamps) -> bool
    ensures { IsTrue result ↔ (stamps.now ≡ record { places = []; terms = []; formats = [] }) }
{
    stamps.places.is_empty() && has_no_terms(&stamps.terms) && stamps.formats.is_empty()
}

// Whether a table has this name and b-tree, and no rules except its columns, keys and references.
fn is_plain(table: &Table, name: &str, tree: u32) -> bool
    ensures { IsTrue result ↔ IsPlain table.now name.now tree }
{
    table.name.as_slice() == name.as_bytes()
        && table.tree == tree
        && has_no_terms(&table.checks)
        && table.computed.is_empty()
        && has_no_stamps(&table.stamps)
        && !table.is_counted
}

fn is_plain_order(order: &Order) -> bool
    ensures { IsTrue result ↔ (order.now ≡ plain) }
{
    order.digits == 0
}

fn is_key(key: &Items<usize>, places: &[usize]) -> bool
    ensures { IsTrue result ↔ (key.now ≡ places.now) }
{
    key.as_slice() == places
}

fn is_only_key(keys: &[Items<usize>], places: &[usize]) -> bool
    ensures { IsTrue result ↔ (keys.now ≡ places.now ∷ []) }
{
    match keys {
        [key] => is_key(key, places),
        _ => false,
    }
}

fn is_only_order(orders: &[Order]) -> bool
    ensures { IsTrue result ↔ (orders.now ≡ plain ∷ []) }
{
    match orders {
        [order] => is_plain_order(order),
        _ => false,
    }
}

// Whether these places are the primary key of a table, with an index of its own.
fn has_index_key(table: &Table, places: &[usize]) -> bool
    ensures { IsTrue result ↔ IsKeyed table.now None places.now (places.now ∷ []) }
{
    table.key.is_none()
        && table.primary.as_slice() == places
        && is_only_key(table.uniques.as_slice(), places)
        && is_only_order(table.orders.as_slice())
}

// Whether the primary key of a table is its first column, as the rowid (SQLite's "CREATE TABLE", "ROWIDs and
// the INTEGER PRIMARY KEY").
fn has_rowid_key(table: &Table) -> bool
    ensures { IsTrue result ↔ IsKeyed table.now (Some 0) (0 ∷ []) [] }
{
    table.key == Some(0)
        && table.primary.as_slice() == [0usize].as_slice()
        && table.uniques.is_empty()
        && table.orders.is_empty()
}

fn is_meta(table: &Table) -> bool
    ensures { IsTrue result ↔ (table.now ≡ spec.meta) }
{
    match (table.columns.as_slice(), table.references.as_slice()) {
        ([name, value], []) => {
            is_plain(table, "meta", 0)
                && has_index_key(table, &[1])
                && is_column(name, "name", Kind::Text, true)
                && is_column(value, "value", Kind::Integer, true)
        }
        _ => false,
    }
}

fn is_blobs(table: &Table) -> bool
    ensures { IsTrue result ↔ (table.now ≡ spec.blobs) }
{
    match (table.columns.as_slice(), table.references.as_slice()) {
        ([digest, bytes], []) => {
            is_plain(table, "blobs", 2)
                && has_index_key(table, &[1])
                && is_column(digest, "digest", Kind::Blob, true)
                && is_column(bytes, "bytes", Kind::Blob, true)
        }
        _ => false,
    }
}

fn is_staged(table: &Table) -> bool
    ensures { IsTrue result ↔ (table.now ≡ spec.staged) }
{
    match (table.columns.as_slice(), table.references.as_slice()) {
        ([path, mode, digest], [blob]) => {
            is_plain(table, "staged", 4)
                && has_index_key(table, &[1])
                && is_column(path, "path", Kind::Text, true)
                && is_column(mode, "mode", Kind::Integer, true)
                && is_column(digest, "digest", Kind::Blob, true)
                && is_reference(blob, 3, "blobs")
        }
        _ => false,
    }
}

fn is_fixes(table: &Table) -> bool
    ensures { IsTrue result ↔ (table.now ≡ spec.fixes) }
{
    match (table.columns.as_slice(), table.references.as_slice()) {
        ([path, gone, digest], [blob]) => {
            is_plain(table, "fixes", 6)
                && has_index_key(table, &[1])
                && is_column(path, "path", Kind::Text, true)
                && is_column(gone, "gone", Kind::Integer, true)
                && is_column(digest, "digest", Kind::Blob, false)
                && is_reference(blob, 3, "blobs")
        }
        _ => false,
    }
}

fn is_commits(table: &Table) -> bool
    ensures { IsTrue result ↔ (table.now ≡ spec.commits) }
{
    match (table.columns.as_slice(), table.references.as_slice()) {
        ([n, message], []) => {
            is_plain(table, "commits", 8)
                && has_rowid_key(table)
                && is_column(n, "n", Kind::Integer, false)
                && is_column(message, "message", Kind::Blob, true)
        }
        _ => false,
    }
}

fn is_entries(table: &Table) -> bool
    ensures { IsTrue result ↔ (table.now ≡ spec.entries) }
{
    match (table.columns.as_slice(), table.references.as_slice()) {
        ([n, path, mode, digest], [commit, blob]) => {
            is_plain(table, "entries", 9)
                && has_index_key(table, &[1, 2])
                && is_column(n, "n", Kind::Integer, true)
                && is_column(path, "path", Kind::Text, true)
                && is_column(mode, "mode", Kind::Integer, true)
                && is_column(digest, "digest", Kind::Blob, true)
                && is_reference(commit, 1, "commits")
                && is_reference(blob, 4, "blobs")
        }
        _ => false,
    }
}

// Whether the first four columns of a table refer to `blobs`.
fn are_four_digests(references: &[Reference]) -> bool
    ensures { IsTrue result ↔ (references.now ≡ spec.answers.references) }
{
    match references {
        [one, two, three, four] => {
            is_reference(one, 1, "blobs")
                && is_reference(two, 2, "blobs")
                && is_reference(three, 3, "blobs")
                && is_reference(four, 4, "blobs")
        }
        _ => false,
    }
}

fn are_answer_columns(columns: &[Column]) -> bool
    ensures { IsTrue result ↔ (columns.now ≡ spec.answers.columns) }
{
    match columns {
        [words, seen, output, changes, status] => {
            is_column(words, "words", Kind::Blob, true)
                && is_column(seen, "seen", Kind::Blob, true)
                && is_column(output, "output", Kind::Blob, true)
                && is_column(changes, "changes", Kind::Blob, true)
                && is_column(status, "status", Kind::Integer, true)
        }
        _ => false,
    }
}

fn is_answers(table: &Table) -> bool
    ensures { IsTrue result ↔ (table.now ≡ spec.answers) }
{
    is_plain(table, "answers", 11)
        && has_index_key(table, &[1, 2])
        && are_answer_columns(table.columns.as_slice())
        && are_four_digests(table.references.as_slice())
}

// Whether this is the index that SQLite makes for a primary key (SQLite's file format, section 2.6).
fn is_key_index(index: &Index, name: &str, table: u32, columns: &[usize]) -> bool
    requires { table < 2 ^ 31 }
    ensures { IsTrue result ↔ (index.now ≡ record
        { name = name.now; tree = table + 1; table = table; columns = columns.now; order = plain; is_unique = true }) }
{
    index.name.as_slice() == name.as_bytes()
        && index.tree == table + 1
        && index.table == table
        && index.columns.as_slice() == columns
        && is_plain_order(&index.order)
        && index.is_unique
}

fn are_later_tables(tables: &[Table]) -> bool
    ensures { IsTrue result ↔ (tables.now ≡ drop 4 store_schema.tables) }
{
    match tables {
        [commits, entries, answers] => {
            is_commits(commits) && is_entries(entries) && is_answers(answers)
        }
        _ => false,
    }
}

fn are_tables(tables: &[Table]) -> bool
    ensures { IsTrue result ↔ (tables.now ≡ store_schema.tables) }
{
    match tables {
        [meta, blobs, staged, fixes, later @ ..] => {
            is_meta(meta)
                && is_blobs(blobs)
                && is_staged(staged)
                && is_fixes(fixes)
                && are_later_tables(later)
        }
        _ => false,
    }
}

fn are_later_indexes(indexes: &[Index]) -> bool
    ensures { IsTrue result ↔ (indexes.now ≡ drop 3 store_schema.indexes) }
{
    match indexes {
        [fixes, entries, answers] => {
            is_key_index(fixes, "sqlite_autoindex_fixes_1", 6, &[1])
                && is_key_index(entries, "sqlite_autoindex_entries_1", 9, &[1, 2])
                && is_key_index(answers, "sqlite_autoindex_answers_1", 11, &[1, 2])
        }
        _ => false,
    }
}

fn are_indexes(indexes: &[Index]) -> bool
    ensures { IsTrue result ↔ (indexes.now ≡ store_schema.indexes) }
{
    match indexes {
        [meta, blobs, staged, later @ ..] => {
            is_key_index(meta, "sqlite_autoindex_meta_1", 0, &[1])
                && is_key_index(blobs, "sqlite_autoindex_blobs_1", 2, &[1])
                && is_key_index(staged, "sqlite_autoindex_staged_1", 4, &[1])
                && are_later_indexes(later)
        }
        _ => false,
    }
}

/// Whether a connection shows exactly the tables of a store of version 1.
pub fn has_store_tables<S: Alter>(conn: &Connection<S>) -> bool
    ensures ours { IsTrue result ↔ ((state S.Store conn.now).now.schema ≡ store_schema) }
    ensures live { IsTrue (state S.Store conn.now).is_open → IsDatabase (state S.Store conn.now).now }
{
    let schema = conn.schema();
    schema.views.is_empty()
        && are_tables(schema.tables.as_slice())
        && are_indexes(schema.indexes.as_slice())
}

fn are_two_keys(keys: &[Items<usize>], first: &[usize], second: &[usize]) -> bool
    ensures { IsTrue result ↔ (keys.now ≡ first.now ∷ second.now ∷ []) }
{
    match keys {
        [one, two] => is_key(one, first) && is_key(two, second),
        _ => false,
    }
}

fn are_two_orders(orders: &[Order]) -> bool
    ensures { IsTrue result ↔ (orders.now ≡ plain ∷ plain ∷ []) }
{
    match orders {
        [one, two] => is_plain_order(one) && is_plain_order(two),
        _ => false,
    }
}

// Whether the keys of a table are these places and its primary key, each with an index of its own.
fn has_two_keys(table: &Table, places: &[usize], primary: &[usize]) -> bool
    ensures { IsTrue result ↔ IsKeyed table.now None primary.now (places.now ∷ primary.now ∷ []) }
{
    table.key.is_none()
        && table.primary.as_slice() == primary
        && are_two_keys(table.uniques.as_slice(), places, primary)
        && are_two_orders(table.orders.as_slice())
}

fn is_uses(table: &Table) -> bool
    ensures { IsTrue result ↔ (table.now ≡ spec.uses) }
{
    match (table.columns.as_slice(), table.references.as_slice()) {
        ([words, seen, tick], []) => {
            is_plain(table, "uses", 13)
                && has_two_keys(table, &[3], &[1, 2])
                && is_column(words, "words", Kind::Blob, true)
                && is_column(seen, "seen", Kind::Blob, true)
                && is_column(tick, "tick", Kind::Integer, true)
        }
        _ => false,
    }
}

fn is_uses_index(index: &Index, name: &str, tree: u32, columns: &[usize]) -> bool
    ensures { IsTrue result ↔ (index.now ≡ record
        { name = name.now; tree = tree; table = 13; columns = columns.now; order = plain; is_unique = true }) }
{
    index.name.as_slice() == name.as_bytes()
        && index.tree == tree
        && index.table == 13
        && index.columns.as_slice() == columns
        && is_plain_order(&index.order)
        && index.is_unique
}

fn are_later_tables_and_uses(tables: &[Table]) -> bool
    ensures { IsTrue result ↔ (tables.now ≡ drop 4 schema_with_uses.tables) }
{
    match tables {
        [commits, entries, answers, uses] => {
            is_commits(commits) && is_entries(entries) && is_answers(answers) && is_uses(uses)
        }
        _ => false,
    }
}

fn are_tables_and_uses(tables: &[Table]) -> bool
    ensures { IsTrue result ↔ (tables.now ≡ schema_with_uses.tables) }
{
    match tables {
        [meta, blobs, staged, fixes, later @ ..] => {
            is_meta(meta)
                && is_blobs(blobs)
                && is_staged(staged)
                && is_fixes(fixes)
                && are_later_tables_and_uses(later)
        }
        _ => false,
    }
}

fn are_uses_indexes(indexes: &[Index]) -> bool
    ensures { IsTrue result ↔ (indexes.now ≡ spec.uses_indexes) }
{
    match indexes {
        [ticks, keys] => {
            is_uses_index(ticks, "sqlite_autoindex_uses_1", 14, &[3])
                && is_uses_index(keys, "sqlite_autoindex_uses_2", 15, &[1, 2])
        }
        _ => false,
    }
}

fn are_later_indexes_and_uses(indexes: &[Index]) -> bool
    ensures { IsTrue result ↔ (indexes.now ≡ drop 3 schema_with_uses.indexes) }
{
    match indexes {
        [fixes, entries, answers, uses @ ..] => {
            is_key_index(fixes, "sqlite_autoindex_fixes_1", 6, &[1])
                && is_key_index(entries, "sqlite_autoindex_entries_1", 9, &[1, 2])
                && is_key_index(answers, "sqlite_autoindex_answers_1", 11, &[1, 2])
                && are_uses_indexes(uses)
        }
        _ => false,
    }
}

fn are_indexes_and_uses(indexes: &[Index]) -> bool
    ensures { IsTrue result ↔ (indexes.now ≡ schema_with_uses.indexes) }
{
    match indexes {
        [meta, blobs, staged, later @ ..] => {
            is_key_index(meta, "sqlite_autoindex_meta_1", 0, &[1])
                && is_key_index(blobs, "sqlite_autoindex_blobs_1", 2, &[1])
                && is_key_index(staged, "sqlite_autoindex_staged_1", 4, &[1])
                && are_later_indexes_and_uses(later)
        }
        _ => false,
    }
}

/// Whether a connection shows exactly the tables of a store of version 2.
pub fn has_uses_tables<S: Alter>(conn: &Connection<S>) -> bool
    ensures ours { IsTrue result ↔ ((state S.Store conn.now).now.schema ≡ schema_with_uses) }
    ensures live { IsTrue (state S.Store conn.now).is_open → IsDatabase (state S.Store conn.now).now }
{
    let schema = conn.schema();
    schema.views.is_empty()
        && are_tables_and_uses(schema.tables.as_slice())
        && are_indexes_and_uses(schema.indexes.as_slice())
}
