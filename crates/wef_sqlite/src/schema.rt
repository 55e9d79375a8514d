//! Whether a database has the table of rows, and nothing else.

ghost use Rattle.std.specs.Prelude.{◌≡◌, [], ◌∷◌, IsTrue};
ghost use Rattle.wef_sqlite.specs.Schema.{kept_column, kept_columns, key_places, kept_table, kept_index, kept_schema, no_schema};

use sqlite_items::Items;
use sqlite_schema::schema::{Column, Index, Kind, Schema, Stamps, Table};
use sqlite_value::keys::{Collation, Order};
use sqlite_value::value::Value;

/// Whether the schema is that of the table of rows.
pub fn is_kept(schema: &Schema) -> bool
    ensures kept { IsTrue result → schema.now ≡ kept_schema }
    ensures back { schema.now ≡ kept_schema → IsTrue result }
{
    are_tables(schema.tables.as_slice())
        && are_indexes(schema.indexes.as_slice())
        && schema.views.is_empty()
}

/// Whether there is nothing in the database yet.
pub fn is_new(schema: &Schema) -> bool
    ensures kept { IsTrue result → schema.now ≡ no_schema }
    ensures back { schema.now ≡ no_schema → IsTrue result }
{
    schema.tables.is_empty() && schema.indexes.is_empty() && schema.views.is_empty()
}

fn are_tables(tables: &[Table]) -> bool
    ensures kept { IsTrue result → tables.now ≡ kept_table ∷ [] }
    ensures back { tables.now ≡ kept_table ∷ [] → IsTrue result }
{
    match tables {
        [table] => is_kept_table(table),
        _ => false,
    }
}

fn are_indexes(indexes: &[Index]) -> bool
    ensures kept { IsTrue result → indexes.now ≡ kept_index ∷ [] }
    ensures back { indexes.now ≡ kept_index ∷ [] → IsTrue result }
{
    match indexes {
        [index] => is_kept_index(index),
        _ => false,
    }
}

fn is_kept_table(table: &Table) -> bool
    ensures kept { IsTrue result → table.now ≡ kept_table }
    ensures back { table.now ≡ kept_table → IsTrue result }
{
    table.name.as_slice() == "kept".as_bytes()
        && table.tree == 0
        && are_columns(table.columns.as_slice())
        && table.key.is_none()
        && are_places(table.primary.as_slice())
        && are_uniques(table.uniques.as_slice())
        && are_orders(table.orders.as_slice())
        && table.checks.roots.is_empty()
        && table.references.is_empty()
        && table.computed.is_empty()
        && are_no_stamps(&table.stamps)
        && !table.is_counted
}

fn is_kept_index(index: &Index) -> bool
    ensures kept { IsTrue result → index.now ≡ kept_index }
    ensures back { index.now ≡ kept_index → IsTrue result }
{
    index.name.as_slice() == "sqlite_autoindex_kept_1".as_bytes()
        && index.tree == 1
        && index.table == 0
        && are_places(index.columns.as_slice())
        && index.order.digits == 0
        && index.is_unique
}

fn are_columns(columns: &[Column]) -> bool
    ensures kept { IsTrue result → columns.now ≡ kept_columns }
    ensures back { columns.now ≡ kept_columns → IsTrue result }
{
    match columns {
        [kind, sub, source, channel, number, value, body] => {
            is_column(kind, "kind", Kind::Integer)
                && is_column(sub, "sub", Kind::Text)
                && is_column(source, "source", Kind::Text)
                && is_column(channel, "channel", Kind::Text)
                && is_column(number, "number", Kind::Integer)
                && is_column(value, "value", Kind::Integer)
                && is_column(body, "body", Kind::Text)
        }
        _ => false,
    }
}

/// Whether a column has this name and kind, is strict, and is never null.
fn is_column(column: &Column, name: &str, kind: Kind) -> bool
    ensures kept { IsTrue result → column.now ≡ kept_column name.now kind }
    ensures back { column.now ≡ kept_column name.now kind → IsTrue result }
{
    column.name.as_slice() == name.as_bytes()
        && column.kind == kind
        && column.is_strict
        && column.not_null
        && matches!(column.default, Value::Null)
        && matches!(column.collation, Collation::Binary)
}

fn are_places(places: &[usize]) -> bool
    ensures kept { IsTrue result → places.now ≡ key_places }
    ensures back { places.now ≡ key_places → IsTrue result }
{
    match places {
        [kind, sub, source, channel, number] => {
            *kind == 1 && *sub == 2 && *source == 3 && *channel == 4 && *number == 5
        }
        _ => false,
    }
}

fn are_uniques(uniques: &[Items<usize>]) -> bool
    ensures kept { IsTrue result → uniques.now ≡ key_places ∷ [] }
    ensures back { uniques.now ≡ key_places ∷ [] → IsTrue result }
{
    match uniques {
        [key] => are_places(key.as_slice()),
        _ => false,
    }
}

fn are_orders(orders: &[Order]) -> bool
    ensures kept { IsTrue result → orders.now ≡ record { digits = 0 } ∷ [] }
    ensures back { orders.now ≡ record { digits = 0 } ∷ [] → IsTrue result }
{
    match orders {
        [order] => order.digits == 0,
        _ => false,
    }
}

fn are_no_stamps(stamps: &Stamps) -> bool
    ensures kept { IsTrue result → stamps.now ≡ record { places = []; terms = []; formats = [] } }
    ensures back { stamps.now ≡ record { places = []; terms = []; formats = [] } → IsTrue result }
{
    stamps.places.is_empty() && stamps.terms.roots.is_empty() && stamps.formats.is_empty()
}
