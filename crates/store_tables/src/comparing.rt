//! Comparing the tables of a database with those of an office, by which an open knows them.
ghost use Rattle.std.specs.Prelude.{◌≡◌, ◌↔◌, length, map, take, true};
ghost use Rattle.store_tables.specs.Comparing.{HasNoRule, IsBegun, column_at, every_index, every_table};
ghost use Rattle.store_tables.specs.Comparing.{index_of, table_of};
ghost use Rattle.store_tables.specs.Schema.{ascending};

use crate::office_column::OfficeColumn;
use crate::office_index::{INDEXES, OfficeIndex};
use crate::office_table::{OfficeTable, TABLES};
use sqlite_schema::schema::{Column, Index, Kind, Schema, Table};
use sqlite_value::keys::{Collation, Order};
use sqlite_value::value::Value;

/// Whether it is that column.
fn is_column(column: &Column, office: OfficeColumn) -> bool
    ensures { (result ≡ true) ↔ (column.now ≡ column_at office) }
{
    let (name, kind, is_key, is_strict) = match office {
        OfficeColumn::Key(name, kind) => (name, kind, true, true),
        OfficeColumn::Other(name, kind) => (name, kind, false, true),
        OfficeColumn::Untyped(name) => (name, Kind::Any, false, false),
    };
    column.name.as_slice() == name
        && column.kind == kind
        && column.is_strict == is_strict
        && column.not_null == is_key
        && matches!(column.default, Value::Null)
        && column.collation == Collation::Binary
}

/// Whether they are those columns.
fn are_columns(columns: &[Column], office: &[OfficeColumn]) -> bool
    ensures { (result ≡ true) ↔ (columns.now ≡ map column_at office.now) }
{
    if columns.len() != office.len() {
        return false;
    }
    for at in 0..office.len() {
        if !is_column(&columns[at], office[at]) {
            return false;
        }
    }
    true
}

/// Whether it is that list of columns.
fn is_list(columns: &[usize], office: &[usize]) -> bool
    ensures { (result ≡ true) ↔ (columns.now ≡ office.now) }
{
    columns == office
}

/// Whether these are the table's lists of columns that are unique together.
fn has_uniques(table: &Table, lists: &[&[usize]]) -> bool
    ensures { (result ≡ true) ↔ (table.now.uniques ≡ map (λ columns. columns.now) lists.now) }
{
    let uniques = table.uniques.as_slice();
    if uniques.len() != lists.len() {
        return false;
    }
    for at in 0..lists.len() {
        if !is_list(uniques[at].as_slice(), lists[at]) {
            return false;
        }
    }
    true
}

fn is_ascending(order: Order) -> bool
    ensures { (result ≡ true) ↔ (order ≡ ascending) }
{
    order.digits == 0
}

/// Whether the columns of each list ascend in its index.
fn are_ascending(orders: &[Order], lists: &[&[usize]]) -> bool
    ensures { (result ≡ true) ↔ (orders.now ≡ map (λ _. ascending) lists.now) }
{
    if orders.len() != lists.len() {
        return false;
    }
    for at in 0..lists.len() {
        if !is_ascending(orders[at]) {
            return false;
        }
    }
    true
}

/// Whether the table has no rule beside types and keys.
fn has_no_rule(table: &Table) -> bool
    ensures { (result ≡ true) ↔ HasNoRule table.now }
{
    table.checks.roots.is_empty()
        && table.references.is_empty()
        && table.computed.is_empty()
        && table.stamps.places.is_empty()
        && table.stamps.terms.roots.is_empty()
        && table.stamps.formats.is_empty()
        && !table.is_counted
}

/// Whether it is that table.
fn is_table(table: &Table, office: OfficeTable) -> bool
    ensures { (result ≡ true) ↔ (table.now ≡ table_of office) }
{
    table.name.as_slice() == office.name()
        && table.tree == office.tree()
        && are_columns(table.columns.as_slice(), office.columns())
        && table.key == office.key()
        && is_list(table.primary.as_slice(), office.primary())
        && has_uniques(table, office.uniques())
        && are_ascending(table.orders.as_slice(), office.uniques())
        && has_no_rule(table)
}

/// Whether the tables are the first ones of an office with statistics, as many as they are.
fn are_tables(tables: &[Table]) -> bool
    ensures { (result ≡ true) ↔ (tables.now ≡ take (length tables.now) (map table_of every_table)) }
{
    if tables.len() > TABLES.len() {
        return false;
    }
    for at in 0..tables.len() {
        if !is_table(&tables[at], TABLES[at]) {
            return false;
        }
    }
    true
}

/// Whether it is that index.
fn is_index(index: &Index, office: OfficeIndex) -> bool
    ensures { (result ≡ true) ↔ (index.now ≡ index_of office) }
{
    index.name.as_slice() == office.name()
        && index.tree == office.tree()
        && index.table == office.table().tree()
        && is_list(index.columns.as_slice(), office.columns())
        && is_ascending(index.order)
        && index.is_unique
}

/// Whether the indexes are the first ones of an office, as many as they are.
fn are_indexes(indexes: &[Index]) -> bool
    ensures { (result ≡ true)
        ↔ (indexes.now ≡ take (length indexes.now) (map index_of every_index)) }
{
    if indexes.len() > INDEXES.len() {
        return false;
    }
    for at in 0..indexes.len() {
        if !is_index(&indexes[at], INDEXES[at]) {
            return false;
        }
    }
    true
}

/// Whether the tables and the indexes are the first ones of an office with statistics, as many as they are, and there
/// is no view or trigger. All that the schema says of them is compared.
pub fn is_begun(schema: &Schema) -> bool
    ensures { (result ≡ true) ↔ IsBegun schema.now }
{
    schema.views.is_empty()
        && are_tables(schema.tables.as_slice())
        && are_indexes(schema.indexes.as_slice())
}
