//! Lists as JSON.
ghost use Rattle.std.specs.Prelude.{◌≡◌, ◌++◌, IfOk, OnOk, Some, codes, map, string_bytes};
ghost use Rattle.std.specs.Option.{option_copied, option_map};
ghost use Rattle.std.specs.Str.Lossy.{utf8_lossy};
ghost use Rattle.serde_json.specs.Data.{put as with_member};
ghost use Rattle.serde_json.specs.Read.{read};
ghost use Rattle.serde_json.specs.View.{members_view, view};
ghost use Rattle.serde_json.specs.Written.{compact_text};
ghost use Rattle.rows.specs.Fact.{fact_of, name_of};
ghost use Rattle.rows.specs.Json.{change_data, decimal_data, fact_data, group_data, ident_data, layout_data, list_text};
ghost use Rattle.rows.specs.Json.{name_data, number_data, pair_data, kinds_members, position_data, row_data, run_data};
ghost use Rattle.rows.specs.Json.{share_data, side_data, table_data, table_json, text_data, with_kind, with_row};
ghost use Rattle.rows.specs.Json.{with_rows, with_totals, written_data};
ghost use Rattle.rows.specs.Lines.{points};

use crate::cell::{Cell, Column};
use crate::lines::{mux_text, name_of, path_text, points, table_text};
use crate::table::{Kind, Table};
use base::Items;
use bitlayout::{Layout, Order};
use can_id::{Ident, J1939};
use columns::{Run, form_word};
use decimal::Decimal;
use serde_json::{Map, Value, json, put};
use std::alloc::{AllocError, Global};

/// The number; from 2^64 on its digits.
fn number_value(alloc: Global, number: u128) -> Result<Value, AllocError>
    ensures { IfOk result (λ v. view v ≡ number_data number) }
{
    if number <= u64::MAX as u128 {
        return Ok(Value::from(number as u64));
    }
    Ok(Value::String(format!(in alloc; "{number}")?))
}

/// The text; U+FFFD stands for what isn't UTF-8.
fn text_value(alloc: Global, text: &[u8]) -> Result<Value, AllocError>
    ensures { IfOk result (λ v. view v ≡ text_data text.now) }
{
    Ok(Value::String(String::from_utf8_lossy(alloc, text)?))
}

/// What people wrote; nothing is null.
fn written_value(alloc: Global, text: &[u8]) -> Result<Value, AllocError>
    ensures { IfOk result (λ v. view v ≡ written_data text.now) }
{
    match text {
        [] => Ok(Value::Null),
        [_, ..] => text_value(alloc, text),
    }
}

/// How a text begins, and two points if it goes on.
fn front_value(alloc: Global, front: &[u8], goes_on: bool) -> Result<Value, AllocError>
    ensures { IfOk result (λ v. view v ≡ text_data (front.now ++ points goes_on)) }
{
    let mut text = Vec::from_slice(alloc, front)?;
    text.extend_from_slice(points(goes_on))?;
    text_value(alloc, &text)
}

/// A name; `-` is null.
fn name_value(alloc: Global, name: &[u8]) -> Result<Value, AllocError>
    ensures { IfOk result (λ v. view v ≡ name_data name.now) }
{
    if name == b"-".as_slice() {
        return Ok(Value::Null);
    }
    text_value(alloc, name)
}

/// The identifier's parameter group; null of an 11-bit identifier.
fn group_value(ident: &Ident) -> Value
    ensures { view result ≡ group_data ident.now }
{
    match J1939::of(*ident) {
        Some(fields) => Value::from(fields.pgn()),
        None => Value::Null,
    }
}

fn ident_value(alloc: Global, ident: &Ident) -> Result<Value, AllocError>
    ensures { IfOk result (λ v. view v ≡ ident_data ident.now) }
{
    let form = text_value(alloc, form_word(ident))?;
    let pgn = group_value(ident);
    let (dbc, number) = (ident.to_dbc(), ident.number());
    json!(in alloc; {"dbc": dbc, "form": form, "number": number, "pgn": pgn})
}

fn run_value(alloc: Global, run: Run) -> Result<Value, AllocError>
    ensures { IfOk result (λ v. view v ≡ run_data run) }
{
    let Run { first, last } = run;
    json!(in alloc; [first, last])
}

fn run_values(alloc: Global, runs: &[Run]) -> Result<Vec<Value>, AllocError>
    ensures { IfOk result (λ values. map view values.items ≡ map run_data runs.now) }
{
    let mut values = Vec::new(alloc);
    for run in runs {
        values.push(run_value(alloc, *run)?)?;
    }
    Ok(values)
}

/// What was there or what is, if the change is of a value.
fn side_value(alloc: Global, value: Option<&[u8]>) -> Result<Value, AllocError>
    ensures { IfOk result (λ v. view v ≡ side_data (option_copied value.entry)) }
{
    match value {
        Some(value) => name_value(alloc, value),
        None => Ok(Value::Null),
    }
}

fn change_value(
    alloc: Global,
    word: &[u8],
    values: Option<(&[u8], &[u8])>,
) -> Result<Value, AllocError>
    ensures { IfOk result (λ v. view v
        ≡ change_data word.now (option_map (λ v. (v.0.now, v.1.now)) values.entry)) }
{
    let word = text_value(alloc, word)?;
    let old = side_value(alloc, values.map(|(old, _)| old))?;
    let new = side_value(alloc, values.map(|(_, new)| new))?;
    json!(in alloc; {"word": word, "old": old, "new": new})
}

fn share_value(alloc: Global, number: usize, all: usize) -> Result<Value, AllocError>
    ensures { IfOk result (λ v. view v ≡ share_data number all) }
{
    json!(in alloc; {"count": number, "of": all})
}

fn position_value(alloc: Global, line: usize, column: usize) -> Result<Value, AllocError>
    ensures { IfOk result (λ v. view v ≡ position_data line column) }
{
    json!(in alloc; {"column": column, "line": line})
}

fn text_values(alloc: Global, texts: &[&[u8]]) -> Result<Vec<Value>, AllocError>
    ensures { IfOk result (λ values. map view values.items
        ≡ map text_data (map (λ text. text.now) texts.now)) }
{
    let mut values = Vec::new(alloc);
    for text in texts {
        values.push(text_value(alloc, text)?)?;
    }
    Ok(values)
}

fn layout_value(alloc: Global, layout: &Layout, signed: bool) -> Result<Value, AllocError>
    ensures { IfOk result (λ v. view v ≡ layout_data layout.now signed) }
{
    let order = text_value(alloc, layout.order.word().as_bytes())?;
    let (size, start) = (layout.size.bits(), layout.start);
    json!(in alloc; {"order": order, "signed": signed, "size": size, "start": start})
}

/// The decimal's digits, so that it stays exact.
fn decimal_value(alloc: Global, decimal: &Decimal) -> Result<Value, AllocError>
    ensures { IfOk result (λ v. view v ≡ decimal_data decimal.now) }
{
    Ok(Value::String(format!(in alloc; "{decimal}")?))
}

fn scale_value(alloc: Global, factor: &Decimal, offset: &Decimal) -> Result<Value, AllocError>
    ensures { IfOk result
        (λ v. view v ≡ pair_data (codes "factor") factor.now (codes "offset") offset.now) }
{
    let factor = decimal_value(alloc, factor)?;
    let offset = decimal_value(alloc, offset)?;
    json!(in alloc; {"factor": factor, "offset": offset})
}

fn range_value(alloc: Global, minimum: &Decimal, maximum: &Decimal) -> Result<Value, AllocError>
    ensures { IfOk result
        (λ v. view v ≡ pair_data (codes "minimum") minimum.now (codes "maximum") maximum.now) }
{
    let minimum = decimal_value(alloc, minimum)?;
    let maximum = decimal_value(alloc, maximum)?;
    json!(in alloc; {"minimum": minimum, "maximum": maximum})
}

fn fact_value(alloc: Global, cell: &Cell<'_>) -> Result<Value, AllocError>
    ensures { IfOk result (λ v. view v ≡ fact_data (fact_of cell.now)) }
{
    match cell {
        Cell::Ident(None) => Ok(Value::Null),
        Cell::Ident(Some(ident)) => ident_value(alloc, ident),
        Cell::Number(number) => number_value(alloc, *number),
        Cell::Name(name) => name_value(alloc, name),
        Cell::Made(name) => name_value(alloc, name.as_slice()),
        Cell::Front(front, goes_on) => front_value(alloc, front, *goes_on),
        Cell::Word(text) | Cell::Rest(text) => written_value(alloc, text),
        Cell::Runs(runs) | Cell::Free(runs) => {
            Ok(Value::Array(run_values(alloc, runs.as_slice())?))
        }
        Cell::Mark(is) => Ok(Value::Bool(*is)),
        Cell::Path(name, part) => {
            let path = path_text(alloc, name, *part)?;
            name_value(alloc, &path)
        }
        Cell::Change(word, values) => change_value(alloc, word, *values),
        Cell::Maybe(None) => Ok(Value::Null),
        Cell::Maybe(Some(number)) => number_value(alloc, *number),
        Cell::Share(number, all) => share_value(alloc, *number, *all),
        Cell::Position(line, column) => position_value(alloc, *line, *column),
        Cell::Words(texts) => Ok(Value::Array(text_values(alloc, texts.as_slice())?)),
        Cell::Digits(ident) => ident_value(alloc, ident),
        Cell::Layout(layout, signed) => layout_value(alloc, layout, *signed),
        Cell::Mux(mux) => name_value(alloc, &mux_text(alloc, *mux)?),
        Cell::Decimal(decimal) => decimal_value(alloc, decimal),
        Cell::Scale(factor, offset) => scale_value(alloc, factor, offset),
        Cell::Range(minimum, maximum) => range_value(alloc, minimum, maximum),
    }
}

/// The members, with this one too.
fn put_under(
    alloc: Global,
    members: &mut Map<String, Value>,
    name: &[u8],
    value: Value,
) -> Result<(), AllocError>
    ensures { OnOk result (members_view members.new.entries
        ≡ with_member (utf8_lossy name.now) (view value) (members_view members.old.entries)) }
{
    let key = String::from_utf8_lossy(alloc, name)?;
    put(members, alloc, key.as_str(), value)
}

/// The members, with those of the row too, from its last one on.
fn with_row(
    alloc: Global,
    columns: &[Column],
    cells: &[Cell<'_>],
    others: Map<String, Value>,
) -> Result<Map<String, Value>, AllocError>
    ensures { IfOk result (λ members. members_view members.entries
        ≡ with_row columns.now (map fact_of cells.now) (members_view others.entries)) }
{
    match columns {
        [] => Ok(others),
        [column, columns @ ..] => match cells {
            [] => Ok(others),
            [cell, cells @ ..] => {
                let mut members = with_row(alloc, columns, cells, others)?;
                let value = fact_value(alloc, cell)?;
                put_under(alloc, &mut members, name_of(&column.0), value)?;
                Ok(members)
            }
        },
    }
}

fn row_values(
    alloc: Global,
    columns: &[Column],
    rows: &[Items<Cell<'_>>],
) -> Result<Vec<Value>, AllocError>
    ensures { IfOk result (λ values. map view values.items
        ≡ map (λ row. row_data columns.now (map fact_of row)) rows.now) }
{
    let mut values = Vec::new(alloc);
    for row in rows {
        let members = with_row(alloc, columns, row.as_slice(), Map::new(alloc))?;
        values.push(Value::Object(members))?;
    }
    Ok(values)
}

fn column_values(alloc: Global, columns: &[Column]) -> Result<Vec<Value>, AllocError>
    ensures { IfOk result (λ values. map view values.items
        ≡ map (λ c. text_data (name_of c.0)) columns.now) }
{
    let mut values = Vec::new(alloc);
    for column in columns {
        values.push(text_value(alloc, name_of(&column.0))?)?;
    }
    Ok(values)
}

/// The members, with the names of the columns and the rows too.
fn put_rows(
    alloc: Global,
    members: &mut Map<String, Value>,
    kind: &Kind<'_>,
) -> Result<(), AllocError>
    ensures { OnOk result (members_view members.new.entries
        ≡ with_rows kind.now (members_view members.old.entries)) }
{
    let columns = column_values(alloc, kind.columns)?;
    put(members, alloc, "columns", Value::Array(columns))?;
    let rows = row_values(alloc, kind.columns, kind.rows.as_slice())?;
    put(members, alloc, "rows", Value::Array(rows))
}

/// The members, with those of the kind too, under its name if it has one.
fn put_kind(
    alloc: Global,
    members: &mut Map<String, Value>,
    kind: &Kind<'_>,
) -> Result<(), AllocError>
    ensures { OnOk result (members_view members.new.entries
        ≡ with_kind kind.now.name kind.now (members_view members.old.entries)) }
{
    if kind.name.is_empty() {
        return put_rows(alloc, members, kind);
    }
    let mut own = Map::new(alloc);
    put_rows(alloc, &mut own, kind)?;
    put_under(alloc, members, name_of(kind.name), Value::Object(own))
}

/// The members of the kinds, from the last one on.
fn kinds_members(alloc: Global, kinds: &[Kind<'_>]) -> Result<Map<String, Value>, AllocError>
    ensures { IfOk result (λ members. members_view members.entries ≡ kinds_members kinds.now) }
{
    match kinds {
        [] => Ok(Map::new(alloc)),
        [kind, kinds @ ..] => {
            let mut members = kinds_members(alloc, kinds)?;
            put_kind(alloc, &mut members, kind)?;
            Ok(members)
        }
    }
}

/// The members, with the totals too, if there are any.
fn put_totals(
    alloc: Global,
    members: &mut Map<String, Value>,
    columns: &[Column],
    totals: &[Cell<'_>],
) -> Result<(), AllocError>
    ensures { OnOk result (members_view members.new.entries
        ≡ with_totals columns.now (map fact_of totals.now) (members_view members.old.entries)) }
{
    if columns.is_empty() {
        return Ok(());
    }
    let row = with_row(alloc, columns, totals, Map::new(alloc))?;
    put(members, alloc, "totals", Value::Object(row))
}

fn table_value(alloc: Global, table: &Table<'_>) -> Result<Value, AllocError>
    ensures { IfOk result (λ v. view v ≡ table_data table.now) }
{
    let mut members = kinds_members(alloc, table.kinds.as_slice())?;
    put_totals(
        alloc,
        &mut members,
        table.total_columns,
        table.totals.as_slice(),
    )?;
    let members = with_row(alloc, table.head_columns, table.head.as_slice(), members)?;
    Ok(Value::Object(members))
}

/// The list as JSON, which gives it when it is read.
fn compact_json(alloc: Global, table: &Table<'_>) -> Result<String, AllocError>
    ensures text { IfOk result (λ text. string_bytes text ≡ compact_text (table_data table.now)) }
    ensures reads_back { IfOk result
        (λ text. read (string_bytes text) ≡ Some (table_data table.now)) }
{
    let value = table_value(alloc, table)?;
    value.to_string(alloc)
}

/// The list as JSON, in one line, which gives the list when it is read. The error is out of memory.
pub fn table_json(alloc: Global, table: &Table<'_>) -> Result<Vec<u8>, AllocError>
    ensures text { IfOk result (λ text. text.items ≡ table_json table.now) }
    ensures reads_back { OnOk result
        (read (compact_text (table_data table.now)) ≡ Some (table_data table.now)) }
{
    let mut text = compact_json(alloc, table)?.into_bytes();
    text.push(b'\n')?;
    Ok(text)
}

/// The list as JSON where that is wanted, and else as lines. The error is out of memory.
pub fn list_text(alloc: Global, table: &Table<'_>, json: bool) -> Result<Vec<u8>, AllocError>
    ensures { IfOk result (λ text. text.items ≡ list_text json table.now) }
{
    if json {
        table_json(alloc, table)
    } else {
        table_text(alloc, table)
    }
}
