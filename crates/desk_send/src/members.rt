//! The members of an object, each a field of a command with what is given for it.
ghost use Rattle.std.specs.Prelude.{◌≡◌, Some, IfOk, map};
ghost use Rattle.serde_json.specs.Data.{boolean};
ghost use Rattle.serde_json.specs.View.{items_view, members_view, view};
ghost use Rattle.decimal.specs.Printing as printed;
ghost use Rattle.desk_call.specs.Body.{json_name};
ghost use Rattle.office_fields.specs.declared.field.FieldKind.TheVariants as FieldKind;
ghost use Rattle.desk_send.specs.Json.{data_list, data_of, items_by, pair_data, text_data, whole_data, with_as};
ghost use Rattle.desk_send.specs.Json.{with_list, with_value};
ghost use Rattle.desk_send.specs.Writing.{Adds, Writes};
ghost use Rattle.office_fields.specs.declared.field.Occurrence.TheVariants.{Optional};

use crate::unwritten::Unwritten;
use crate::words::json_name;
use dbc_sheet::ValueText;
use dbc_words::Name;
use decimal::Decimal;
use office_fields::Field;
use serde_json::{Map, Value, put};
use std::alloc::{AllocError, Global};
use std::str::from_utf8;

/// The members of an object, in the order of their names.
pub(crate) type Members = Map<String, Value>;

/// A text as JSON.
fn text_value(alloc: Global, text: &[u8]) -> Result<Value, Unwritten>
    ensures { Writes view (text_data text.now) result }
{
    let Ok(text) = from_utf8(text) else {
        return Err(Unwritten::NotUtf8);
    };
    Ok(Value::try_from_str(alloc, text)?)
}

/// The text of a decimal.
pub(crate) fn decimal_text(alloc: Global, decimal: &Decimal) -> Result<Vec<u8>, AllocError>
    ensures { IfOk result (λ text. text.items ≡ printed.text_of decimal.now) }
{
    let mut text = Vec::new(alloc);
    decimal.print_into(&mut text)?;
    Ok(text)
}

/// A value and its text as JSON.
fn pair_value(alloc: Global, pair: &ValueText) -> Result<Value, Unwritten>
    ensures { Writes view (pair_data pair.now) result }
{
    let digits = decimal_text(alloc, &pair.value)?;
    let value = text_value(alloc, &digits)?;
    let text = text_value(alloc, pair.text.as_bytes())?;
    let mut items = Vec::new(alloc);
    items.push(value)?;
    items.push(text)?;
    Ok(Value::Array(items))
}

/// Adds the member of a field.
fn put_value(
    alloc: Global,
    members: &mut Members,
    field: Field,
    value: Value,
) -> Result<(), Unwritten>
    ensures { Adds (with_value (json_name field) (Some (view value))
        (members_view members.old.entries)) (members_view members.new.entries) result }
{
    put(members, alloc, json_name(field), value)?;
    Ok(())
}

/// Adds a field that is a text.
pub(crate) fn put_text(
    alloc: Global,
    members: &mut Members,
    field: Field,
    text: &[u8],
) -> Result<(), Unwritten>
    ensures { Adds (with_value (json_name field) (text_data text.now)
        (members_view members.old.entries)) (members_view members.new.entries) result }
{
    let value = text_value(alloc, text)?;
    put_value(alloc, members, field, value)
}

/// Adds a field that is a whole number.
pub(crate) fn put_number(
    alloc: Global,
    members: &mut Members,
    field: Field,
    number: u32,
) -> Result<(), Unwritten>
    ensures { Adds (with_value (json_name field) (whole_data number)
        (members_view members.old.entries)) (members_view members.new.entries) result }
{
    put_value(alloc, members, field, Value::from(number))
}

/// Adds a field that is true or false.
pub(crate) fn put_truth(
    alloc: Global,
    members: &mut Members,
    field: Field,
    truth: bool,
) -> Result<(), Unwritten>
    ensures { Adds (with_value (json_name field) (Some (boolean truth))
        (members_view members.old.entries)) (members_view members.new.entries) result }
{
    put_value(alloc, members, field, Value::from(truth))
}

/// Adds a field that is a name, if one is given.
pub(crate) fn put_name_if_any(
    alloc: Global,
    members: &mut Members,
    field: Field,
    name: &Option<Name>,
) -> Result<(), Unwritten>
    ensures { Adds (with_as Optional (json_name field) text_data name.now
        (members_view members.old.entries)) (members_view members.new.entries) result }
{
    match name {
        None => Ok(()),
        Some(name) => put_text(alloc, members, field, name.as_bytes()),
    }
}

/// Adds a field that is a whole number, if one is given.
pub(crate) fn put_number_if_any(
    alloc: Global,
    members: &mut Members,
    field: Field,
    number: Option<u32>,
) -> Result<(), Unwritten>
    ensures { Adds (with_as Optional (json_name field) whole_data number
        (members_view members.old.entries)) (members_view members.new.entries) result }
{
    match number {
        None => Ok(()),
        Some(number) => put_number(alloc, members, field, number),
    }
}

fn name_list(alloc: Global, names: &[Name]) -> Result<Vec<Value>, Unwritten>
    ensures { Writes (λ values. map view values.items) (data_list (data_of FieldKind.Name) names.now)
        result }
{
    let mut values = Vec::new(alloc);
    let mut left = names;
    while let [name, rest @ ..] = left {
        let value = text_value(alloc, name.as_bytes())?;
        values.push(value)?;
        left = rest;
    }
    Ok(values)
}

fn name_values(alloc: Global, names: &[Name]) -> Result<Vec<Value>, Unwritten>
    ensures { Writes (λ values. items_view values.items) (items_by (data_of FieldKind.Name) names.now)
        result }
{
    name_list(alloc, names)
}

fn pair_list(alloc: Global, pairs: &[ValueText]) -> Result<Vec<Value>, Unwritten>
    ensures { Writes (λ values. map view values.items)
        (data_list (data_of FieldKind.ValueText) pairs.now) result }
{
    let mut values = Vec::new(alloc);
    let mut left = pairs;
    while let [pair, rest @ ..] = left {
        let value = pair_value(alloc, pair)?;
        values.push(value)?;
        left = rest;
    }
    Ok(values)
}

fn pair_values(alloc: Global, pairs: &[ValueText]) -> Result<Vec<Value>, Unwritten>
    ensures { Writes (λ values. items_view values.items)
        (items_by (data_of FieldKind.ValueText) pairs.now) result }
{
    pair_list(alloc, pairs)
}

/// Adds a field that is a list of names.
pub(crate) fn put_names(
    alloc: Global,
    members: &mut Members,
    field: Field,
    names: &[Name],
) -> Result<(), Unwritten>
    ensures { Adds (with_list (json_name field) (items_by (data_of FieldKind.Name) names.now)
        (members_view members.old.entries)) (members_view members.new.entries) result }
{
    let values = name_values(alloc, names)?;
    put_value(alloc, members, field, Value::Array(values))
}

/// Adds a field that is a list of values with their texts.
pub(crate) fn put_pairs(
    alloc: Global,
    members: &mut Members,
    field: Field,
    pairs: &[ValueText],
) -> Result<(), Unwritten>
    ensures { Adds (with_list (json_name field) (items_by (data_of FieldKind.ValueText) pairs.now)
        (members_view members.old.entries)) (members_view members.new.entries) result }
{
    let values = pair_values(alloc, pairs)?;
    put_value(alloc, members, field, Value::Array(values))
}
