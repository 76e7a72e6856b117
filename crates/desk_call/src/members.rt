//! What the members of an object give for the fields of a command.
ghost use Rattle.std.specs.Prelude.{◌≡◌, IfOk, string_bytes};
ghost use Rattle.std.specs.BTreeMap.{keys};
ghost use Rattle.std.specs.List.{list_all};
ghost use Rattle.std.specs.Option.{option_map};
ghost use Rattle.serde_json.specs.View.{items_view, members_view, view};
ghost use Rattle.office_fields.specs.Given.{named_values};
ghost use Rattle.desk_call.specs.Body.{each_given, given_by, given_in, has_just, is_name_of, json_name, one_given};
ghost use Rattle.desk_call.specs.Body.{values_in};

use crate::json_values::bytes_of;
use office_fields::{Field, GivenValue, Occurrence};
use serde_json::{Map, Value};
use std::alloc::{AllocError, Global};

/// The name of a field's member.
pub fn json_name(field: Field) -> &'static str
    ensures { result.now ≡ json_name field }
{
    match field {
        Field::Receiver => "receivers",
        Field::Value => "values",
        _ => field.name(),
    }
}

fn one_given(
    alloc: Global,
    field: Field,
    value: &Value,
) -> Result<Option<Vec<GivenValue<'static>>>, AllocError>
    ensures { IfOk result (λ found. option_map (λ values. named_values values.items) found
        ≡ one_given field (view value.now)) }
{
    let Some(bytes) = bytes_of(alloc, field.kind(), value)? else {
        return Ok(None);
    };
    let given = GivenValue {
        name: field.name().as_bytes(),
        value: bytes,
    };
    let mut list = Vec::new(alloc);
    list.push(given)?;
    Ok(Some(list))
}

fn each_given(
    alloc: Global,
    field: Field,
    items: &[Value],
) -> Result<Option<Vec<GivenValue<'static>>>, AllocError>
    ensures { IfOk result (λ found. option_map (λ values. named_values values.items) found
        ≡ each_given field (items_view items.now)) }
{
    let mut list = Vec::new(alloc);
    let mut left = items;
    while let [value, rest @ ..] = left {
        let Some(bytes) = bytes_of(alloc, field.kind(), value)? else {
            return Ok(None);
        };
        list.push(GivenValue {
            name: field.name().as_bytes(),
            value: bytes,
        })?;
        left = rest;
    }
    Ok(Some(list))
}

/// What a member gives for a field, or `None` where it gives nothing that is of the field's kind.
fn given_by(
    alloc: Global,
    field: Field,
    member: Option<&Value>,
) -> Result<Option<Vec<GivenValue<'static>>>, AllocError>
    ensures { IfOk result (λ found. option_map (λ values. named_values values.items) found
        ≡ given_by field (option_map (λ v. view v.now) member.entry)) }
{
    match (field.occurrence(), member) {
        (Occurrence::Optional, None) => Ok(Some(Vec::new(alloc))),
        (_, None) => Ok(None),
        (Occurrence::Repeated, Some(value)) => match value.as_array() {
            Some(items) => each_given(alloc, field, items.as_slice()),
            None => Ok(None),
        },
        (_, Some(value)) => one_given(alloc, field, value),
    }
}

/// What the members of an object give for the fields, in order.
pub(crate) fn given_in(
    alloc: Global,
    fields: &[Field],
    value: &Value,
) -> Result<Option<Vec<GivenValue<'static>>>, AllocError>
    ensures { IfOk result (λ found. option_map (λ values. named_values values.items) found
        ≡ given_in fields.now (view value.now)) }
{
    let mut list = Vec::new(alloc);
    let mut left = fields;
    while let [field, rest @ ..] = left {
        let Some(mut values) = given_by(alloc, *field, value.get(json_name(*field)))? else {
            return Ok(None);
        };
        list.append(&mut values)?;
        left = rest;
    }
    Ok(Some(list))
}

/// Whether one of the fields has the name.
pub fn is_name_of(fields: &[Field], name: &str) -> bool
    ensures { result ≡ is_name_of fields.now name.now }
{
    fields.iter().any(|field| json_name(*field) == name)
}

fn are_names_of(fields: &[Field], members: &Map<String, Value>) -> bool
    ensures { result ≡ list_all (λ k. is_name_of fields.now (string_bytes k)) (keys members.now) }
{
    members.keys().all(|name| is_name_of(fields, name.as_str()))
}

/// Whether each member has the name of one of the fields.
#[tactic(auto, using(crate::proofs::Names::all_just))]
fn has_just(fields: &[Field], members: &Map<String, Value>) -> bool
    ensures { result ≡ has_just fields.now (members_view members.now.entries) }
{
    are_names_of(fields, members)
}

/// What an object gives for the fields, and for them alone; `None` where the value is no object of just these fields.
pub(crate) fn values_in(
    alloc: Global,
    fields: &[Field],
    value: &Value,
) -> Result<Option<Vec<GivenValue<'static>>>, AllocError>
    ensures { IfOk result (λ found. option_map (λ values. named_values values.items) found
        ≡ values_in fields.now (view value.now)) }
{
    match value.as_object() {
        Some(members) if has_just(fields, members) => given_in(alloc, fields, value),
        _ => Ok(None),
    }
}
