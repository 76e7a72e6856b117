//! The objects of commands, and their text.
ghost use Rattle.std.specs.Prelude.{◌≡◌, ◌≤◌, ◌∷◌, IfOk, codes, false, map, string_bytes};
ghost use Rattle.serde_json.specs.Data.{depth, no_members, object};
ghost use Rattle.serde_json.specs.Read.{max_depth};
ghost use Rattle.serde_json.specs.View.{items_view, members_view, view};
ghost use Rattle.serde_json.specs.Written.{compact_text, has_float};
ghost use Rattle.office_fields.specs.declared.field.Field.TheVariants as field;
ghost use Rattle.desk_call.specs.Body.{json_in};
ghost use Rattle.desk_send.specs.Fields.{entries_of, filled};
ghost use Rattle.desk_send.specs.Json.{data_list, items_by, part_data, with_entries, with_list};
ghost use Rattle.desk_send.specs.Writing.{Writes};

use crate::actions::put_action;
use crate::members::{Members, put_text};
use crate::unwritten::Unwritten;
use office_fields::{ActionKind, Field};
use office_types::{Action, NetName};
use serde_json::{Map, Value, put};
use std::alloc::{AllocError, Global};

/// The members of an action on a network.
pub(crate) fn action_members(
    alloc: Global,
    net: &NetName,
    action: &Action,
) -> Result<Members, Unwritten>
    ensures { Writes (λ members. members_view members.entries)
        (with_entries (filled field.Net net.now ∷ entries_of action.now) no_members) result }
{
    let mut members = Map::new(alloc);
    put_text(alloc, &mut members, Field::Net, net.as_bytes())?;
    put_action(alloc, &mut members, action)?;
    Ok(members)
}

/// A part of a bundle.
fn part_value(alloc: Global, action: &Action) -> Result<Value, Unwritten>
    ensures { Writes view (part_data action.now) result }
{
    let mut members = Map::new(alloc);
    let word = Value::try_from_str(alloc, ActionKind::of(action).word())?;
    put(&mut members, alloc, "command", word)?;
    put_action(alloc, &mut members, action)?;
    Ok(Value::Object(members))
}

fn part_list(alloc: Global, parts: &[Action]) -> Result<Vec<Value>, Unwritten>
    ensures { Writes (λ values. map view values.items) (data_list part_data parts.now) result }
{
    let mut values = Vec::new(alloc);
    let mut left = parts;
    while let [part, rest @ ..] = left {
        let value = part_value(alloc, part)?;
        values.push(value)?;
        left = rest;
    }
    Ok(values)
}

fn part_values(alloc: Global, parts: &[Action]) -> Result<Vec<Value>, Unwritten>
    ensures { Writes (λ values. items_view values.items) (items_by part_data parts.now) result }
{
    part_list(alloc, parts)
}

/// The members of a bundle.
pub(crate) fn bundle_members(alloc: Global, parts: &[Action]) -> Result<Members, Unwritten>
    ensures { Writes (λ members. members_view members.entries)
        (with_list (codes "commands") (items_by part_data parts.now) no_members) result }
{
    let values = part_values(alloc, parts)?;
    let mut members = Map::new(alloc);
    put(&mut members, alloc, "commands", Value::Array(values))?;
    Ok(members)
}

/// The text of a value, which is read as that value.
fn value_text(alloc: Global, value: &Value) -> Result<String, AllocError>
    requires whole { has_float (view value.now) ≡ false }
    requires shallow { depth (view value.now) ≤ max_depth }
    ensures text { IfOk result (λ text. string_bytes text ≡ compact_text (view value.now)) }
    ensures json { IfOk result (λ text. json_in (string_bytes text) ≡ Some (view value.now)) }
{
    value.to_string(alloc)
}

/// The text of an object.
pub(crate) fn object_text(alloc: Global, members: Members) -> Result<Vec<u8>, AllocError>
    requires whole { has_float (object (members_view members.entries)) ≡ false }
    requires shallow { depth (object (members_view members.entries)) ≤ max_depth }
    ensures text { IfOk result (λ text. text.items
        ≡ compact_text (object (members_view members.entries))) }
    ensures json { IfOk result (λ text. json_in text.items
        ≡ Some (object (members_view members.entries))) }
{
    let value = Value::Object(members);
    Ok(value_text(alloc, &value)?.into_bytes())
}
