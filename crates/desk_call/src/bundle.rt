//! The parts of a bundle that a body gives.
ghost use Rattle.std.specs.Prelude.{◌≡◌, IfOk, string_bytes, codes};
ghost use Rattle.std.specs.BTreeMap.{keys};
ghost use Rattle.std.specs.List.{list_all};
ghost use Rattle.std.specs.Option.{option_map};
ghost use Rattle.std.specs.Str.{bytes_eq};
ghost use Rattle.serde_json.specs.View.{items_view, members_view, view};
ghost use Rattle.office_fields.specs.Given.{named_values};
ghost use Rattle.office_fields.specs.Reading.{ReadsField};
ghost use Rattle.desk_call.specs.Bundle.{bundle_in, commands_in, has_just_commands, has_just_part, is_part_name};
ghost use Rattle.desk_call.specs.Bundle.{kind_in, part_in, part_values, parts_of_items};

use crate::body::json_in;
use crate::members::{given_in, is_name_of};
use base::Items;
use office_fields::{ActionKind, Field, GivenValue, Unread, part_of};
use office_types::{Action, Parts};
use serde_json::{Map, Value};
use std::alloc::{AllocError, Global};

fn are_part_names(fields: &[Field], members: &Map<String, Value>) -> bool
    ensures { result ≡ list_all (λ k. is_part_name fields.now (string_bytes k)) (keys members.now) }
{
    members.keys().all(|name| name.as_str() == "command" || is_name_of(fields, name.as_str()))
}

/// Whether each member is the command's word or has the name of one of the fields.
#[tactic(auto, using(crate::proofs::Names::all_just_part))]
fn has_just_part(fields: &[Field], members: &Map<String, Value>) -> bool
    ensures { result ≡ has_just_part fields.now (members_view members.now.entries) }
{
    are_part_names(fields, members)
}

fn kind_in(value: &Value) -> Option<ActionKind>
    ensures { result ≡ kind_in (view value.now) }
{
    ActionKind::of_word(value.get("command")?.as_str()?.as_bytes())
}

/// What an object gives for the fields; `None` where the value is no object of just a command and these fields.
fn part_values(
    alloc: Global,
    fields: &[Field],
    value: &Value,
) -> Result<Option<Vec<GivenValue<'static>>>, AllocError>
    ensures { IfOk result (λ found. option_map (λ values. named_values values.items) found
        ≡ part_values fields.now (view value.now)) }
{
    match value.as_object() {
        Some(members) if has_just_part(fields, members) => given_in(alloc, fields, value),
        _ => Ok(None),
    }
}

#[tactic(auto, unfolding(crate::specs::Bundle::part_in))]
fn part_in(alloc: Global, value: &Value) -> Result<Action, Unread>
    ensures { ReadsField (part_in (view value.now)) result }
{
    let Some(kind) = kind_in(value) else {
        return Err(Unread::Wrong);
    };
    let Some(values) = part_values(alloc, kind.part_fields(), value)? else {
        return Err(Unread::Wrong);
    };
    part_of(alloc, kind, &values)
}

fn parts_of_items(alloc: Global, items: &[Value]) -> Result<Items<Action>, Unread>
    ensures { ReadsField (parts_of_items (items_view items.now)) result }
{
    let mut parts = Items::new(alloc);
    let mut left = items;
    while let [value, rest @ ..] = left {
        let part = part_in(alloc, value)?;
        parts.push(part)?;
        left = rest;
    }
    Ok(parts)
}

fn are_commands(members: &Map<String, Value>) -> bool
    ensures { result ≡ list_all (λ k. bytes_eq (string_bytes k) (codes "commands"))
        (keys members.now) }
{
    members.keys().all(|name| name.as_str() == "commands")
}

#[tactic(auto, using(crate::proofs::Names::all_commands))]
fn has_just_commands(members: &Map<String, Value>) -> bool
    ensures { result ≡ has_just_commands (members_view members.now.entries) }
{
    are_commands(members)
}

/// The list of an object of just `commands`.
fn commands_in(value: &Value) -> Option<&[Value]>
    ensures { option_map (λ items. items_view items.now) result ≡ commands_in (view value.now) }
{
    match value.as_object() {
        Some(members) if has_just_commands(members) => {
            Some(value.get("commands")?.as_array()?.as_slice())
        }
        _ => None,
    }
}

/// The parts of the bundle that the body gives. `Wrong` where the body isn't a JSON object of just `commands`, a list
/// of 1 to 64 objects, each with the word of a command without a file as `command` and with just that command's fields
/// but the network, as [`command_in`](crate::command_in) reads them.
#[tactic(auto, unfolding(crate::specs::Bundle::bundle_in))]
pub fn bundle_in(alloc: Global, body: &[u8]) -> Result<Parts<Action>, Unread>
    ensures { ReadsField (bundle_in body.now) result }
{
    let Some(value) = json_in(alloc, body)? else {
        return Err(Unread::Wrong);
    };
    let Some(items) = commands_in(&value) else {
        return Err(Unread::Wrong);
    };
    let parts = parts_of_items(alloc, items)?;
    Parts::of(parts).ok_or(Unread::Wrong)
}
