//! The command that a body gives.
ghost use Rattle.std.specs.Prelude.{◌≡◌, IfOk};
ghost use Rattle.std.specs.Option.{option_map};
ghost use Rattle.serde_json.specs.View.{view};
ghost use Rattle.office_fields.specs.Reading.{ReadsField};
ghost use Rattle.desk_call.specs.Body.{command_in, json_in};

use crate::members::values_in;
use office_fields::{ActionKind, CommandKind, Unread, command_of};
use office_types::Command;
use serde_json::Value;
use std::alloc::{AllocError, Global};
use std::str::from_utf8;

/// The JSON value that the bytes are the text of, or `None` where they are no text of one.
#[tactic(auto, unfolding(crate::specs::Body::json_in))]
pub(crate) fn json_in(alloc: Global, bytes: &[u8]) -> Result<Option<Value>, AllocError>
    ensures { IfOk result (λ found. option_map view found ≡ json_in bytes.now) }
{
    let Ok(text) = from_utf8(bytes) else {
        return Ok(None);
    };
    match Value::from_str(alloc, text) {
        Ok(value) => Ok(Some(value)),
        Err(error) if error.is_memory() => Err(AllocError),
        Err(_) => Ok(None),
    }
}

/// The command of the kind that the body gives. `Wrong` where the body isn't a JSON object with just the command's
/// fields, each of its kind and in its range: as for a script, but that JSON writes a number by its digits and a
/// truth by `true` or `false`, and the repeated fields by one list each, `receivers` of texts and `values` of lists
/// of two texts.
#[tactic(auto, unfolding(crate::specs::Body::command_in))]
pub fn command_in(alloc: Global, kind: ActionKind, body: &[u8]) -> Result<Command, Unread>
    ensures { ReadsField (command_in kind body.now) result }
{
    let Some(value) = json_in(alloc, body)? else {
        return Err(Unread::Wrong);
    };
    let fields = CommandKind::Act(kind).fields();
    let Some(values) = values_in(alloc, fields, &value)? else {
        return Err(Unread::Wrong);
    };
    command_of(alloc, kind, &values)
}
