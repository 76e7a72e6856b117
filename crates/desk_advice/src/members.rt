//! Why the members of an object give no command.

use crate::pieces::{Told, may_be_shown, text_in, told};
use crate::senders::without_but;
use crate::values::{found_word, phrase_in, value_unlike};
use desk_call::{bytes_of, is_name_of, json_name};
use office_advice::{Cause, LineCommand, Wrong, meaning_of, values_wrong};
use office_fields::{CommandKind, Field, GivenValue, Occurrence, Unread, command_of, part_of};
use serde_json::{Map, Value};
use std::alloc::{AllocError, Global};

/// The names of the fields' members: `net, message, receivers`.
fn member_names(alloc: Global, fields: &[Field]) -> Result<String, AllocError> {
    let mut text = String::new(alloc);
    for field in fields {
        if !text.is_empty() {
            text.push_str(", ")?;
        }
        text.push_str(json_name(*field))?;
    }
    Ok(text)
}

/// The first member, by name, that is none of these fields, and isn't called `command` in a bundle.
fn unknown_member<'v>(command: LineCommand, members: &'v Map<String, Value>) -> Option<&'v str> {
    let is_part = matches!(command, LineCommand::Part(_));
    let fields = command.fields();
    for name in members.keys() {
        let name = name.as_str();
        if !is_name_of(fields, name) && !(is_part && name == "command") {
            return Some(name);
        }
    }
    None
}

/// That the command has no such member.
fn unknown_text(alloc: Global, command: LineCommand, name: &str) -> Result<String, AllocError> {
    let word = command.word();
    let names = member_names(alloc, command.fields())?;
    if may_be_shown(name) {
        format!(in alloc; "{name} is unknown: the fields of {word} are {names}")
    } else {
        format!(in alloc; "a member with another name is unknown: the fields of {word} are {names}")
    }
}

/// That the field is missing.
fn missing_text(alloc: Global, field: Field) -> Result<String, AllocError> {
    let name = json_name(field);
    let phrase = phrase_in(alloc, field.kind())?;
    match field.occurrence() {
        Occurrence::Repeated => {
            format!(in alloc; "{name} is missing: a list that may be empty, each item {phrase}")
        }
        Occurrence::Required | Occurrence::Optional => {
            format!(in alloc; "{name} is missing: {phrase}")
        }
    }
}

/// Why the items of a field's list are none of its kind, if JSON shows it.
fn items_unlike(alloc: Global, field: Field, items: &[Value]) -> Told {
    let list = json_name(field);
    let mut number = 0u32;
    for item in items {
        number = number.saturating_add(1);
        let name = format!(in alloc; "item {number} of {list}")?;
        if let Some(text) = value_unlike(alloc, name.as_str(), field.kind(), item)? {
            return Ok(Some(text));
        }
    }
    Ok(None)
}

/// Why a member is none of the field, if JSON shows it.
fn member_unlike(alloc: Global, field: Field, member: Option<&Value>) -> Told {
    match (field.occurrence(), member) {
        (Occurrence::Optional, None) => Ok(None),
        (_, None) => told(missing_text(alloc, field)),
        (Occurrence::Repeated, Some(value)) => match value.as_array() {
            Some(items) => items_unlike(alloc, field, items.as_slice()),
            None => {
                let name = json_name(field);
                let found = found_word(value);
                told(format!(in alloc; "{name} is {found} and must be a list"))
            }
        },
        (_, Some(value)) => value_unlike(alloc, json_name(field), field.kind(), value),
    }
}

/// Adds what the value gives for the field.
fn add_given(
    alloc: Global,
    given: &mut Vec<GivenValue<'static>>,
    field: Field,
    value: &Value,
) -> Result<(), AllocError> {
    if let Some(bytes) = bytes_of(alloc, field.kind(), value)? {
        given.push(GivenValue {
            name: field.name().as_bytes(),
            value: bytes,
        })?;
    }
    Ok(())
}

/// What the members of an object give for the fields.
fn given_of(
    alloc: Global,
    fields: &[Field],
    value: &Value,
) -> Result<Vec<GivenValue<'static>>, AllocError> {
    let mut given = Vec::new(alloc);
    for field in fields {
        match (field.occurrence(), value.get(json_name(*field))) {
            (Occurrence::Repeated, Some(list)) => {
                if let Some(items) = list.as_array() {
                    for item in items {
                        add_given(alloc, &mut given, *field, item)?;
                    }
                }
            }
            (_, Some(one)) => add_given(alloc, &mut given, *field, one)?,
            (_, None) => {}
        }
    }
    Ok(given)
}

/// Why values make no command.
fn cause_text(alloc: Global, cause: Cause) -> Result<String, AllocError> {
    match cause {
        Cause::WrongValue(field) => {
            let name = json_name(field);
            let phrase = phrase_in(alloc, field.kind())?;
            match field.occurrence() {
                Occurrence::Repeated => format!(in alloc; "each of {name} must be {phrase}"),
                Occurrence::Required | Occurrence::Optional => {
                    format!(in alloc; "{name} must be {phrase}")
                }
            }
        }
        Cause::Apart(field) => {
            let name = json_name(field);
            let meaning = meaning_of(alloc, cause)?;
            let rest = text_in(without_but(&meaning));
            format!(in alloc; "{name} does not fit: {rest}")
        }
        _ => {
            let meaning = meaning_of(alloc, cause)?;
            String::from_str(alloc, text_in(without_but(&meaning)))
        }
    }
}

/// Whether a command can be had of the values.
fn can_be_had(
    alloc: Global,
    command: LineCommand,
    given: &[GivenValue<'_>],
) -> Result<bool, AllocError> {
    let read = match command {
        LineCommand::Whole(CommandKind::Act(kind)) => unread_of(command_of(alloc, kind, given)),
        LineCommand::Whole(_) => None,
        LineCommand::Part(kind) => unread_of(part_of(alloc, kind, given)),
    };
    match read {
        None => Ok(true),
        Some(Unread::Wrong) => Ok(false),
        Some(Unread::Memory) => Err(AllocError),
    }
}

/// Why nothing was read, if nothing was.
fn unread_of<T: Drop>(read: Result<T, Unread>) -> Option<Unread> {
    match read {
        Ok(_read) => None,
        Err(unread) => Some(unread),
    }
}

/// The first member that is wrong by itself: one that is unknown, else the first field that is missing, or of another
/// kind of JSON value.
fn member_wrong(
    alloc: Global,
    command: LineCommand,
    members: &Map<String, Value>,
    value: &Value,
) -> Told {
    if let Some(name) = unknown_member(command, members) {
        return told(unknown_text(alloc, command, name));
    }
    for field in command.fields() {
        let member = value.get(json_name(*field));
        if let Some(text) = member_unlike(alloc, *field, member)? {
            return Ok(Some(text));
        }
    }
    Ok(None)
}

/// Why the object gives no command of the kind, if it gives none: a member that is wrong by itself, else what a
/// script's line with such values is wrong for.
pub(crate) fn object_wrong(alloc: Global, command: LineCommand, value: &Value) -> Told {
    let Some(members) = value.as_object() else {
        let found = found_word(value);
        return told(format!(in alloc; "a command is an object, and here {found}"));
    };
    if let Some(text) = member_wrong(alloc, command, members, value)? {
        return Ok(Some(text));
    }
    let given = given_of(alloc, command.fields(), value)?;
    if can_be_had(alloc, command, &given)? {
        return Ok(None);
    }
    let Wrong { word: _, cause } = values_wrong(alloc, command, &given)?;
    told(cause_text(alloc, cause))
}
