//! What JSON values are, and what they must be.

use crate::pieces::{Told, text_in, text_of, told};
use desk_call::bytes_of;
use office_advice::phrase_of;
use office_fields::FieldKind;
use serde_json::Value;
use std::alloc::{AllocError, Global};

/// What the value is.
pub(crate) fn found_word(value: &Value) -> &'static str {
    match value {
        Value::Null => "null",
        Value::Bool(_) => "a truth value",
        Value::Number(_) => "a number",
        Value::String(_) => "a text",
        Value::Array(_) => "a list",
        Value::Object(_) => "an object",
    }
}

/// What a value of the kind is in JSON.
pub(crate) fn wanted_word(kind: FieldKind) -> &'static str {
    match kind {
        FieldKind::Number
        | FieldKind::Reviews
        | FieldKind::Length
        | FieldKind::Priority
        | FieldKind::Address
        | FieldKind::Size
        | FieldKind::Start => "a number",
        FieldKind::Truth => "a truth value",
        FieldKind::ValueText => "a list",
        _ => "a text",
    }
}

/// Which values of the kind there are, in words.
pub(crate) fn phrase_in(alloc: Global, kind: FieldKind) -> Result<String, AllocError> {
    match kind {
        FieldKind::ValueText => text_of(
            alloc,
            "two texts, a number as in DBC files and a text with \\ before each \" and each \\",
        ),
        _ => text_of(alloc, text_in(&phrase_of(alloc, kind)?)),
    }
}

/// That a part of a target isn't a value of the kind.
pub(crate) fn malformed(alloc: Global, part: &str, kind: FieldKind) -> Result<String, AllocError> {
    let phrase = phrase_in(alloc, kind)?;
    format!(in alloc; "the {part} is malformed: {phrase}")
}

/// What is found in a list of two texts that isn't one, if one of its items is no text.
fn found_in_pair(value: &Value) -> Option<&'static str> {
    let items = value.as_array()?;
    let other = items.iter().find(|item| item.as_str().is_none())?;
    Some(found_word(other))
}

/// Why the value of the name is none of the kind, if JSON shows it.
pub(crate) fn value_unlike(alloc: Global, name: &str, kind: FieldKind, value: &Value) -> Told {
    if bytes_of(alloc, kind, value)?.is_some() {
        return Ok(None);
    }
    let found = found_word(value);
    let wanted = wanted_word(kind);
    let phrase = phrase_in(alloc, kind)?;
    if found != wanted {
        told(format!(in alloc; "{name} is {found} and must be {wanted}: {phrase}"))
    } else if let Some(other) = found_in_pair(value) {
        told(format!(in alloc; "{name} has {other} in it and must be {phrase}"))
    } else {
        told(format!(in alloc; "{name} must be {phrase}"))
    }
}
