//! Why a body gives no bundle.

use crate::heads::action_words;
use crate::members::object_wrong;
use crate::pieces::{Told, may_be_shown, told};
use crate::values::found_word;
use office_advice::LineCommand;
use office_fields::ActionKind;
use office_types::PART_LIMIT;
use serde_json::{Map, Value};
use std::alloc::{AllocError, Global};

/// The command that a part names.
fn kind_in(part: &Value) -> Option<ActionKind> {
    ActionKind::of_word(part.get("command")?.as_str()?.as_bytes())
}

/// That a part names no command.
fn word_wrong(alloc: Global, part: &Value) -> Result<String, AllocError> {
    let words = action_words(alloc)?;
    match part.get("command") {
        None => format!(in alloc; "command is missing: one of {words}"),
        Some(value) if value.as_str().is_none() => {
            let found = found_word(value);
            format!(in alloc; "command is {found} and must be a text: one of {words}")
        }
        Some(_) => format!(in alloc; "command is none of a bundle's: one of {words}"),
    }
}

/// Why the value is no part of a bundle, if it is none.
fn part_wrong(alloc: Global, part: &Value) -> Told {
    if part.as_object().is_none() {
        let found = found_word(part);
        return told(format!(in alloc; "a command is an object, and here {found}"));
    }
    match kind_in(part) {
        Some(kind) => object_wrong(alloc, LineCommand::Part(kind), part),
        None => told(word_wrong(alloc, part)),
    }
}

/// Why the items are no parts of a bundle, if they are none: the first that is wrong, or how many they are.
fn parts_wrong(alloc: Global, items: &[Value]) -> Told {
    let mut number = 0u32;
    for part in items {
        number = number.saturating_add(1);
        if let Some(text) = part_wrong(alloc, part)? {
            return told(format!(in alloc; "command {number}: {text}"));
        }
    }
    let count = items.len();
    if count == 0 || count > PART_LIMIT {
        told(format!(in alloc; "commands has {count} commands, and a bundle has 1 to {PART_LIMIT}"))
    } else {
        Ok(None)
    }
}

/// The first member of a bundle's object, by name, that isn't `commands`.
fn other_member(members: &Map<String, Value>) -> Option<&str> {
    for name in members.keys() {
        let name = name.as_str();
        if name != "commands" {
            return Some(name);
        }
    }
    None
}

/// That a bundle has no such member.
fn unknown_text(alloc: Global, name: &str) -> Result<String, AllocError> {
    if may_be_shown(name) {
        format!(in alloc; "{name} is unknown: a bundle has commands alone")
    } else {
        format!(in alloc; "a member with another name is unknown: a bundle has commands alone")
    }
}

/// Why the value is no bundle, if it is none.
pub(crate) fn bundle_wrong(alloc: Global, value: &Value) -> Told {
    let Some(members) = value.as_object() else {
        let found = found_word(value);
        return told(format!(in alloc; "a bundle is an object, and here {found}"));
    };
    if let Some(name) = other_member(members) {
        return told(unknown_text(alloc, name));
    }
    match value.get("commands") {
        None => told(format!(in alloc;
            "commands is missing: a list of 1 to {PART_LIMIT} commands"
        )),
        Some(list) => match list.as_array() {
            Some(items) => parts_wrong(alloc, items.as_slice()),
            None => {
                let found = found_word(list);
                told(format!(in alloc; "commands is {found} and must be a list"))
            }
        },
    }
}
