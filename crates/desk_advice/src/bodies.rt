//! Why a body is none of a command, an import or a bundle.

use crate::bundles::bundle_wrong;
use crate::members::object_wrong;
use crate::pieces::{Told, text_of};
use desk_head::Posting;
use office_advice::LineCommand;
use office_fields::CommandKind;
use serde_json::Value;
use std::alloc::{AllocError, Global};
use std::str::from_utf8;

/// The JSON value of a body, or why it is none.
enum BodyRead {
    Value(Value),
    Wrong(String),
}

/// Reads the body as JSON.
fn json_of(alloc: Global, body: &[u8]) -> Result<BodyRead, AllocError> {
    if body.is_empty() {
        let text = "the body is empty, and must be a JSON object";
        return Ok(BodyRead::Wrong(text_of(alloc, text)?));
    }
    let text = match from_utf8(body) {
        Ok(text) => text,
        Err(error) => {
            let byte = error.valid_up_to().saturating_add(1);
            let text = format!(in alloc; "the body is not UTF-8 at byte {byte}")?;
            return Ok(BodyRead::Wrong(text));
        }
    };
    match Value::from_str(alloc, text) {
        Ok(value) => Ok(BodyRead::Value(value)),
        Err(error) if error.is_memory() => Err(AllocError),
        Err(error) => {
            let line = error.line();
            let column = error.column();
            let text = format!(in alloc; "the body is not JSON at line {line}, byte {column}")?;
            Ok(BodyRead::Wrong(text))
        }
    }
}

/// Why the body gives nothing of the kind, if it gives nothing.
pub(crate) fn body_wrong(alloc: Global, posting: Posting, body: &[u8]) -> Told {
    if let Posting::Import = posting {
        return Ok(None);
    }
    match json_of(alloc, body)? {
        BodyRead::Wrong(text) => Ok(Some(text)),
        BodyRead::Value(value) => match posting {
            Posting::Act(kind) => {
                let command = LineCommand::Whole(CommandKind::Act(kind));
                object_wrong(alloc, command, &value)
            }
            Posting::Bundle => bundle_wrong(alloc, &value),
            Posting::Import => Ok(None),
        },
    }
}
