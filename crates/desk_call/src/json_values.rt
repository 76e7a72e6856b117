//! The bytes that JSON values give.
ghost use Rattle.std.specs.Prelude.{◌≡◌, ◌==◌, IfOk, decimal};
ghost use Rattle.std.specs.List.{list_any};
ghost use Rattle.std.specs.Option.{option_map};
ghost use Rattle.serde_json.specs.View.{items_view, view};
ghost use Rattle.desk_call.specs.Body.{bytes_of, joined, pair_bytes, truth_word, whole_bytes};

use office_fields::FieldKind;
use serde_json::Value;
use std::alloc::{AllocError, Global};

fn digits_of(alloc: Global, number: u64) -> Result<Vec<u8>, AllocError>
    ensures { IfOk result (λ digits. digits.items ≡ decimal number) }
{
    let text = format!(in alloc; "{number}")?;
    Ok(text.into_bytes())
}

fn whole_bytes(alloc: Global, value: &Value) -> Result<Option<Vec<u8>>, AllocError>
    ensures { IfOk result (λ found. option_map (λ bytes. bytes.items) found
        ≡ whole_bytes (view value.now)) }
{
    match value.as_u64() {
        Some(number) => Ok(Some(digits_of(alloc, number)?)),
        None => Ok(None),
    }
}

fn truth_word(truth: bool) -> &'static str
    ensures { result.now ≡ truth_word truth }
{
    if truth { "true" } else { "false" }
}

fn truth_bytes(alloc: Global, value: &Value) -> Result<Option<Vec<u8>>, AllocError>
    ensures { IfOk result (λ found. option_map (λ bytes. bytes.items) found
        ≡ bytes_of FieldKind.Truth (view value.now)) }
{
    match value.as_bool() {
        Some(truth) => Ok(Some(Vec::from_slice(alloc, truth_word(truth).as_bytes())?)),
        None => Ok(None),
    }
}

fn text_bytes(alloc: Global, value: &Value) -> Result<Option<Vec<u8>>, AllocError>
    ensures { IfOk result (λ found. option_map (λ bytes. bytes.items) found
        ≡ bytes_of FieldKind.Text (view value.now)) }
{
    match value.as_str() {
        Some(text) => Ok(Some(Vec::from_slice(alloc, text.as_bytes())?)),
        None => Ok(None),
    }
}

fn has_colon(bytes: &[u8]) -> bool
    ensures { result ≡ list_any (λ b. b == 58) bytes.now }
{
    bytes.iter().any(|byte| *byte == b':')
}

fn joined(alloc: Global, value: &[u8], text: &[u8]) -> Result<Option<Vec<u8>>, AllocError>
    ensures { IfOk result (λ found. option_map (λ bytes. bytes.items) found
        ≡ joined value.now text.now) }
{
    if has_colon(value) {
        return Ok(None);
    }
    let mut bytes = Vec::from_slice(alloc, value)?;
    bytes.push(b':')?;
    bytes.extend_from_slice(text)?;
    Ok(Some(bytes))
}

fn pair_bytes(alloc: Global, items: &[Value]) -> Result<Option<Vec<u8>>, AllocError>
    ensures { IfOk result (λ found. option_map (λ bytes. bytes.items) found
        ≡ pair_bytes (items_view items.now)) }
{
    match items {
        [value, text] => match (value.as_str(), text.as_str()) {
            (Some(value), Some(text)) => joined(alloc, value.as_bytes(), text.as_bytes()),
            _ => Ok(None),
        },
        [] => Ok(None),
        [_] => Ok(None),
        [_, _, _, ..] => Ok(None),
    }
}

fn value_text_bytes(alloc: Global, value: &Value) -> Result<Option<Vec<u8>>, AllocError>
    ensures { IfOk result (λ found. option_map (λ bytes. bytes.items) found
        ≡ bytes_of FieldKind.ValueText (view value.now)) }
{
    match value.as_array() {
        Some(items) => pair_bytes(alloc, items.as_slice()),
        None => Ok(None),
    }
}

/// The bytes that a JSON value gives for a field of the kind, or `None` where it is no value of the kind.
pub fn bytes_of(
    alloc: Global,
    kind: FieldKind,
    value: &Value,
) -> Result<Option<Vec<u8>>, AllocError>
    ensures { IfOk result (λ found. option_map (λ bytes. bytes.items) found
        ≡ bytes_of kind (view value.now)) }
{
    match kind {
        FieldKind::Number
        | FieldKind::Reviews
        | FieldKind::Length
        | FieldKind::Priority
        | FieldKind::Address
        | FieldKind::Size
        | FieldKind::Start => whole_bytes(alloc, value),
        FieldKind::Truth => truth_bytes(alloc, value),
        FieldKind::ValueText => value_text_bytes(alloc, value),
        _ => text_bytes(alloc, value),
    }
}
