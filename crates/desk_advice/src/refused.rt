//! What a response says: its status, and what is refused.
ghost use Rattle.std.specs.Prelude.{◌≡◌};
ghost use Rattle.desk_advice.specs.Front.{is_reported, status_of};

use crate::pieces::text_in;
use office_types::{FileFault, Refusal};
use serde_json::Value;
use std::alloc::{AllocError, Global};

/// What a response refuses.
#[derive(Clone, Copy)]
pub(crate) enum Refused {
    /// The team has used the key for another request.
    Key,
    /// The office refuses the command.
    Command(Refusal),
}

/// The digits of the status of a response.
pub(crate) fn status_of(response: &[u8]) -> &[u8]
    ensures { result.now ≡ status_of response.now }
{
    if 12 <= response.len() {
        &response[9..12]
    } else {
        b"-"
    }
}

/// Whether the response is reported: it is one, and not of status 200.
pub(crate) fn is_reported_response(response: &[u8]) -> bool
    ensures { result ≡ is_reported response.now }
{
    !response.is_empty() && status_of(response) != b"200".as_slice()
}

/// The JSON object of the response, which begins at the first brace: no line of its head has one.
fn object_of(response: &[u8]) -> &[u8] {
    let Some(at) = response.iter().position(|byte| *byte == b'{') else {
        return &[];
    };
    match response.get(at..) {
        Some(object) => object,
        None => &[],
    }
}

/// The number of the member of the name.
fn number_in(value: &Value, name: &str) -> Option<u32> {
    u32::try_from(value.get(name)?.as_u64()?).ok()
}

/// Which fault the object names, and where; zeros where it names none.
fn fault_in(value: &Value) -> FileFault {
    let fault = match number_in(value, "fault") {
        Some(number) => u8::try_from(number).unwrap_or(0),
        None => 0,
    };
    let at = number_in(value, "at").unwrap_or(0);
    FileFault { fault, at }
}

/// What the object refuses.
fn refused_in(value: &Value) -> Option<Refused> {
    let number = number_in(value, "refused")?;
    if number == 70 {
        return Some(Refused::Key);
    }
    Some(Refused::Command(Refusal::of_number(number, fault_in(value))?))
}

/// What the response refuses, if it refuses anything. The error is out of memory.
pub(crate) fn refused_of(alloc: Global, response: &[u8]) -> Result<Option<Refused>, AllocError> {
    let text = text_in(object_of(response));
    match Value::from_str(alloc, text) {
        Ok(value) => Ok(refused_in(&value)),
        Err(error) if error.is_memory() => Err(AllocError),
        Err(_) => Ok(None),
    }
}

/// Its code and its name, as the reply to a line of a script has them.
pub(crate) fn label_of(alloc: Global, refused: Refused) -> Result<String, AllocError> {
    match refused {
        Refused::Key => String::from_str(alloc, "70 KeyReused"),
        Refused::Command(refusal) => {
            let number = refusal.number();
            let name = refusal.name();
            match refusal {
                Refusal::FileFault(FileFault { fault, at })
                | Refusal::BundleRefused(FileFault { fault, at }) => {
                    format!(in alloc; "{number} {name} {fault} {at}")
                }
                _ => format!(in alloc; "{number} {name}"),
            }
        }
    }
}
