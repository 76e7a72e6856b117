//! Whether the messages of an imported file are clear.
ghost use Rattle.std.specs.Prelude.{◌≡◌, IfOk};
ghost use Rattle.std.specs.List.{flat_map};
ghost use Rattle.base.specs.Refusing.{first_refusal};
ghost use Rattle.office_rules.specs.Importing.{clear_tests};

use dbc_sheet::Message;
use dbc_words::SheetCode;
use office_types::{FileFault, Refusal};
use std::alloc::{AllocError, Global};

/// Why the message isn't clear.
fn clear_refusal(alloc: Global, message: &Message) -> Result<Option<Refusal>, AllocError>
    ensures { IfOk result (λ refusal. refusal ≡ first_refusal (clear_tests message.now)) }
{
    match message.first_clash(alloc)? {
        None => Ok(None),
        Some(clash) => Ok(Some(Refusal::FileFault(FileFault {
            fault: SheetCode::from(clash).number(),
            at: message.number(),
        }))),
    }
}

/// Why the first of the messages that isn't clear isn't.
pub(crate) fn first_unclear(
    alloc: Global,
    messages: &[Message],
) -> Result<Option<Refusal>, AllocError>
    ensures { IfOk result (λ refusal. refusal ≡ first_refusal (flat_map clear_tests messages.now)) }
{
    for message in messages {
        let refusal = clear_refusal(alloc, message)?;
        if refusal.is_some() {
            return Ok(refusal);
        }
    }
    Ok(None)
}
