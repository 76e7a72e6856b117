//! The sheet of a release.
ghost use Rattle.std.specs.Prelude.{◌≡◌, IfOk, OnOk};

use base::Copying;
use dbc_sheet::{Message, Sheet, same_messages_are_equal};
use dbc_words::SheetCode;
use office_types::FrozenSheet;
use sqlite::Error;
use std::alloc::{AllocError, Global};

/// Adds a copy of each message where its number belongs. An error where the sheet refuses one, or memory ran out.
fn add_messages(alloc: Global, sheet: &mut Sheet, messages: &[Message]) -> Result<(), Error>
    ensures { OnOk result (sheet.new ≡ record sheet.old { messages = sheet.new.messages }) }
{
    for message in messages {
        match sheet.with_message(alloc, message.duplicate(alloc)?) {
            Ok(()) => {}
            Err(fault) => match fault.code {
                SheetCode::Memory => return Err(Error::from(AllocError)),
                _ => return Err(Error::InvalidQuery),
            },
        }
    }
    Ok(())
}

/// The release as a sheet. An error where its messages are no sheet's (as those of every release are), or memory ran
/// out.
pub(crate) fn release_sheet(alloc: Global, release: &FrozenSheet) -> Result<Sheet, Error>
    ensures { IfOk result (λ sheet. sheet ≡ release.now) }
{
    let mut sheet = release.frame().copy(alloc)?;
    let _own = sheet.take_messages();
    add_messages(alloc, &mut sheet, release.messages())?;
    same_messages_are_equal();
    if sheet.messages() == release.messages() {
        Ok(sheet)
    } else {
        Err(Error::InvalidQuery)
    }
}
