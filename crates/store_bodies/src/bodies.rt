//! Bodies of messages, and texts of sheets.
ghost use Rattle.std.specs.Prelude.{◌≡◌, IfOk, None, Some};
ghost use Rattle.dbc_grammar.specs.Reads.{Reads};
ghost use Rattle.dbc_sheet.specs.declared.message.Message.{Message as MessageModel};
ghost use Rattle.dbc_sheet.specs.declared.sheet.Sheet.{Sheet as Whole};
ghost use Rattle.dbc_read.specs.Reading.{ReadsAsNothing};
ghost use Rattle.store_bodies.specs.Body.{IsBody, only_message};

use base::Items;
use dbc_lex::ReadCode;
use dbc_read::{Reading, read};
use dbc_sheet::{Message, Sheet};
use std::alloc::{AllocError, Global};
use std::mem::replace;

/// The sheet of a reading, without what was skipped.
fn sheet_in(alloc: Global, reading: Reading) -> Sheet
    ensures { result ≡ reading.sheet }
{
    let mut reading = reading;
    replace(&mut reading.sheet, Sheet::new(alloc))
}

/// The sheet that the text reads as, whatever is skipped; `None` where it reads as none. The sheet need not be clear.
/// The error is out of memory.
pub fn sheet_of(alloc: Global, text: &[u8]) -> Result<Option<Sheet>, AllocError>
    ensures found { IfOk result (λ found. (sheet : Whole) → Reads text.now sheet
        → found ≡ Some sheet) }
    ensures none { IfOk result (λ found. ReadsAsNothing text.now → found ≡ None) }
{
    match read(alloc, text) {
        Ok(reading) => Ok(Some(sheet_in(alloc, reading))),
        Err(fault) => match fault.code {
            ReadCode::Memory => Err(AllocError),
            _ => Ok(None),
        },
    }
}

/// The one message of the sheet, `None` where it has none or several.
fn only_message(sheet: Sheet) -> Option<Message>
    ensures { result ≡ only_message sheet.messages }
{
    let mut sheet = sheet;
    let mut messages: Items<Message> = sheet.take_messages();
    if messages.as_slice().len() == 1 {
        Some(messages.remove(0))
    } else {
        None
    }
}

/// The message of the body: the one message of the sheet that the text reads as. `None` where it reads as no sheet, or
/// as one with no message or several. The error is out of memory.
pub fn message_of(alloc: Global, body: &[u8]) -> Result<Option<Message>, AllocError>
    ensures found { IfOk result (λ found. (message : MessageModel) → IsBody body.now message
        → found ≡ Some message) }
    ensures only { IfOk result (λ found. (sheet : Whole) → Reads body.now sheet
        → found ≡ only_message sheet.messages) }
    ensures none { IfOk result (λ found. ReadsAsNothing body.now → found ≡ None) }
{
    match sheet_of(alloc, body)? {
        Some(sheet) => Ok(only_message(sheet)),
        None => Ok(None),
    }
}
