//! The partner of a message.
ghost use Rattle.std.specs.Prelude.{◌≡◌};
ghost use Rattle.std.specs.Option.{option_copied};
ghost use Rattle.dbc_words.specs.Named.{thing_named};
ghost use Rattle.dbc_sheet.specs.Messages.{has_number, message_name};
ghost use Rattle.dbc_sheet.specs.Pairs.{if_new_name, partner};

use crate::message::Message;
use crate::sheet::Sheet;
use dbc_words::Name;

/// Whether a message of the sheet has the DBC number.
pub fn has_number(sheet: &Sheet, number: u32) -> bool
    ensures { result ≡ has_number sheet.now.messages number }
{
    sheet.find(number).is_some()
}

/// The message of the name.
fn message_named<'a>(sheet: &'a Sheet, name: &Name) -> Option<&'a Message>
    ensures { option_copied result ≡ thing_named message_name sheet.now.messages name.now }
{
    for found in sheet.messages() {
        if &found.name == name {
            return Some(found);
        }
    }
    None
}

/// The message of the name. The messages aren't gone through where none has it.
fn named_if_any<'a>(sheet: &'a Sheet, name: &Name) -> Option<&'a Message>
    ensures { option_copied result ≡ thing_named message_name sheet.now.messages name.now }
{
    if sheet.has_name(name) {
        message_named(sheet, name)
    } else {
        None
    }
}

/// The message of the other one's name. As a rule it has that one's number, too.
fn namesake<'a>(sheet: &'a Sheet, message: &Message) -> Option<&'a Message>
    ensures { option_copied result
        ≡ thing_named message_name sheet.now.messages message.now.name }
{
    // Two messages of a sheet have different names.
    let _ = sheet.messages();
    match sheet.find(message.number()) {
        Some(found) => {
            if found.name == message.name {
                Some(found)
            } else {
                named_if_any(sheet, &message.name)
            }
        }
        None => named_if_any(sheet, &message.name),
    }
}

/// The message, if no message of the other sheet has its name.
fn if_new_name<'a>(other: &Sheet, found: Option<&'a Message>) -> Option<&'a Message>
    ensures { option_copied result
        ≡ if_new_name other.now.messages (option_copied found.entry) }
{
    match found {
        Some(message) => {
            if other.has_name(&message.name) {
                None
            } else {
                Some(message)
            }
        }
        None => None,
    }
}

/// The partner in the sheet of a message of the other sheet: the message of its name; else, where neither name is in
/// the other sheet, the one of its DBC number. `None` where it has no partner. Takes no memory.
pub fn partner<'a>(sheet: &'a Sheet, other: &Sheet, message: &Message) -> Option<&'a Message>
    ensures { option_copied result
        ≡ partner sheet.now.messages other.now.messages message.now }
{
    match namesake(sheet, message) {
        Some(found) => Some(found),
        None => if_new_name(other, sheet.find(message.number())),
    }
}
