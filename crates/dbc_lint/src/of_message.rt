//! Remarks on a message itself.
ghost use Rattle.std.specs.Prelude.{◌≡◌, ◌++◌, OnOk, find};
ghost use Rattle.std.specs.Option.{option_copied};
ghost use Rattle.can_id.specs.J1939.{ident_fields};
ghost use Rattle.dbc_lint.specs.OfMessage.{address_twice, first_sender, is_long_frame, is_sent_from, is_standard};
ghost use Rattle.dbc_lint.specs.OfMessage.{of_message, other_sender, unknown_transmitter};

use crate::kind::Kind;
use crate::of_signal::{add_unknown_node, is_long};
use crate::remark::{Remark, add_when, add_word_when};
use crate::whole::{Whole, is_over_8};
use can_id::{Ident, J1939};
use dbc_sheet::Message;
use dbc_words::Name;
use std::alloc::{AllocError, Global};

/// Adds a remark if the transmitter isn't a node.
fn add_unknown_transmitter(
    alloc: Global,
    whole: &Whole,
    message: &Message,
    at: usize,
    remarks: &mut Vec<Remark>,
) -> Result<(), AllocError>
    ensures { OnOk result (remarks.new.items ≡ remarks.old.items
        ++ unknown_transmitter whole.now message.now at message.now.transmitter) }
{
    match &message.transmitter {
        Some(name) => {
            let words = message.name.as_bytes();
            add_unknown_node(alloc, whole, words, at, name, remarks)
        }
        None => Ok(()),
    }
}

/// Whether the identifier has 11 bits.
fn is_standard(ident: Ident) -> bool
    ensures { result ≡ is_standard ident }
{
    match ident {
        Ident::Std(_) => true,
        Ident::Ext(_) => false,
    }
}

/// Whether the message has an 11-bit identifier and more than 8 bytes, and no other message has as many.
fn is_long_frame(whole: &Whole, message: &Message) -> bool
    ensures { result ≡ is_long_frame whole.now message.now }
{
    is_standard(message.ident) && is_over_8(message) && whole.over_8() == 1
}

/// The address of a node that has none.
const NULL_ADDRESS: u8 = 254;

/// Whether a node sends the message from the address.
fn is_sent_from(address: u8, message: &Message) -> bool
    ensures { result ≡ is_sent_from address message.now }
{
    if message.transmitter.is_none() {
        return false;
    }
    match J1939::of(message.ident) {
        Some(fields) => fields.source() == address,
        None => false,
    }
}

/// The first message that a node sends from the address.
fn first_sent(messages: &[Message], address: u8) -> Option<&Message>
    ensures { option_copied result ≡ find (is_sent_from address) messages.now }
{
    for message in messages {
        if is_sent_from(address, message) {
            return Some(message);
        }
    }
    None
}

/// The node that sends the first message from the address.
fn first_sender(messages: &[Message], address: u8) -> Option<&Name>
    ensures { option_copied result ≡ first_sender messages.now address }
{
    let message = first_sent(messages, address)?;
    message.transmitter.as_ref()
}

/// Adds a remark if the first sender is another.
fn add_other_sender(
    alloc: Global,
    message: &Message,
    at: usize,
    name: &Name,
    first: Option<&Name>,
    remarks: &mut Vec<Remark>,
) -> Result<(), AllocError>
    ensures { OnOk result (remarks.new.items ≡ remarks.old.items
        ++ other_sender message.now at name.now (option_copied first.entry)) }
{
    match first {
        Some(first) => {
            let holds = first.as_bytes() != name.as_bytes();
            let words = message.name.as_bytes();
            let word = first.as_bytes();
            add_word_when(alloc, holds, Kind::AddressTwice, at, words, word, remarks)
        }
        None => Ok(()),
    }
}

/// Adds a remark if another node sends the first message from the source address.
fn add_address_twice(
    alloc: Global,
    whole: &Whole,
    message: &Message,
    at: usize,
    remarks: &mut Vec<Remark>,
) -> Result<(), AllocError>
    ensures { OnOk result (remarks.new.items ≡ remarks.old.items
        ++ address_twice whole.now message.now at message.now.transmitter
        (ident_fields message.now.ident)) }
{
    match (&message.transmitter, J1939::of(message.ident)) {
        (Some(name), Some(fields)) => {
            let address = fields.source();
            if address == NULL_ADDRESS {
                return Ok(());
            }
            let first = first_sender(whole.sheet().messages(), address);
            add_other_sender(alloc, message, at, name, first, remarks)
        }
        _ => Ok(()),
    }
}

/// Adds the remarks on the message itself.
pub(crate) fn add_of_message(
    alloc: Global,
    whole: &Whole,
    message: &Message,
    at: usize,
    remarks: &mut Vec<Remark>,
) -> Result<(), AllocError>
    ensures { OnOk result (remarks.new.items ≡ remarks.old.items
        ++ of_message whole.now message.now at) }
{
    let words = message.name.as_bytes();
    let long_name = is_long(&message.name);
    add_when(alloc, long_name, Kind::LongName, at, words, remarks)?;
    add_unknown_transmitter(alloc, whole, message, at, remarks)?;
    let long_frame = is_long_frame(whole, message);
    add_when(alloc, long_frame, Kind::LongFrame, at, words, remarks)?;
    add_address_twice(alloc, whole, message, at, remarks)
}
