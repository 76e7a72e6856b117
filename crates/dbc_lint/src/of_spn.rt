//! Remarks on a suspect parameter number that two signals have.
ghost use Rattle.std.specs.Prelude.{◌≡◌, ◌++◌, ◌∷◌, [], OnOk};
ghost use Rattle.std.specs.Option.{option_copied};
ghost use Rattle.can_id.specs.J1939.{ident_fields};
ghost use Rattle.dbc_lint.specs.OfSpn.{earlier_in, first_outside, first_place, is_one_group, may_share, places_in};
ghost use Rattle.dbc_lint.specs.OfSpn.{spn_remark, spn_twice};

use crate::kind::Kind;
use crate::remark::{Remark, add_word_when, with_word};
use crate::spn_places::SpnPlace;
use crate::whole::Whole;
use can_id::{Ident, J1939};
use dbc_sheet::{Message, Signal};
use std::alloc::{AllocError, Global};

/// Whether the messages of these identifiers are of one parameter group.
fn is_one_group(one: Ident, other: Ident) -> bool
    ensures { result ≡ is_one_group (ident_fields one) (ident_fields other) }
{
    match (J1939::of(one), J1939::of(other)) {
        (Some(one), Some(other)) => one.pgn() == other.pgn(),
        _ => false,
    }
}

/// Whether both messages may have one number.
fn may_share(message: &Message, other: &Message) -> bool
    ensures { result ≡ may_share message.now other.now }
{
    message.number() == other.number() || is_one_group(message.ident, other.ident)
}

/// The first signal of the message that has the number.
fn first_in(message: &Message, number: u32) -> Option<SpnPlace>
    ensures { result ≡ first_place (places_in message.now) number }
{
    for signal in message.signals.as_slice() {
        if signal.spn.number() == number {
            return Some(SpnPlace { message, signal });
        }
    }
    None
}

/// The first signal of the message that has the number of the signal, if that is another one.
fn earlier_in<'a>(message: &'a Message, signal: &Signal) -> Option<SpnPlace<'a>>
    ensures { result ≡ earlier_in message.now signal.now }
{
    let first = first_in(message, signal.spn.number())?;
    if first.signal.name.as_bytes() == signal.name.as_bytes() {
        return None;
    }
    Some(first)
}

/// The first signal of the file that has the number of the signal, if it is of a message that may not share it.
fn first_outside<'a>(
    whole: &'a Whole,
    message: &Message,
    signal: &Signal,
) -> Option<&'a SpnPlace<'a>>
    ensures { option_copied result ≡ first_outside whole.now.messages message.now signal.now }
{
    let first = whole.first_place(signal.spn.number())?;
    if may_share(message, first.message) {
        return None;
    }
    Some(first)
}

/// Adds a remark that names the place.
fn add_place(
    alloc: Global,
    words: &[u8],
    at: usize,
    place: &SpnPlace,
    remarks: &mut Vec<Remark>,
) -> Result<(), AllocError>
    ensures { OnOk result (remarks.new.items ≡ remarks.old.items
        ++ spn_remark words.now at place.now ∷ []) }
{
    let words = with_word(alloc, words, place.message.name.as_bytes())?;
    let word = place.signal.name.as_bytes();
    add_word_when(alloc, true, Kind::SpnTwice, at, &words, word, remarks)
}

/// Adds a remark if another signal had the number of the signal before.
pub(crate) fn add_spn_twice(
    alloc: Global,
    whole: &Whole,
    message: &Message,
    signal: &Signal,
    words: &[u8],
    at: usize,
    remarks: &mut Vec<Remark>,
) -> Result<(), AllocError>
    ensures { OnOk result (remarks.new.items ≡ remarks.old.items
        ++ spn_twice whole.now message.now signal.now words.now at) }
{
    if signal.spn.number() == 0 {
        return Ok(());
    }
    if let Some(place) = earlier_in(message, signal) {
        return add_place(alloc, words, at, &place, remarks);
    }
    match first_outside(whole, message, signal) {
        Some(place) => add_place(alloc, words, at, place, remarks),
        None => Ok(()),
    }
}
