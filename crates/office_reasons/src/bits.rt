//! Refusals about the bits of a new signal.
ghost use Rattle.std.specs.Prelude.{◌≡◌, IfOk, option_map, string_bytes};
ghost use Rattle.office_rules.specs.Signals.{place_at};
ghost use Rattle.office_reasons.specs.Bits.{bytes_text, outside_reason, outside_text, partner_reason, shared_reason};
ghost use Rattle.office_reasons.specs.Bits.{shared_text, start_hint, start_text};

use crate::pieces::shown;
use crate::places::{first_partner, mark_text, placed_text, signal_text};
use bitlayout::{Layout, Place, Size, least_start};
use dbc_advice::{first_outside, first_shared};
use dbc_sheet::{Message, Signal};
use office_types::TakeBits;
use std::alloc::{AllocError, Global};

/// The place that the new signal has from this start on.
fn place_at(take: &TakeBits, start: u16) -> Place
    ensures { result ≡ place_at take.now start }
{
    Place {
        layout: Layout {
            start,
            size: take.size,
            order: take.order,
        },
        mux: take.mux,
    }
}

/// How many bytes a payload has, and which bits these are.
fn bytes_text(alloc: Global, bytes: u16) -> Result<String, AllocError>
    ensures { IfOk result (λ text. string_bytes text ≡ bytes_text bytes) }
{
    if bytes == 0 {
        return String::from_str(alloc, "no bytes");
    }
    let last = 8 * u32::from(bytes) - 1;
    if bytes == 1 {
        format!(in alloc; "1 byte, bits 0 to {last}")
    } else {
        format!(in alloc; "{bytes} bytes, bits 0 to {last}")
    }
}

/// From where on the signal would fit.
fn start_text(alloc: Global, start: Option<u16>) -> Result<String, AllocError>
    ensures { IfOk result (λ text. string_bytes text ≡ start_text start) }
{
    match start {
        Some(start) => format!(in alloc; "the least start that is free is {start}"),
        None => String::from_str(alloc, "no start is free"),
    }
}

/// The same of the signal's size, byte order and multiplexer indicator in the message.
fn start_hint(alloc: Global, message: &Message, take: &TakeBits) -> Result<String, AllocError>
    ensures { IfOk result (λ text. string_bytes text ≡ start_hint message.now take.now) }
{
    let places = message.signals.places(alloc)?;
    let bytes = message.length.bytes();
    let start = least_start(&places, bytes, take.size, take.order, take.mux);
    start_text(alloc, start)
}

/// That the new signal at this start has this bit outside the payload.
fn outside_text(
    alloc: Global,
    message: &Message,
    take: &TakeBits,
    start: u16,
    bit: u32,
) -> Result<String, AllocError>
    ensures { IfOk result
        (λ text. string_bytes text ≡ outside_text message.now take.now start bit) }
{
    let place = place_at(take, start);
    let signal = placed_text(alloc, &take.path.signal, place, take.signed)?;
    let signal = signal.as_str();
    let payload = bytes_text(alloc, message.length.bytes())?;
    let payload = payload.as_str();
    let hint = start_hint(alloc, message, take)?;
    let hint = hint.as_str();
    let name = shown(message.name.as_bytes());
    format!(in alloc; "{signal} has bit {bit}, and {name} has {payload}; {hint}")
}

/// Which bit of the new signal at this start is outside the payload; `None` where each is inside.
pub(crate) fn outside_payload(
    alloc: Global,
    message: &Message,
    take: &TakeBits,
    start: u16,
) -> Result<Option<String>, AllocError>
    ensures { IfOk result (λ text. option_map (λ t. string_bytes t) text
        ≡ outside_reason message.now take.now start) }
{
    let place = place_at(take, start);
    match first_outside(place.layout, message.length.bytes()) {
        Some(bit) => Ok(Some(outside_text(alloc, message, take, start, bit)?)),
        None => Ok(None),
    }
}

/// That the new signal at this start has this bit, and so has this signal of the message.
fn shared_text(
    alloc: Global,
    message: &Message,
    take: &TakeBits,
    start: u16,
    partner: &Signal,
    bit: u32,
) -> Result<String, AllocError>
    ensures { IfOk result
        (λ text. string_bytes text ≡ shared_text message.now take.now start partner.now bit) }
{
    let place = place_at(take, start);
    let signal = placed_text(alloc, &take.path.signal, place, take.signed)?;
    let signal = signal.as_str();
    let partner = signal_text(alloc, partner)?;
    let partner = partner.as_str();
    let hint = start_hint(alloc, message, take)?;
    let hint = hint.as_str();
    let name = shown(message.name.as_bytes());
    format!(in alloc; "{signal} has bit {bit}, which signal {partner} has in {name}; {hint}")
}

/// Which bit this signal of the message has in common with the new one at this start; `None` where they share none.
fn partner_reason(
    alloc: Global,
    message: &Message,
    take: &TakeBits,
    start: u16,
    partner: &Signal,
) -> Result<Option<String>, AllocError>
    ensures { IfOk result (λ text. option_map (λ t. string_bytes t) text
        ≡ partner_reason message.now take.now start partner.now) }
{
    let place = place_at(take, start);
    match first_shared(partner.layout, place.layout, message.length.bytes()) {
        Some(bit) => Ok(Some(shared_text(alloc, message, take, start, partner, bit)?)),
        None => Ok(None),
    }
}

/// Which signal of the message has a bit of the new one at this start, and which bit; `None` where no signal has.
pub(crate) fn shared_bit(
    alloc: Global,
    message: &Message,
    take: &TakeBits,
    start: u16,
) -> Result<Option<String>, AllocError>
    ensures { IfOk result (λ text. option_map (λ t. string_bytes t) text
        ≡ shared_reason message.now take.now start) }
{
    let place = place_at(take, start);
    match first_partner(message.signals.as_slice(), place) {
        Some(partner) => partner_reason(alloc, message, take, start, partner),
        None => Ok(None),
    }
}

/// The longest shorter signal of the same byte order and multiplexer indicator that fits, and its least start.
fn longest_fit(places: &[Place], bytes: u16, take: &TakeBits) -> Option<(u8, u16)> {
    let bits = take.size.bits();
    for less in 1..bits {
        let size = Size::new(bits - less)?;
        if let Some(start) = least_start(places, bytes, size, take.order, take.mux) {
            return Some((size.bits(), start));
        }
    }
    None
}

/// That no start leaves the signals clear, and how many bits would fit.
pub(crate) fn no_room(
    alloc: Global,
    message: &Message,
    take: &TakeBits,
) -> Result<String, AllocError> {
    let places = message.signals.places(alloc)?;
    let fit = longest_fit(&places, message.length.bytes(), take);
    let mark = mark_text(alloc, take.mux)?;
    let mark = mark.as_str();
    let order = take.order.word();
    let bits = take.size.bits();
    let name = shown(message.name.as_bytes());
    match fit {
        Some((fits, start)) => format!(in alloc;
            "{name} has no room for {bits} bits ({order}{mark}); {fits} fit, at start {start}"
        ),
        None => format!(in alloc;
            "{name} has no room for {bits} bits ({order}{mark}), nor for fewer"
        ),
    }
}
