//! Signals and their bits in sentences.
ghost use Rattle.std.specs.Prelude.{◌≡◌, IfOk, find, string_bytes};
ghost use Rattle.std.specs.Option.{option_copied};
ghost use Rattle.dbc_sheet.specs.Signal.{place_of};
ghost use Rattle.office_reasons.specs.Places.{collides_with, layout_text, mark_text, sign_of, signal_text};

use crate::pieces::shown;
use bitlayout::{Layout, Mux, Order, Place, meet, share_bit};
use dbc_sheet::Signal;
use dbc_words::Name;
use std::alloc::{AllocError, Global};

/// The sign that a DBC file has after a layout.
fn sign_of(signed: bool) -> &'static str
    ensures { result.now ≡ sign_of signed }
{
    if signed { "-" } else { "+" }
}

/// The layout as a DBC file has it: `8|16@1+`.
fn layout_text(alloc: Global, layout: Layout, signed: bool) -> Result<String, AllocError>
    ensures { IfOk result (λ text. string_bytes text ≡ layout_text layout signed) }
{
    let start = layout.start;
    let size = layout.size.bits();
    let order = layout.order.number();
    let sign = sign_of(signed);
    format!(in alloc; "{start}|{size}@{order}{sign}")
}

/// The multiplexer indicator after a space, if there is one.
pub(crate) fn mark_text(alloc: Global, mux: Mux) -> Result<String, AllocError>
    ensures { IfOk result (λ text. string_bytes text ≡ mark_text mux) }
{
    match mux {
        Mux::Always => Ok(String::new(alloc)),
        _ => format!(in alloc; " {}", mux.indicator().as_str()),
    }
}

/// A signal of this name at this place: `OilA (0|8@1+)`, or `OilA m1 (0|8@1+)`.
pub(crate) fn placed_text(
    alloc: Global,
    name: &Name,
    place: Place,
    signed: bool,
) -> Result<String, AllocError>
    ensures { IfOk result (λ text. string_bytes text ≡ signal_text name.now place signed) }
{
    let mark = mark_text(alloc, place.mux)?;
    let mark = mark.as_str();
    let layout = layout_text(alloc, place.layout, signed)?;
    let layout = layout.as_str();
    let name = shown(name.as_bytes());
    format!(in alloc; "{name}{mark} ({layout})")
}

/// The same of a signal of a message.
pub(crate) fn signal_text(alloc: Global, signal: &Signal) -> Result<String, AllocError>
    ensures { IfOk result (λ text. string_bytes text
        ≡ signal_text signal.now.name (place_of signal.now) signal.now.signed) }
{
    placed_text(alloc, &signal.name, signal.place(), signal.signed)
}

/// Whether the signal has a bit of the place, and both are present for some value of the multiplexor.
fn collides_with(place: Place, signal: &Signal) -> bool
    ensures { result ≡ collides_with place signal.now }
{
    meet(signal.mux, place.mux) && share_bit(signal.layout, place.layout)
}

/// The first of the signals that has a bit of the place, where both are present for some value of the multiplexor.
pub(crate) fn first_partner(signals: &[Signal], place: Place) -> Option<&Signal>
    ensures { option_copied result ≡ find (collides_with place) signals.now }
{
    signals.iter().find(|signal| collides_with(place, signal))
}
