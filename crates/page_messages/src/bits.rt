//! Which signals hold which bits of a payload.
ghost use Rattle.std.specs.Prelude.{◌≡◌, ◌*◌, ◌^◌, ◌<◌, ◌≤◌, ◌-◌, ◌++◌, IfOk, OnOk, filter, map};
ghost use Rattle.std.specs.List.{flat_map, list_all, range_with_len, zip};
ghost use Rattle.std.specs.List.Sorted.{IsNonDecreasingBy, IsPermutation};
ghost use Rattle.bitlayout.specs.Limits.{size_limit};
ghost use Rattle.page_messages.specs.Bits.{bit_at, held_of, is_held, raw_bit, start_of_byte, turned};
ghost use Rattle.page_messages.specs.Layouts.{AreHeldBy, are_alike, bits_at, is_same_signal, place_of};

use crate::shown::Shown;
use bitlayout::{Layout, Order, SIZE_LIMIT, has_bit};
use std::alloc::{AllocError, Global};

/// All bits of a signal are in so many places, from the first place of the byte in which it starts: it has at most 64, so
/// they are in nine bytes.
const REACH: u32 = 72;

/// A bit of a payload that a signal holds.
#[derive(Clone, Copy)]
pub(crate) struct Held<'a> {
    /// Its place in reading order: bit 7 of byte 0 is at 0, bit 0 of byte 1 is at 15.
    pub(crate) place: u32,
    /// Which bit of the signal's raw value it is.
    pub(crate) raw: u32,
    /// The signal.
    pub(crate) by: Shown<'a>,
}

impl Held<'_> {
    /// Whether the signal has it.
    fn is_held(&self) -> bool
        ensures { result ≡ is_held self.now }
    {
        has_bit(self.by.signal.layout, turned(self.place))
    }
}

/// The place in reading order of a position, and the position of a place.
fn turned(position: u32) -> u32
    ensures { result ≡ turned position }
{
    8 * (position / 8) + (7 - position % 8)
}

/// Which bit of the raw value is at a place that the signal has.
fn raw_bit(layout: Layout, place: u32) -> u32
    ensures { result ≡ raw_bit layout place }
{
    let start = u32::from(layout.start);
    match layout.order {
        Order::Intel => turned(place).saturating_sub(start),
        Order::Motorola => {
            let back = place.saturating_sub(turned(start));
            u32::from(layout.size.bits() - 1).saturating_sub(back)
        }
    }
}

/// The first place of the byte in which the signal starts.
fn first_place(layout: Layout) -> u32
    ensures value { result ≡ start_of_byte layout.start }
    ensures small { result < 2 ^ 16 }
{
    8 * (u32::from(layout.start) / 8)
}

/// The bit at a place, if the signal has it.
fn bit_at<'a>(by: Shown<'a>, place: u32) -> Held<'a>
    ensures { result ≡ bit_at by.entry place }
{
    let raw = raw_bit(by.signal.layout, place);
    Held { place, raw, by }
}

/// Adds the bits of a signal that have places from the first one up to the end.
fn add_between<'a>(
    held: &mut Vec<Held<'a>>,
    by: Shown<'a>,
    first: u32,
    end: u32,
) -> Result<(), AllocError>
    requires { first ≤ end }
    ensures { OnOk result (held.new.items ≡ held.old.items
        ++ filter is_held (map (bit_at by.entry) (range_with_len first (end - first)))) }
{
    for place in first..end {
        let bit = bit_at(by, place);
        if bit.is_held() {
            held.push(bit)?;
        }
    }
    Ok(())
}

/// Adds the bits of a signal that have places before the end.
fn add_held<'a>(held: &mut Vec<Held<'a>>, by: Shown<'a>, end: u32) -> Result<(), AllocError>
    ensures held { OnOk result (held.new.items ≡ held.old.items ++ held_of end by.entry) }
    ensures few { by.entry.signal.now.layout.size ≤ size_limit }
{
    let size = by.signal.layout.size.bits();
    prove!(size <= SIZE_LIMIT);
    let first = first_place(by.signal.layout);
    let last = end.min(first + REACH).max(first);
    add_between(held, by, first, last)
}

/// The bits of a payload of this length that the signals hold, in reading order; where several signals hold one, in the
/// order of the signals. The error is out of memory.
pub(crate) fn held_bits<'a>(
    alloc: Global,
    signals: &[Shown<'a>],
    length: u16,
) -> Result<Vec<Held<'a>>, AllocError>
    ensures each { IfOk result
        (λ held. IsPermutation (flat_map (held_of (8 * length)) signals.now) held.items) }
    ensures held { IfOk result (λ held. AreHeldBy signals.now length held.items) }
{
    let end = 8 * u32::from(length);
    let mut held = Vec::new(alloc);
    for by in signals {
        add_held(&mut held, *by, end)?;
    }
    held.sort_by_key(|bit| bit.place)?;
    Ok(held)
}

/// The bits at a place, of bits in reading order.
pub(crate) fn held_at<'a, 'b>(held: &'b [Held<'a>], place: u32) -> &'b [Held<'a>]
    ensures { IsNonDecreasingBy place_of held.now → result.now ≡ bits_at held.now place }
{
    let before = held.partition_point(|bit| bit.place < place);
    let (_, from) = held.split_at(before);
    let count = from.partition_point(|bit| bit.place <= place);
    let (at, _) = from.split_at(count);
    at
}

/// Whether the bits are of the same signals, as far as there are as many.
fn have_same_signals(a: &[Held<'_>], b: &[Held<'_>]) -> bool
    ensures { result ≡ list_all is_same_signal (zip a.now b.now) }
{
    a.iter().zip(b).all(|(x, y)| x.by.index == y.by.index)
}

/// Whether the same signals hold both places.
pub(crate) fn are_alike(a: &[Held<'_>], b: &[Held<'_>]) -> bool
    ensures { result ≡ are_alike a.now b.now }
{
    a.len() == b.len() && have_same_signals(a, b)
}
