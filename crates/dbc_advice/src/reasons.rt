//! Why the signals of a message do not fit together: all reasons, not only the first.
ghost use Rattle.std.specs.Prelude.{◌≡◌, ◌≤◌, IfOk, length};
ghost use Rattle.std.specs.Option.{option_to_list};
ghost use Rattle.bitlayout.specs.Clash.{collide, has_multiplexor};
ghost use Rattle.dbc_words.specs.Limits.{length_limit};
ghost use Rattle.dbc_advice.specs.Reasons.{first_outside, first_shared, outside_reason, overlap_reasons, reasons_at};
ghost use Rattle.dbc_advice.specs.Reasons.{unmultiplexed_reason, AreReasons};

use bitlayout::{Clash, Layout, Place, has_bit, inside, meet, share_bit};
use std::alloc::{AllocError, Global};

/// A reason why the signals of a message do not fit together.
#[derive(Clone, Copy)]
pub(crate) struct ClashReason {
    /// The clash, with the indices of its signals.
    pub clash: Clash,
    /// The position of the least bit of the payload that both signals have, or of the least one past it that the signal
    /// has; `None` where it isn't about a bit, or the signals share bits past the payload alone.
    pub bit: Option<u32>,
}

/// Positions of bits are below this.
const POSITIONS_END: u32 = 65_664;

/// The least position in a payload of `bytes` bytes that both signals have.
pub fn first_shared(a: Layout, b: Layout, bytes: u16) -> Option<u32>
    ensures { result ≡ first_shared bytes a b }
{
    (0..8 * u32::from(bytes)).find(|q| has_bit(a, *q) && has_bit(b, *q))
}

/// The least position past a payload of `bytes` bytes that the signal has.
pub fn first_outside(layout: Layout, bytes: u16) -> Option<u32>
    requires { bytes ≤ length_limit }
    ensures { result ≡ first_outside bytes layout }
{
    (8 * u32::from(bytes)..POSITIONS_END).find(|q| has_bit(layout, *q))
}

/// Whether both are present for some value of the multiplexor, and they share a bit.
fn collides(a: Place, b: Place) -> bool
    ensures { result ≡ collide a b }
{
    meet(a.mux, b.mux) && share_bit(a.layout, b.layout)
}

/// Whether one of the places is the multiplexor.
fn any_multiplexor(places: &[Place]) -> bool
    ensures { result ≡ has_multiplexor places.now }
{
    places.iter().any(|place| place.mux.is_multiplexor())
}

/// A reason for each of the earlier places with which the place at `index` collides.
fn overlap_reasons(
    alloc: Global,
    earlier: &[Place],
    index: usize,
    place: &Place,
    bytes: u16,
) -> Result<Vec<ClashReason>, AllocError>
    ensures { IfOk result (λ reasons. reasons.items ≡ overlap_reasons bytes earlier.now index
        place.now) }
{
    let mut reasons = Vec::new(alloc);
    for (partner, other) in earlier.iter().enumerate() {
        if collides(*other, *place) {
            let clash = Clash::Overlap {
                earlier: partner,
                later: index,
            };
            let bit = first_shared(other.layout, place.layout, bytes);
            reasons.push(ClashReason { clash, bit })?;
        }
    }
    Ok(reasons)
}

/// That a bit of the place at `index` is outside.
fn outside_reason(place: &Place, index: usize, bytes: u16) -> Option<ClashReason>
    requires { bytes ≤ length_limit }
    ensures { option_to_list result ≡ outside_reason bytes index place.now }
{
    if inside(place.layout, bytes) {
        return None;
    }
    Some(ClashReason {
        clash: Clash::Outside(index),
        bit: first_outside(place.layout, bytes),
    })
}

/// That the place at `index` depends on a multiplexor, and there is none.
fn unmultiplexed_reason(place: &Place, index: usize, multiplexed: bool) -> Option<ClashReason>
    ensures { option_to_list result ≡ unmultiplexed_reason multiplexed index place.now }
{
    if place.mux.is_under() && !multiplexed {
        Some(ClashReason {
            clash: Clash::NoMultiplexor(index),
            bit: None,
        })
    } else {
        None
    }
}

/// The reasons of the place at `index`. `multiplexed` says whether one of the places is the multiplexor.
fn reasons_at(
    alloc: Global,
    places: &[Place],
    index: usize,
    place: &Place,
    bytes: u16,
    multiplexed: bool,
) -> Result<Vec<ClashReason>, AllocError>
    requires index { index ≤ length places.now }
    requires bytes { bytes ≤ length_limit }
    ensures { IfOk result (λ reasons. multiplexed ≡ has_multiplexor places.now
        → reasons.items ≡ reasons_at bytes places.now (index, place.now)) }
{
    let mut reasons = Vec::new(alloc);
    match outside_reason(place, index, bytes) {
        Some(reason) => reasons.push(reason)?,
        None => {}
    }
    match unmultiplexed_reason(place, index, multiplexed) {
        Some(reason) => reasons.push(reason)?,
        None => {}
    }
    let overlaps = overlap_reasons(alloc, &places[..index], index, place, bytes)?;
    reasons.extend_from_slice(&overlaps)?;
    Ok(reasons)
}

/// Above how many reasons no further signal of a message is looked at.
pub(crate) const REASONS_REPORTED: usize = 100;

/// The reasons why the places do not fit together in a message of `bytes` bytes: of each place, in order, that a bit is
/// outside, that there is no multiplexor, and each earlier place with which it shares a bit. After more than
/// [`REASONS_REPORTED`] no further place is looked at. The error is out of memory.
pub(crate) fn reasons_of(
    alloc: Global,
    places: &[Place],
    bytes: u16,
) -> Result<Vec<ClashReason>, AllocError>
    requires { bytes ≤ length_limit }
    ensures { IfOk result (λ reasons. AreReasons bytes places.now reasons.items) }
{
    let mut reasons = Vec::new(alloc);
    let multiplexed = any_multiplexor(places);
    for (index, place) in places.iter().enumerate() {
        if reasons.len() > REASONS_REPORTED {
            return Ok(reasons);
        }
        let more = reasons_at(alloc, places, index, place, bytes, multiplexed)?;
        reasons.extend_from_slice(&more)?;
    }
    Ok(reasons)
}
