//! The first reason why the signals of a message do not fit together.
ghost use Rattle.std.specs.Prelude.{◌≡◌, ◌<◌, ◌↔◌, IfSome, IsNone, IsTrue, position};
ghost use Rattle.bitlayout.specs.Clash.{IsFirstClash, clash_after, first_clash_among, first_clash_of, collide};
ghost use Rattle.bitlayout.specs.Clash.{has_multiplexor};
ghost use Rattle.bitlayout.specs.Clear.{IsClear};
ghost use Rattle.bitlayout.specs.Taken.{IsStripOf, IsTakenBy, Collides};

use crate::bits::{inside, share_bit};
use crate::interval::ranks;
use crate::layout::Order;
use crate::mask::{MASK_BYTES, Strip, strip_of};
use crate::place::{Mux, Place, meet};
use crate::taken::Taken;

/// Lists of up to this many places are compared in pairs.
const FEW_PLACES: usize = 8;

/// Why places do not fit together in one message. The numbers are indices in the list of places.
#[derive(Clone, Copy, Debug, PartialEq, Eq)]
pub enum Clash {
    /// A bit of this place is past the end of the payload.
    Outside(usize),
    /// This place is a multiplexor, and an earlier one is too.
    TwoMultiplexors(usize),
    /// This place depends on a value of the multiplexor, and no place is the multiplexor.
    NoMultiplexor(usize),
    /// Two places that are both present for some value of the multiplexor share a bit.
    Overlap {
        /// The index of the first of them.
        earlier: usize,
        /// The index of the second.
        later: usize,
    },
}

/// Whether one of the places is the multiplexor.
pub(crate) fn any_multiplexor(places: &[Place]) -> bool
    ensures { result ≡ has_multiplexor places.now }
{
    places.iter().any(|place| place.mux.is_multiplexor())
}

/// Whether both places are present for some value of the multiplexor and share a bit.
fn collides(a: Place, b: Place) -> bool
    ensures { result ≡ collide a b }
{
    meet(a.mux, b.mux) && share_bit(a.layout, b.layout)
}

/// The index of the first of the places that collides with `place`.
fn first_partner(places: &[Place], place: Place) -> Option<usize>
    ensures { result ≡ position (λ other. collide other place) places.now }
{
    places.iter().position(|other| collides(*other, place))
}

/// `fault_after` for a place that collides with none of the earlier ones.
#[tactic(auto, unfolding(crate::specs::Clash::clash_after))]
pub(crate) fn fault_alone(
    earlier: &[Place],
    place: Place,
    length: u16,
    multiplexed: bool,
) -> Option<Clash>
    requires { Collides earlier.now place.mux place.layout → ⊥ }
    ensures { result ≡ clash_after length multiplexed earlier.now place }
{
    let index = earlier.len();
    if !inside(place.layout, length) {
        Some(Clash::Outside(index))
    } else if place.mux.is_multiplexor() && any_multiplexor(earlier) {
        Some(Clash::TwoMultiplexors(index))
    } else if place.mux.is_under() && !multiplexed {
        Some(Clash::NoMultiplexor(index))
    } else {
        None
    }
}

/// The first clash of a place that comes after `earlier`. `multiplexed` says whether the list has a multiplexor.
#[tactic(auto, unfolding(crate::specs::Clash::clash_after))]
fn fault_after(earlier: &[Place], place: Place, length: u16, multiplexed: bool) -> Option<Clash>
    ensures { result ≡ clash_after length multiplexed earlier.now place }
{
    let index = earlier.len();
    if !inside(place.layout, length) {
        Some(Clash::Outside(index))
    } else if place.mux.is_multiplexor() && any_multiplexor(earlier) {
        Some(Clash::TwoMultiplexors(index))
    } else if place.mux.is_under() && !multiplexed {
        Some(Clash::NoMultiplexor(index))
    } else {
        match first_partner(earlier, place) {
            Some(partner) => Some(Clash::Overlap {
                earlier: partner,
                later: index,
            }),
            None => None,
        }
    }
}

/// Whether `place`, whose bits are `strip`, collides with one of the places, whose masks are `taken`.
pub(crate) fn collides_beside(
    taken: &mut Taken,
    places: &[Place],
    place: &Place,
    strip: Strip,
) -> bool
    requires word { strip.word < 1024 }
    requires strip { IsStripOf strip place.now.layout }
    requires taken { IsTakenBy taken.old places.now }
    ensures taken { IsTakenBy taken.new places.now }
    ensures collides { IsTrue result ↔ Collides places.now place.now.mux place.now.layout }
{
    if inside(place.layout, MASK_BYTES) {
        taken.touches(places, place.mux, strip)
    } else {
        first_partner(places, *place).is_some()
    }
}

/// `fault_after` by the masks of the earlier places, for a place whose bits are `strip`.
#[tactic(auto, unfolding(crate::specs::Clash::clash_after))]
fn fault_beside(
    taken: &mut Taken,
    earlier: &[Place],
    place: Place,
    strip: Strip,
    length: u16,
    multiplexed: bool,
) -> Option<Clash>
    requires word { strip.word < 1024 }
    requires strip { IsStripOf strip place.layout }
    requires taken { IsTakenBy taken.old earlier.now }
    ensures taken { IsTakenBy taken.new earlier.now }
    ensures clash { result ≡ clash_after length multiplexed earlier.now place }
{
    if collides_beside(taken, earlier, &place, strip) {
        fault_after(earlier, place, length, multiplexed)
    } else {
        fault_alone(earlier, place, length, multiplexed)
    }
}

/// `first_clash_where`, by comparing each two places.
fn first_clash_in_pairs(places: &[Place], length: u16, multiplexed: bool) -> Option<Clash>
    ensures { result ≡ first_clash_among length multiplexed places.now }
{
    for (index, place) in places.iter().enumerate() {
        let fault = fault_after(&places[..index], *place, length, multiplexed);
        if fault.is_some() {
            return fault;
        }
    }
    None
}

/// `first_clash_where`, by comparing each place with the masks of the earlier ones.
fn first_clash_by_masks(places: &[Place], length: u16, multiplexed: bool) -> Option<Clash>
    ensures { result ≡ first_clash_among length multiplexed places.now }
{
    let mut taken = Taken::none();
    for (index, place) in places.iter().enumerate() {
        let strip = strip_of(place.layout);
        let fault = fault_beside(
            &mut taken,
            &places[..index],
            *place,
            strip,
            length,
            multiplexed,
        );
        if fault.is_some() {
            return fault;
        }
        taken.add(place.mux, strip);
    }
    None
}

/// The first clash of the places. `multiplexed` says whether the list has a multiplexor.
pub(crate) fn first_clash_where(places: &[Place], length: u16, multiplexed: bool) -> Option<Clash>
    ensures { result ≡ first_clash_among length multiplexed places.now }
{
    // A few pairs take less time to compare than the masks take to clear.
    if places.len() <= FEW_PLACES {
        first_clash_in_pairs(places, length, multiplexed)
    } else {
        first_clash_by_masks(places, length, multiplexed)
    }
}

/// Whether each place is present in every message, has this byte order and begins where the previous one ends or
/// later, and the last one ends in a payload of `length` bytes. Such a list is clear; others may be too.
fn are_in_turn(places: &[Place], order: Order, length: u16) -> bool
    ensures { IsTrue result → IsClear places.now length }
{
    let mut end = 0;
    for place in places {
        let ranks = ranks(place.layout);
        if !matches!(place.mux, Mux::Always) || place.layout.order != order || ranks.first < end {
            return false;
        }
        end = ranks.end;
    }
    end <= 8 * u32::from(length)
}

/// The first reason why the places do not fit together in a message of `length` bytes, or `None` where the
/// list is clear. It is the clash of the place at the least index; of that place the first of
/// [`Clash::Outside`], [`Clash::TwoMultiplexors`], [`Clash::NoMultiplexor`] and [`Clash::Overlap`]; and of
/// overlaps the one with the earliest place.
pub fn first_clash(places: &[Place], length: u16) -> Option<Clash>
    ensures clear { IsNone result ↔ IsClear places.now length }
    ensures first { IfSome result (IsFirstClash places.now length) }
    ensures computed { result ≡ first_clash_of places.now length }
{
    // Most messages list their signals one after another, and then no two need to be compared.
    if let Some(first) = places.first()
        && are_in_turn(places, first.layout.order, length)
    {
        return None;
    }
    first_clash_where(places, length, any_multiplexor(places))
}
