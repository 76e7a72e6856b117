//! Room for one more signal.
ghost use Rattle.std.specs.Prelude.{◌≡◌, ◌+◌, ◌*◌, ◌<◌, ◌||◌, min, IfSome, IfNone, is_none};
ghost use Rattle.bitlayout.specs.Clash.{has_multiplexor, clash_after};
ghost use Rattle.bitlayout.specs.Limits.{start_limit};
ghost use Rattle.bitlayout.specs.Mux.{is_multiplexor};
ghost use Rattle.bitlayout.specs.Taken.{IsTakenBy};
ghost use Rattle.bitlayout.specs.Start.{HasNoStart, IsLeastStart, least_start_of};

use crate::bits::inside;
use crate::clash::{any_multiplexor, collides_beside, fault_alone, first_clash_where};
use crate::layout::{GREATEST_START, Layout, Order, Size};
use crate::mask::strip_of;
use crate::place::{Mux, Place};
use crate::taken::Taken;

/// The least start, 0 to 65535, from which one more signal leaves the list clear in a message of `length`
/// bytes: [`first_clash`](crate::first_clash) of the places with the signal's added last is `None`. The
/// answer is `None` where there is no such start.
pub fn least_start(places: &[Place], length: u16, size: Size, order: Order, mux: Mux) -> Option<u16>
    ensures least { IfSome result (IsLeastStart places.now length size order mux) }
    ensures none { IfNone result (HasNoStart places.now length size order mux) }
    ensures computed { result ≡ least_start_of places.now length size order mux }
{
    let multiplexed = mux.is_multiplexor() || any_multiplexor(places);
    least_start_where(places, length, size, order, mux, multiplexed)
}

/// The masks of the places.
fn taken_by(places: &[Place]) -> Taken
    ensures { IsTakenBy result places.now }
{
    let mut taken = Taken::none();
    for place in places {
        taken.add(place.mux, strip_of(place.layout));
    }
    taken
}

/// Whether a place has no clash after the others, whose masks are `taken`. `multiplexed` says whether the list with the
/// added place has a multiplexor.
#[tactic(auto, unfolding(crate::specs::Clash::clash_after))]
fn fits_beside(
    taken: &mut Taken,
    places: &[Place],
    place: Place,
    length: u16,
    multiplexed: bool,
) -> bool
    requires { IsTakenBy taken.old places.now }
    ensures taken { IsTakenBy taken.new places.now }
    ensures fits { result ≡ is_none (clash_after length multiplexed places.now place) }
{
    if !inside(place.layout, length) {
        return false;
    }
    if collides_beside(taken, places, &place, strip_of(place.layout)) {
        false
    } else {
        fault_alone(places, place, length, multiplexed).is_none()
    }
}

/// `least_start`, where `multiplexed` says whether the list with the added place has a multiplexor.
fn least_start_where(
    places: &[Place],
    length: u16,
    size: Size,
    order: Order,
    mux: Mux,
    multiplexed: bool,
) -> Option<u16>
    requires { multiplexed ≡ (is_multiplexor mux || has_multiplexor places.now) }
    ensures least { IfSome result (IsLeastStart places.now length size order mux) }
    ensures none { IfNone result (HasNoStart places.now length size order mux) }
    ensures payload { IfSome result (λ start. start < min (8 * length) (start_limit + 1)) }
{
    let positions = 8 * u32::from(length);
    if u32::from(size.bits()) > positions {
        return None;
    }
    if first_clash_where(places, length, multiplexed).is_some() {
        return None;
    }
    let mut taken = taken_by(places);
    for start in 0..positions.min(u32::from(GREATEST_START) + 1) {
        let start = start as u16;
        let layout = Layout { start, size, order };
        let place = Place { layout, mux };
        if fits_beside(&mut taken, places, place, length, multiplexed) {
            return Some(start);
        }
    }
    None
}
