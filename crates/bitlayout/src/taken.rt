//! The positions of the places of a list, as masks.
ghost use Rattle.std.specs.Prelude.{◌≡◌, ℕ, ◌+◌, ◌<◌, ◌↔◌, ◌++◌, ◌∷◌, [], true, Some, IsTrue, IfSome, List};
ghost use Rattle.bitlayout.specs.declared.layout.Layout.{Layout};
ghost use Rattle.bitlayout.specs.declared.mask.TheConstants.{MASK_BYTES};
ghost use Rattle.bitlayout.specs.declared.place.Mux.TheVariants.{Under};
ghost use Rattle.bitlayout.specs.declared.place.Place.{Place};
ghost use Rattle.bitlayout.specs.Bits.{IsInside};
ghost use Rattle.bitlayout.specs.Taken.{IsStripOf, CoversMore, IsTakenBy, Collides, is_present_at};

use crate::mask::{Mask, Strip, strip_of};
use crate::place::{Mux, Place, meet};

/// The positions of the places of a list: of all, and of those that a new place would meet.
#[derive(Drop)]
pub(crate) struct Taken {
    /// The positions of all places.
    all: Mask,
    /// The positions of the places that are present at every value of the multiplexor.
    always: Mask,
    /// The value of the multiplexor that `present` is for, once there is one.
    value: Option<u32>,
    /// The positions of the places that are present at `value`.
    present: Mask,
    /// Each value that a place depends on is below this number.
    value_end: u64,
}

/// Whether a signal is present when the multiplexor has the value, if there is a value.
fn is_present_at(mux: Mux, value: Option<u32>) -> bool
    ensures { IfSome value (λ v. result ≡ is_present_at v mux) }
{
    match value {
        Some(value) => meet(mux, Mux::Under(value)),
        None => false,
    }
}

/// Whether a signal depends on exactly this value of the multiplexor.
fn is_at(mux: Mux, value: u32) -> bool
    ensures { IsTrue result ↔ (mux ≡ Under value) }
{
    match mux {
        Mux::Under(at) => at == value,
        Mux::Always | Mux::Multiplexor => false,
    }
}

/// The number after the value that a signal depends on, or 0 if it depends on none.
fn value_end(mux: Mux) -> u64
    ensures { (value : ℕ) → mux ≡ Under value → value < result }
{
    match mux {
        Mux::Under(value) => u64::from(value) + 1,
        Mux::Always | Mux::Multiplexor => 0,
    }
}

/// Adds the positions of the places that depend on this value of the multiplexor.
fn add_under(mask: &mut Mask, places: &[Place], value: u32)
    ensures { CoversMore mask.old mask.new value places.now }
{
    for place in places {
        if is_at(place.mux, value) {
            mask.add(strip_of(place.layout));
        }
    }
}

impl Taken {
    /// The masks of a list without places.
    pub(crate) fn none() -> Taken
        ensures { IsTakenBy result [] }
    {
        Taken {
            all: Mask::empty(),
            always: Mask::empty(),
            value: None,
            present: Mask::empty(),
            value_end: 0,
        }
    }

    /// Adds one more place, of this indicator and these bits.
    pub(crate) fn add(&mut self, mux: Mux, strip: Strip)
        requires { strip.word < 1024 }
        ensures { (places : List Place) (layout : Layout) → IsTakenBy self.old places
            → IsStripOf strip layout
            → IsTakenBy self.new (places ++ record { layout = layout; mux = mux } ∷ []) }
    {
        self.all.add(strip);
        self.always.add_if(strip, !mux.is_under());
        self.present.add_if(strip, is_present_at(mux, self.value));
        self.value_end = self.value_end.max(value_end(mux));
    }

    /// Makes `present` the mask of this value of the multiplexor.
    fn turn_to(&mut self, places: &[Place], value: u32)
        requires { IsTakenBy self.old places.now }
        ensures taken { IsTakenBy self.new places.now }
        ensures value { self.new.value ≡ Some value }
    {
        if self.value != Some(value) {
            self.present = self.always;
            // No place depends on a value from `value_end` on.
            if u64::from(value) < self.value_end {
                add_under(&mut self.present, places, value);
            }
            self.value = Some(value);
        }
    }

    /// Whether a signal, whose bits are all below the end of the masks, collides with one of the places. Only where it
    /// touches places that depend on a value, and may be present with it, is `present` needed.
    pub(crate) fn touches(&mut self, places: &[Place], mux: Mux, strip: Strip) -> bool
        requires word { strip.word < 1024 }
        requires taken { IsTakenBy self.old places.now }
        ensures taken { IsTakenBy self.new places.now }
        ensures collides { (layout : Layout) → IsStripOf strip layout → IsInside layout MASK_BYTES
            → IsTrue result ↔ Collides places.now mux layout }
    {
        if !self.all.touches(strip) {
            return false;
        }
        let Mux::Under(value) = mux else {
            return true;
        };
        if self.always.touches(strip) {
            return true;
        }
        self.turn_to(places, value);
        self.present.touches(strip)
    }
}
