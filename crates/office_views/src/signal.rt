//! The signals of a chart.
ghost use Rattle.std.specs.Prelude.{◌≡◌, ◌↔◌, IfOk, IsNone};
ghost use Rattle.bitlayout.specs.Clear.{IsClear};
ghost use Rattle.office_views.specs.Text.{clash_of, places_of};

use bitlayout::{Clash, Place, first_clash};
use dbc_words::Name;
use std::alloc::{AllocError, Global};

/// A signal as a chart shows it.
#[derive(Drop)]
pub struct ChartSignal {
    /// Its name. Several signals of a chart may have the same name.
    pub name: Name,
    /// Where it is in the payload, and when it is present.
    pub place: Place,
}

/// The signals' places, in order.
fn places_of(alloc: Global, signals: &[ChartSignal]) -> Result<Vec<Place>, AllocError>
    ensures { IfOk result (λ places. places.items ≡ places_of signals.now) }
{
    let mut places = Vec::new(alloc);
    for signal in signals {
        places.push(signal.place)?;
    }
    Ok(places)
}

/// The first reason why the signals do not fit together in a message of `length` bytes, with their indices, or
/// `None` where they are clear. The error is out of memory.
pub fn first_clash_of(
    alloc: Global,
    length: u16,
    signals: &[ChartSignal],
) -> Result<Option<Clash>, AllocError>
    ensures clash { IfOk result (λ clash. clash ≡ clash_of length signals.now) }
    ensures clear { IfOk result (λ clash. IsNone clash ↔ IsClear (places_of signals.now) length) }
{
    let places = places_of(alloc, signals)?;
    Ok(first_clash(&places, length))
}
