//! Where a new signal starts.
//!
//! [`bitlayout`] searches by masks, and passes over all earlier places where the value of the multiplexor falls from
//! one place to the next. So the places are sorted by value first: the order makes no difference to whether they are
//! clear.
ghost use Rattle.std.specs.Prelude.{◌≡◌, ◌++◌, ◌∷◌, [], IfOk, None, Some, is_some};
ghost use Rattle.std.specs.List.Sorted.{IsNonDecreasingBy, IsPermutation};
ghost use Rattle.bitlayout.specs.Clash.{first_clash_of};
ghost use Rattle.bitlayout.specs.Start.{least_start_of};
ghost use Rattle.dbc_sheet.specs.Signals.{places_of};
ghost use Rattle.office_rules.specs.Signals.{place_at, start_given, start_tests};
ghost use Rattle.office_signals.specs.Given.{IsGiven};
ghost use Rattle.office_signals.specs.Sorted.{mux_rank, place_rank};

use bitlayout::{Layout, Mux, Place, first_clash, inside, least_start};
use dbc_sheet::{Message, Signals};
use office_types::{Refusal, TakeBits};
use std::alloc::{AllocError, Global};

/// The place of the signal from a start.
pub(crate) fn place_at(command: &TakeBits, start: u16) -> Place
    ensures { result ≡ place_at command.now start }
{
    Place {
        layout: Layout {
            start,
            size: command.size,
            order: command.order,
        },
        mux: command.mux,
    }
}

/// What places are sorted by: 0 where the place is present in every message, else one more than its value.
fn mux_rank(mux: Mux) -> u64
    ensures { result ≡ mux_rank mux }
{
    match mux {
        Mux::Always | Mux::Multiplexor => 0,
        Mux::Under(value) => u64::from(value) + 1,
    }
}

/// The places of the signals, those that are present in every message first and the others by their value. The error
/// is out of memory.
fn sorted_places(alloc: Global, signals: &Signals) -> Result<Vec<Place>, AllocError>
    ensures sorted { IfOk result (λ v. IsNonDecreasingBy place_rank v.items) }
    ensures same { IfOk result (λ v. IsPermutation (places_of signals.now) v.items) }
{
    let mut places = signals.places(alloc)?;
    places.sort_unstable_by_key(|place| mux_rank(place.mux));
    Ok(places)
}

/// Whether the message has a clash with one more place. The error is out of memory.
fn clashes(alloc: Global, message: &Message, place: Place) -> Result<bool, AllocError>
    ensures { IfOk result (λ clash. clash ≡ is_some
        (first_clash_of (places_of message.now.signals ++ place ∷ []) message.now.length)) }
{
    let mut places = sorted_places(alloc, &message.signals)?;
    places.push(place)?;
    Ok(first_clash(&places, message.length.bytes()).is_some())
}

/// The least start from which the signal leaves the message clear, if there is one. The error is out of memory.
fn least_start_in(
    alloc: Global,
    message: &Message,
    command: &TakeBits,
) -> Result<Option<u16>, AllocError>
    ensures { IfOk result (λ start. start ≡ least_start_of
        (places_of message.now.signals) message.now.length command.now.size command.now.order
        command.now.mux) }
{
    let places = sorted_places(alloc, &message.signals)?;
    let length = message.length.bytes();
    Ok(least_start(&places, length, command.size, command.order, command.mux))
}

/// The start that is wanted, or why the signal can't have it. The error is out of memory.
fn wanted_start(
    alloc: Global,
    message: &Message,
    command: &TakeBits,
    start: u16,
) -> Result<Result<u16, Refusal>, AllocError>
    requires { command.now.start ≡ Some start }
    ensures { IfOk result (IsGiven
        (start_tests (places_of message.now.signals) message.now.length command.now)
        (start_given (places_of message.now.signals) message.now.length command.now)) }
{
    let place = place_at(command, start);
    if !inside(place.layout, message.length.bytes()) {
        return Ok(Err(Refusal::OutsidePayload));
    }
    if clashes(alloc, message, place)? {
        Ok(Err(Refusal::Clash))
    } else {
        Ok(Ok(start))
    }
}

/// The least start from which the signal leaves the message clear, or that there is none. The error is out of memory.
fn free_start(
    alloc: Global,
    message: &Message,
    command: &TakeBits,
) -> Result<Result<u16, Refusal>, AllocError>
    requires { command.now.start ≡ None }
    ensures { IfOk result (IsGiven
        (start_tests (places_of message.now.signals) message.now.length command.now)
        (start_given (places_of message.now.signals) message.now.length command.now)) }
{
    match least_start_in(alloc, message, command)? {
        Some(start) => Ok(Ok(start)),
        None => Ok(Err(Refusal::NoRoom)),
    }
}

/// The start that the signal gets, or why it gets none. The error is out of memory.
pub(crate) fn start_for(
    alloc: Global,
    message: &Message,
    command: &TakeBits,
) -> Result<Result<u16, Refusal>, AllocError>
    ensures { IfOk result (IsGiven
        (start_tests (places_of message.now.signals) message.now.length command.now)
        (start_given (places_of message.now.signals) message.now.length command.now)) }
{
    match command.start {
        Some(start) => wanted_start(alloc, message, command, start),
        None => free_start(alloc, message, command),
    }
}
