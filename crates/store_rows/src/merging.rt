//! The signals of a message, of their rows, their receivers' and their value texts'.
ghost use Rattle.std.specs.Prelude.{◌≡◌, ◌≤◌, ℕ, List, IfOk, map, length};
ghost use Rattle.std.specs.List.{prefix_len};
ghost use Rattle.dbc_sheet.specs.declared.signal.Signal.{Signal as SignalModel};
ghost use Rattle.dbc_sheet.specs.declared.value_texts.ValueText.{ValueText as Described};
ghost use Rattle.store_rows.specs.Listed.{AreShown};
ghost use Rattle.store_rows.specs.Live.{parts_of};
ghost use Rattle.store_rows.specs.SignalShowing.{has_place, PlacesAscend, ShowsPart, ShowsPlaced, ShowsReceiver};
ghost use Rattle.store_rows.specs.SignalShowing.{ShowsValueText};

use crate::columns::number_at;
use crate::items::items_of;
use crate::signal::signal_of;
use dbc_sheet::{Receivers, Signal, Signals, ValueText, ValueTexts};
use dbc_words::Name;
use sqlite::types::ValueRef;
use sqlite::{Error, Row};
use std::alloc::Global;

/// Whether the row has the number in its first column.
fn is_at(row: &Row, place: u32) -> bool
    ensures { result ≡ has_place place row.now }
{
    match row.get_ref(0) {
        Ok(ValueRef::Int(number)) => match u32::try_from(number) {
            Ok(number) => number == place,
            Err(_) => false,
        },
        _ => false,
    }
}

/// How many rows from the first one on have the number in their first column.
fn rows_at(rows: &[Row], place: u32) -> usize
    ensures is { result ≡ prefix_len (has_place place) rows.now }
    ensures within { result ≤ length rows.now }
{
    rows.iter().take_while(|row| is_at(row, place)).count()
}

/// The receivers that the rows show.
fn receivers_in(alloc: Global, rows: &[Row]) -> Result<Receivers, Error>
    ensures { IfOk result (λ receivers. (others : List (List ℕ))
        → AreShown ShowsReceiver others rows.now
        → receivers ≡ others) }
{
    let names = items_of::<Name>(alloc, rows)?;
    Ok(Receivers::from_vec(names.into_vec()))
}

/// The value texts that the rows show.
fn values_in(alloc: Global, rows: &[Row]) -> Result<ValueTexts, Error>
    ensures { IfOk result (λ values. (others : List Described)
        → AreShown ShowsValueText others rows.now
        → values ≡ others) }
{
    let texts = items_of::<ValueText>(alloc, rows)?;
    match ValueTexts::of(texts.into_vec()) {
        Some(values) => Ok(values),
        None => Err(Error::InvalidQuery),
    }
}

/// The signals of the rows of `sig`, each with those rows of `receiver` and of `sigvalue` that have its place. An error
/// also where rows of these have the place of no signal.
fn signals_in(
    alloc: Global,
    sigs: &[Row],
    receivers: &[Row],
    values: &[Row],
) -> Result<Vec<Signal>, Error>
    ensures { IfOk result (λ signals. (placed : List (ℕ × SignalModel)) → PlacesAscend placed
        → AreShown ShowsPlaced placed sigs.now
        → AreShown (ShowsPart ShowsReceiver) (parts_of (λ s. s.receivers) placed) receivers.now
        → AreShown (ShowsPart ShowsValueText) (parts_of (λ s. s.values) placed) values.now
        → signals.items ≡ map (λ p. p.1) placed) }
{
    let mut signals = Vec::new(alloc);
    let mut names = receivers;
    let mut texts = values;
    for row in sigs {
        let place = number_at(row, 0)?;
        let (own_names, other_names) = names.split_at(rows_at(names, place));
        let (own_texts, other_texts) = texts.split_at(rows_at(texts, place));
        let receivers = receivers_in(alloc, own_names)?;
        let values = values_in(alloc, own_texts)?;
        signals.push(signal_of(alloc, row, receivers, values)?)?;
        names = other_names;
        texts = other_texts;
    }
    if !names.is_empty() || !texts.is_empty() {
        return Err(Error::InvalidQuery);
    }
    Ok(signals)
}

/// The signals that the rows of a message show: those of `sig`, of `receiver` and of `sigvalue`, each in the order of
/// the signals' places. An error where they show none, also where a receiver or a value text has the place of no
/// signal, or memory ran out.
pub fn signals_of(
    alloc: Global,
    sigs: &[Row],
    receivers: &[Row],
    values: &[Row],
) -> Result<Signals, Error>
    ensures { IfOk result (λ signals. (placed : List (ℕ × SignalModel)) → PlacesAscend placed
        → AreShown ShowsPlaced placed sigs.now
        → AreShown (ShowsPart ShowsReceiver) (parts_of (λ s. s.receivers) placed) receivers.now
        → AreShown (ShowsPart ShowsValueText) (parts_of (λ s. s.values) placed) values.now
        → signals ≡ map (λ p. p.1) placed) }
{
    let list = signals_in(alloc, sigs, receivers, values)?;
    match Signals::of(alloc, list)? {
        Some(signals) => Ok(signals),
        None => Err(Error::InvalidQuery),
    }
}
