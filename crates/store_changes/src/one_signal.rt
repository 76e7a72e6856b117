//! The rows of one signal of a live message, added, removed and changed: no row of another signal is written.
ghost use Rattle.std.specs.Prelude.{[], ◌∷◌, ◌≡◌, ℕ, List, IfOk, OnOk};
ghost use Rattle.std.specs.List.{AllByRecursion};
ghost use Rattle.std.specs.Option.{option_map};
ghost use Rattle.can_id.specs.Ident.{dbc_number};
ghost use Rattle.dbc_sheet.specs.declared.signal.Signal.{Signal as SignalModel};
ghost use Rattle.dbc_sheet.specs.declared.value_texts.ValueText.{ValueText as Entry};
ghost use Rattle.decimal.specs.Number.{IsDecimal};
ghost use Rattle.office_rules.specs.Facts.{live_named};
ghost use Rattle.store_statements.specs.Rows.{has_net_and_number};
ghost use Rattle.store_statements.specs.Shown.{last_place_order, last_place_shown};
ghost use Rattle.store_tables.specs.Selected.{IsFirstSelected};
ghost use Rattle.store_tables.specs.Tables.{Tables};
ghost use Rattle.office_types.specs.declared.state.LiveMessage.{LiveMessage as Live};
ghost use Rattle.sqlite.specs.Order.{Row as Columns};
ghost use Rattle.store_rows.specs.Listed.{AreShown};
ghost use Rattle.store_rows.specs.Live.{AreLiveRows, live_rows, OnLive};
ghost use Rattle.store_rows.specs.LiveWritten.{AreTextsSet, IsSignalAdded, IsAfter, IsSpnSet, IsTakenOut, with_spns};
ghost use Rattle.store_rows.specs.LiveWritten.{with_texts, without_place, without_places};
ghost use Rattle.store_rows.specs.SignalShowing.{PlacesAscend, ShowsPlaced};
ghost use Rattle.store_changes.specs.Places.{places_shown};
ghost use Rattle.store_tables.specs.Frames.{Asks, Edits, EndsIn, OnlyWrites, ReadsOnly, Relates, StaysIn};
ghost use Rattle.store_tables.specs.Frames.{WritesAndStaysIn};

use crate::message_rows::{write_sig, write_signal, write_values};
use crate::writing::number_above;
use dbc_sheet::{Receivers, Signal, ValueText, ValueTexts};
use dbc_words::Name;
use office_types::{NetName, SignalPath, UsableSpn};
use sqlite::{Alter, Error, Row, Transaction};
use std::alloc::Global;
use store_rows::{number_at, signal_of};
use store_statements::{
    delete_receivers_at, delete_sig_at, delete_sigvalues_at, select_last_place, select_msg_named,
    select_sigs_named,
};

/// The DBC number of the live message of the name, `None` where the network has none.
fn number_named<S: Alter>(
    tx: &mut Transaction<'_, S>,
    name: &NetName,
    message: &Name,
) -> Result<Option<u32>, Error>
    ensures found { Asks S.Store tx.old tx.new result (OnLive name.now (λ live found. found
        ≡ option_map (λ (m : Live). dbc_number m.message.ident) (live_named live message.now))) }
    ensures frame { ReadsOnly S.Store tx.old tx.new result }
{
    let rows = select_msg_named(tx, name.as_bytes(), message.as_bytes())?;
    match rows.first() {
        None => Ok(None),
        Some(row) => Ok(Some(number_at(row, 0)?)),
    }
}

/// The place after the last one, which the rows show, and 0 where they show none. An error where there is no place
/// after it, or the row shows no number.
fn place_after(rows: &[Row]) -> Result<u32, Error>
    ensures { IfOk result (λ place. (net : List ℕ) (number : ℕ) (t : Tables)
        → IsFirstSelected (has_net_and_number net number) last_place_shown last_place_order
        t.sig rows.now → IsAfter net number t place) }
{
    match rows.first() {
        None => Ok(0),
        Some(row) => number_above(number_at(row, 0)?),
    }
}

/// Adds the signal as the last one of the live message of the name. An error, too, where there is no such message.
pub(crate) fn add_signal<S: Alter>(
    alloc: Global,
    tx: &mut Transaction<'_, S>,
    name: &NetName,
    message: &Name,
    signal: &Signal,
) -> Result<(), Error>
    ensures written { Relates S.Store tx.old tx.new result
        (λ before after. (live : List Live) → AreLiveRows name.now (live_rows name.now before) live
        → IsSignalAdded name.now message.now signal.now live before after) }
    ensures frame { EndsIn S.Store tx.old tx.new result }
{
    let net = name.as_bytes();
    let Some(number) = number_named(tx, name, message)? else {
        return Err(Error::InvalidQuery);
    };
    let rows = select_last_place(tx, net, number)?;
    let place = place_after(&rows)?;
    write_signal(alloc, tx, net, number, place, signal)
}

/// Removes the rows of the signal at the place.
fn remove_place<S: Alter>(
    tx: &mut Transaction<'_, S>,
    net: &[u8],
    number: u32,
    place: u32,
) -> Result<(), Error>
    ensures removed { Edits S.Store tx.old tx.new result (without_place net.now number place) }
    ensures frame { OnlyWrites S.Store tx.old tx.new }
{
    delete_sig_at(tx, net, number, place)?;
    delete_receivers_at(tx, net, number, place)?;
    delete_sigvalues_at(tx, net, number, place)?;
    Ok(())
}

/// Removes the rows of the signals that the rows show.
fn remove_shown<S: Alter>(
    tx: &mut Transaction<'_, S>,
    net: &[u8],
    number: u32,
    rows: &[Row],
) -> Result<(), Error>
    ensures removed { Relates S.Store tx.old tx.new result
        (λ before after. after ≡ without_places net.now number (places_shown rows.now) before) }
    ensures frame { WritesAndStaysIn S.Store tx.old tx.new result }
{
    for row in rows {
        let place = number_at(row, 0)?;
        remove_place(tx, net, number, place)?;
    }
    Ok(())
}

/// Removes the signal from its live message. Where there is no such message or signal, nothing is removed.
pub(crate) fn take_signal_out<S: Alter>(
    tx: &mut Transaction<'_, S>,
    name: &NetName,
    path: &SignalPath,
) -> Result<(), Error>
    ensures written { Relates S.Store tx.old tx.new result
        (λ before after. (live : List Live) → AreLiveRows name.now (live_rows name.now before) live
        → IsTakenOut name.now path.now live before after) }
    ensures frame { StaysIn S.Store tx.old tx.new result }
{
    let net = name.as_bytes();
    match number_named(tx, name, &path.message)? {
        None => Ok(()),
        Some(number) => {
            let rows = select_sigs_named(tx, net, number, path.signal.as_bytes())?;
            remove_shown(tx, net, number, &rows)
        }
    }
}

/// Gives the signal that the row shows the suspect parameter number. Its receivers and value texts stay.
fn set_row_spn<S: Alter>(
    alloc: Global,
    tx: &mut Transaction<'_, S>,
    net: &[u8],
    number: u32,
    row: &Row,
    spn: UsableSpn,
) -> Result<(), Error>
    ensures written { Relates S.Store tx.old tx.new result
        (λ before after. (q : ℕ × SignalModel) → ShowsPlaced q row.now
        → after ≡ with_spns net.now number spn (q ∷ []) before) }
    ensures frame { WritesAndStaysIn S.Store tx.old tx.new result }
{
    let place = number_at(row, 0)?;
    let mut signal = signal_of(alloc, row, Receivers::new(), ValueTexts::empty(alloc))?;
    signal.spn = spn.spn();
    delete_sig_at(tx, net, number, place)?;
    write_sig(alloc, tx, net, number, place, &signal)
}

/// Gives each signal that the rows show the suspect parameter number.
fn set_shown_spn<S: Alter>(
    alloc: Global,
    tx: &mut Transaction<'_, S>,
    net: &[u8],
    number: u32,
    rows: &[Row],
    spn: UsableSpn,
) -> Result<(), Error>
    ensures written { Relates S.Store tx.old tx.new result (λ before after.
        (placed : List (ℕ × SignalModel)) → PlacesAscend placed
        → AreShown ShowsPlaced placed rows.now
        → after ≡ with_spns net.now number spn placed before) }
    ensures frame { WritesAndStaysIn S.Store tx.old tx.new result }
{
    for row in rows {
        set_row_spn(alloc, tx, net, number, row, spn)?;
    }
    Ok(())
}

/// Gives the signal the suspect parameter number, by its row of `sig` alone. Where there is no such message or signal,
/// nothing is written.
pub(crate) fn set_signal_spn<S: Alter>(
    alloc: Global,
    tx: &mut Transaction<'_, S>,
    name: &NetName,
    path: &SignalPath,
    spn: UsableSpn,
) -> Result<(), Error>
    ensures written { Relates S.Store tx.old tx.new result
        (λ before after. (live : List Live) → AreLiveRows name.now (live_rows name.now before) live
        → IsSpnSet name.now path.now spn live before after) }
    ensures frame { StaysIn S.Store tx.old tx.new result }
{
    let net = name.as_bytes();
    match number_named(tx, name, &path.message)? {
        None => Ok(()),
        Some(number) => {
            let rows = select_sigs_named(tx, net, number, path.signal.as_bytes())?;
            set_shown_spn(alloc, tx, net, number, &rows, spn)
        }
    }
}

/// Sets the value texts of the signal that the row shows.
fn set_row_values<S: Alter>(
    alloc: Global,
    tx: &mut Transaction<'_, S>,
    net: &[u8],
    number: u32,
    row: &Row,
    values: &[ValueText],
) -> Result<(), Error>
    ensures decimals { OnOk result (AllByRecursion (λ (v : Entry). IsDecimal v.value) values.now) }
    ensures written { Relates S.Store tx.old tx.new result
        (λ before after. (q : ℕ × SignalModel) → ShowsPlaced q row.now
        → after ≡ with_texts net.now number values.now (q ∷ []) before) }
    ensures frame { WritesAndStaysIn S.Store tx.old tx.new result }
{
    let place = number_at(row, 0)?;
    delete_sigvalues_at(tx, net, number, place)?;
    write_values(alloc, tx, net, number, place, values)
}

/// Sets the value texts of each signal that the rows show.
fn set_shown_values<S: Alter>(
    alloc: Global,
    tx: &mut Transaction<'_, S>,
    net: &[u8],
    number: u32,
    rows: &[Row],
    values: &[ValueText],
) -> Result<(), Error>
    ensures decimals { OnOk result (AllByRecursion (λ (row : Columns).
        AllByRecursion (λ (v : Entry). IsDecimal v.value) values.now) rows.now) }
    ensures written { Relates S.Store tx.old tx.new result (λ before after.
        (placed : List (ℕ × SignalModel)) → PlacesAscend placed
        → AreShown ShowsPlaced placed rows.now
        → after ≡ with_texts net.now number values.now placed before) }
    ensures frame { WritesAndStaysIn S.Store tx.old tx.new result }
{
    for row in rows {
        set_row_values(alloc, tx, net, number, row, values)?;
    }
    Ok(())
}

/// Sets the value texts of the signal, by its rows of `sigvalue` alone. Where there is no such message or signal,
/// nothing is written.
pub(crate) fn set_signal_values<S: Alter>(
    alloc: Global,
    tx: &mut Transaction<'_, S>,
    name: &NetName,
    path: &SignalPath,
    values: &ValueTexts,
) -> Result<(), Error>
    ensures written { Relates S.Store tx.old tx.new result
        (λ before after. (live : List Live) → AreLiveRows name.now (live_rows name.now before) live
        → AreTextsSet name.now path.now values.now live before after) }
    ensures frame { StaysIn S.Store tx.old tx.new result }
{
    let net = name.as_bytes();
    match number_named(tx, name, &path.message)? {
        None => Ok(()),
        Some(number) => {
            let rows = select_sigs_named(tx, net, number, path.signal.as_bytes())?;
            set_shown_values(alloc, tx, net, number, &rows, values.as_slice())
        }
    }
}
