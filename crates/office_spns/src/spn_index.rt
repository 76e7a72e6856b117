//! Where a sheet has its suspect parameter numbers.
ghost use Rattle.std.specs.Prelude.{◌≡◌, ◌≤◌, ◌++◌, IfOk, OnOk, length};
ghost use Rattle.std.specs.List.Sorted.{IsNonDecreasingBy};
ghost use Rattle.office_spns.specs.SpnIndex.{AreBelow, all_places, signals_in, spn_at};
ghost use Rattle.office_spns.specs.Spns.{has_spn, places};

use dbc_sheet::{Message, Sheet, Signal};
use std::alloc::{AllocError, Global};
use std::marker::Model;

/// A signal and its message. Contracts see it as the pair of the message and the signal.
#[derive(Drop)]
pub struct SpnPlace<'a> {
    message: &'a Message,
    signal: &'a Signal,
}

impl<'a> Model for SpnPlace<'a> {
    ghost use Rattle.office_spns.specs.Spns.{SpnPlace as PlaceModel};

    ghost Value = { PlaceModel };

    ghost view = { λ place. (place.message.now, place.signal.now) };
}

impl<'a> SpnPlace<'a> {
    /// The message.
    pub fn message(&self) -> &'a Message
        ensures { result.now ≡ self.now.0 }
    {
        self.message
    }

    /// The signal.
    pub fn signal(&self) -> &'a Signal
        ensures { result.now ≡ self.now.1 }
    {
        self.signal
    }

    fn number(&self) -> u32
        ensures { result ≡ spn_at self.now }
    {
        self.signal.spn.number()
    }
}

/// Appends the message's signals.
fn add_places<'a>(places: &mut Vec<SpnPlace<'a>>, message: &'a Message) -> Result<(), AllocError>
    ensures { OnOk result
        (places.new.items ≡ places.old.items ++ signals_in message.now) }
{
    for signal in message.signals.as_slice() {
        places.push(SpnPlace { message, signal })?;
    }
    Ok(())
}

/// The sheet's signals.
fn all_places<'a>(alloc: Global, sheet: &'a Sheet) -> Result<Vec<SpnPlace<'a>>, AllocError>
    ensures { IfOk result (λ places. places.items ≡ all_places sheet.now) }
{
    let mut places = Vec::new(alloc);
    for message in sheet.messages() {
        add_places(&mut places, message)?;
    }
    Ok(places)
}

/// How many of the places, which are in order, have lesser numbers.
fn count_below(places: &[SpnPlace], number: u64) -> usize
    requires { IsNonDecreasingBy spn_at places.now }
    ensures bound { result ≤ length places.now }
    ensures below { AreBelow number places.now result }
{
    places.partition_point(|place| u64::from(place.number()) < number)
}

/// Where a sheet has its suspect parameter numbers, found by binary search. Contracts see it as the sheet.
pub struct SpnIndex<'a> {
    sheet: &'a Sheet,
    /// Its signals, by their numbers, and those of one number as in the sheet.
    places: Vec<SpnPlace<'a>>,
}

impl<'a> Model for SpnIndex<'a> {
    ghost use Rattle.dbc_sheet.specs.declared.sheet.Sheet.{Sheet};
    ghost use Rattle.office_spns.specs.SpnIndex.{AreInOrder};

    ghost Value = { Sheet };

    ghost view = { λ index. index.sheet.now };

    ghost invariant = { λ index. AreInOrder index.sheet.now index.places.items };
}

impl<'a> SpnIndex<'a> {
    /// The index of the sheet. The error is out of memory.
    pub fn of(alloc: Global, sheet: &'a Sheet) -> Result<SpnIndex<'a>, AllocError>
        ensures { IfOk result (λ index. index ≡ sheet.now) }
    {
        let mut places = all_places(alloc, sheet)?;
        places.sort_by_key(|place| place.number())?;
        Ok(SpnIndex { sheet, places })
    }

    /// Where signals of the sheet have the number, in the sheet's order.
    pub fn places(&self, number: u32) -> &[SpnPlace<'a>]
        ensures { result.now ≡ places number self.now }
    {
        let first = count_below(&self.places, u64::from(number));
        let places = &self.places[first..];
        let count = count_below(places, u64::from(number) + 1);
        &places[..count]
    }

    /// Whether a signal of the sheet has the number.
    pub fn has(&self, number: u32) -> bool
        ensures { result ≡ has_spn number self.now }
    {
        !self.places(number).is_empty()
    }
}

impl Drop for SpnIndex<'_> {
    fn drop(self) {
        let SpnIndex {
            sheet: _sheet,
            places: _places,
        } = self;
    }
}
