//! Where suspect parameter numbers are.
ghost use Rattle.std.specs.Prelude.{◌≡◌, ◌++◌, ◌∷◌, [], List, IfOk, OnOk};
ghost use Rattle.std.specs.Option.{option_copied};
ghost use Rattle.dbc_lint.specs.OfSpn.{SpnPlace as PlaceModel, places, places_in};
ghost use Rattle.dbc_lint.specs.SpnPlaces.{HasFirsts, kept_place};

use dbc_sheet::{Message, Signal};
use std::alloc::{AllocError, Global};
use std::collections::BTreeMap;
use std::marker::Model;

/// A signal and its message. Contracts see it as the pair of the message and the signal.
#[derive(Drop)]
pub(crate) struct SpnPlace<'a> {
    pub(crate) message: &'a Message,
    pub(crate) signal: &'a Signal,
}

impl<'a> Model for SpnPlace<'a> {
    ghost use Rattle.dbc_lint.specs.OfSpn.{SpnPlace as PlaceModel};

    ghost Value = { PlaceModel };

    ghost view = { λ place. (place.message.now, place.signal.now) };
}

/// The first place of each suspect parameter number.
pub(crate) struct FirstPlaces<'a> {
    places: BTreeMap<u32, SpnPlace<'a>>,
}

impl<'a> FirstPlaces<'a> {
    /// No places. Takes no memory.
    fn new(alloc: Global) -> FirstPlaces<'a>
        ensures { HasFirsts [] result }
    {
        FirstPlaces {
            places: BTreeMap::new(alloc),
        }
    }

    /// The place that is kept for the number.
    pub(crate) fn get(&self, number: u32) -> Option<&SpnPlace<'a>>
        ensures { option_copied result ≡ kept_place self.now number }
    {
        self.places.get(&number)
    }

    /// Keeps the signal, unless one is kept for its number.
    fn add(&mut self, message: &'a Message, signal: &'a Signal) -> Result<(), AllocError>
        ensures { OnOk result ((ps : List PlaceModel) → HasFirsts ps self.old
            → HasFirsts (ps ++ (message.now, signal.now) ∷ []) self.new) }
    {
        let number = signal.spn.number();
        if self.places.contains_key(&number) {
            return Ok(());
        }
        self.places.insert(number, SpnPlace { message, signal })?;
        Ok(())
    }

    /// Keeps the message's signals, each unless one is kept for its number.
    fn add_message(&mut self, message: &'a Message) -> Result<(), AllocError>
        ensures { OnOk result ((ps : List PlaceModel) → HasFirsts ps self.old
            → HasFirsts (ps ++ places_in message.now) self.new) }
    {
        for signal in message.signals.as_slice() {
            self.add(message, signal)?;
        }
        Ok(())
    }

    /// The first place of each number in the messages.
    pub(crate) fn of(alloc: Global, messages: &'a [Message]) -> Result<FirstPlaces<'a>, AllocError>
        ensures { IfOk result (λ firsts. HasFirsts (places messages.now) firsts) }
    {
        let mut firsts = FirstPlaces::new(alloc);
        for message in messages {
            firsts.add_message(message)?;
        }
        Ok(firsts)
    }
}

impl Drop for FirstPlaces<'_> {
    fn drop(self) {
        let FirstPlaces { places: _places } = self;
    }
}
