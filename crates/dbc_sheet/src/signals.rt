//! The signals of one message.
ghost use Rattle.std.specs.Prelude.{◌≡◌, ◌++◌, ◌∷◌, [], None, IfErr, IfOk, OnOk, OnErr, SomeIff};
ghost use Rattle.base.specs.Refusing.{first_refusal};
ghost use Rattle.dbc_words.specs.Fault.{IsRefusal};
ghost use Rattle.dbc_words.specs.Named.{has_name};
ghost use Rattle.dbc_sheet.specs.Signals.{AreSignals, HaveOneMultiplexor, at_signal, has_multiplexor, places_of};
ghost use Rattle.dbc_sheet.specs.Signals.{signal_name, signal_named, signal_tests, without_signal};

use crate::signal::Signal;
use crate::value_texts::ValueTexts;
use base::Copying;
use bitlayout::Place;
use dbc_words::{Name, Roster, SheetCode, Spn};
use std::alloc::{AllocError, Global};
use std::marker::Model;

/// The signals of one message in the order in which they were added: at most [`SIGNAL_LIMIT`](dbc_words::SIGNAL_LIMIT),
/// no two with the same name, and at most one the multiplexor. Contracts see it as the list of them.
pub struct Signals {
    roster: Roster<Signal>,
    multiplexed: bool,
}

impl Model for Signals {
    ghost use Rattle.std.specs.Prelude.{List};
    ghost use Rattle.dbc_sheet.specs.Signals.{IsMultiplexorKnown};
    ghost use Rattle.dbc_sheet.specs.declared.signal.Signal.{Signal};

    ghost Value = { List Signal };

    ghost view = { λ signals. signals.roster };

    ghost invariant = { λ signals. IsMultiplexorKnown signals.roster signals.multiplexed };
}

/// Whether one of the signals is the multiplexor, or `None` where two are.
fn multiplexed(signals: &[Signal]) -> Option<bool>
    ensures { SomeIff result (HaveOneMultiplexor signals.now) (has_multiplexor signals.now) }
{
    let mut multiplexed = false;
    for signal in signals {
        if signal.mux.is_multiplexor() {
            if multiplexed {
                return None;
            }
            multiplexed = true;
        }
    }
    Some(multiplexed)
}

impl Signals {
    /// No signals. Takes no memory.
    pub fn new(alloc: Global) -> Signals
        ensures { result ≡ [] }
    {
        Signals {
            roster: Roster::new(alloc),
            multiplexed: false,
        }
    }

    /// The signals of a vector, in its order, or `None` where they can't be in one message: more than
    /// [`SIGNAL_LIMIT`](dbc_words::SIGNAL_LIMIT), two of one name, or two multiplexors. No signal is copied or moved
    /// one by one. The error is out of memory.
    pub fn of(alloc: Global, signals: Vec<Signal>) -> Result<Option<Signals>, AllocError>
        ensures { IfOk result (λ found. SomeIff found (AreSignals signals.items) signals.items) }
    {
        let multiplexed = match multiplexed(&signals) {
            Some(multiplexed) => multiplexed,
            None => return Ok(None),
        };
        match Roster::of(alloc, signals)? {
            Some(roster) => Ok(Some(Signals {
                roster,
                multiplexed,
            })),
            None => Ok(None),
        }
    }

    /// The signals, in the order in which they were added.
    pub fn as_slice(&self) -> &[Signal]
        ensures signals { result.now ≡ self.now }
        ensures together { AreSignals self.now }
    {
        self.roster.as_slice()
    }

    /// Whether one of them is the multiplexor.
    pub fn are_multiplexed(&self) -> bool
        ensures { result ≡ has_multiplexor self.now }
    {
        self.multiplexed
    }

    /// Why the signal can't be added, in this order: [`SheetCode::TooMany`] where there are
    /// [`SIGNAL_LIMIT`](dbc_words::SIGNAL_LIMIT) signals, [`SheetCode::DoubleName`] where one of them has its name,
    /// [`SheetCode::TwoMultiplexors`] where it is the multiplexor and one of them is too.
    pub fn refusal(&self, signal: &Signal) -> Option<SheetCode>
        ensures { result ≡ first_refusal (signal_tests self.now signal.now) }
    {
        match self.roster.refusal(&signal.name) {
            Some(code) => Some(code),
            None if signal.mux.is_multiplexor() && self.multiplexed => {
                Some(SheetCode::TwoMultiplexors)
            }
            None => None,
        }
    }

    /// Adds a signal as the last one. It is refused, and nothing changes, with what [`Signals::refusal`] says.
    /// [`SheetCode::Memory`] is out of memory, and nothing changes either.
    pub fn add(&mut self, alloc: Global, signal: Signal) -> Result<(), SheetCode>
        ensures ok { OnOk result (self.new ≡ self.old ++ signal ∷ []) }
        ensures allowed { OnOk result (first_refusal (signal_tests self.old signal) ≡ None) }
        ensures refused { IfErr result (IsRefusal (first_refusal (signal_tests self.old signal))) }
        ensures err { OnErr result (self.new ≡ self.old) }
    {
        match self.refusal(&signal) {
            Some(code) => return Err(code),
            None => {}
        }
        let multiplexor = signal.mux.is_multiplexor();
        self.roster.push(alloc, signal)?;
        self.multiplexed |= multiplexor;
        Ok(())
    }

    /// Sets the suspect parameter number of the signal of the name, and answers whether there is one. Takes no memory.
    pub fn set_spn(&mut self, name: &Name, spn: Spn) -> bool
        ensures there { result ≡ has_name signal_name self.old name.now }
        ensures signals { self.new ≡ at_signal (λ signal. record signal { spn = spn }) name.now
            self.old }
    {
        self.roster.change(name, |signal| signal.spn = spn)
    }

    /// Sets the texts for the values of the signal of the name, and answers whether there is one. Takes no memory.
    pub fn set_values(&mut self, name: &Name, values: ValueTexts) -> bool
        ensures there { result ≡ has_name signal_name self.old name.now }
        ensures signals { self.new ≡ at_signal (λ signal. record signal { values = values })
            name.now self.old }
    {
        self.roster.change(name, |signal| signal.values = values)
    }

    /// Removes the signal with the name, or returns `None` and changes nothing if there is none. Takes no memory.
    pub fn remove(&mut self, name: &Name) -> Option<Signal>
        ensures found { result ≡ signal_named self.old name.now }
        ensures rest { self.new ≡ without_signal self.old name.now }
    {
        let signal = self.roster.remove(name)?;
        if signal.mux.is_multiplexor() {
            self.multiplexed = false;
        }
        Some(signal)
    }

    /// The places of the signals, in order. The error is out of memory.
    pub fn places(&self, alloc: Global) -> Result<Vec<Place>, AllocError>
        ensures { IfOk result (λ places. places.items ≡ places_of self.now) }
    {
        let mut places = Vec::new(alloc);
        for signal in self.as_slice() {
            places.push(signal.place())?;
        }
        Ok(places)
    }
}

impl Copying for Signals {
    fn duplicate(&self, alloc: Global) -> Result<Self, AllocError> {
        Ok(Signals {
            roster: self.roster.duplicate(alloc)?,
            multiplexed: self.multiplexed,
        })
    }
}

impl PartialEq for Signals {
    ghost use Rattle.std.specs.Cmp.Lexicographic.{pointwise, lists_per};
    ghost use Rattle.dbc_sheet.specs.contracts.signal.SignalPartialEq.TheImpl.Laws.{laws-law};

    ghost eq = { pointwise ⟦<Signal as PartialEq>⟧.eq };

    ghost laws = { lists_per laws-law };

    fn eq(&self, other: &Signals) -> bool {
        self.roster == other.roster
    }
}

impl Eq for Signals {
    ghost use Rattle.std.specs.Cmp.Lexicographic.{lists_equiv};
    ghost use Rattle.dbc_sheet.specs.contracts.signal.SignalEq.TheImpl.Laws.{laws-law};

    ghost laws = { lists_equiv laws-law };
}

impl Drop for Signals {
    fn drop(self) {
        let Signals {
            roster: _roster,
            multiplexed: _multiplexed,
        } = self;
    }
}
