//! A message and its signals.
ghost use Rattle.std.specs.Prelude.{◌≡◌, ◌↔◌, ◌++◌, ◌∷◌, [], None, IfErr, IfOk, IfSome, IsNone, OnOk, OnErr};
ghost use Rattle.base.specs.Refusing.{first_refusal};
ghost use Rattle.bitlayout.specs.Clash.{IsFirstClash, first_clash_of};
ghost use Rattle.dbc_words.specs.Fault.{IsRefusal};
ghost use Rattle.dbc_sheet.specs.Messages.{IsClearMessage, number_of};
ghost use Rattle.dbc_sheet.specs.Signals.{places_of, signal_tests};

use crate::signal::Signal;
use crate::signals::Signals;
use base::Copying;
use bitlayout::{Clash, first_clash};
use can_id::Ident;
use dbc_words::{About, Name, Named, PayloadLength, SheetFault, Text};
use std::alloc::{AllocError, Global};

/// A message of a network.
#[derive(PartialEq, Eq)]
pub struct Message {
    /// The identifier with which it is sent.
    pub ident: Ident,
    /// The message's name.
    pub name: Name,
    /// How many bytes it carries.
    pub length: PayloadLength,
    /// The node that transmits it, which need not be a node of the sheet.
    pub transmitter: Option<Name>,
    /// The message's comment, empty where there is none.
    pub comment: Text,
    /// The message's signals.
    pub signals: Signals,
}

impl Message {
    /// The number that a DBC file writes for the message.
    pub fn number(&self) -> u32
        ensures { result ≡ number_of self.now }
    {
        self.ident.to_dbc()
    }

    /// The first reason why the signals do not fit together in the message's payload, or `None` where they are clear.
    /// The indices are those of the signals. The error is out of memory.
    pub fn first_clash(&self, alloc: Global) -> Result<Option<Clash>, AllocError>
        ensures clear { IfOk result (λ clash. IsNone clash ↔ IsClearMessage self.now) }
        ensures first { IfOk result (λ clash. IfSome clash
            (IsFirstClash (places_of self.now.signals) self.now.length)) }
        ensures computed { IfOk result
            (λ clash. clash ≡ first_clash_of (places_of self.now.signals) self.now.length) }
    {
        let places = self.signals.places(alloc)?;
        Ok(first_clash(&places, self.length.bytes()))
    }

    /// Adds a signal as the last one. It is refused, and nothing changes, with the first of these that holds: 26
    /// `TooMany` where the message has [`SIGNAL_LIMIT`](dbc_words::SIGNAL_LIMIT) signals, 21 `DoubleName` where one of
    /// them has its name, 25 `TwoMultiplexors` where it is the multiplexor and one of them is too. `Memory` is out of
    /// memory, and nothing changes either. The fault is about the message.
    pub fn with_signal(&mut self, alloc: Global, signal: Signal) -> Result<(), SheetFault>
        ensures ok { OnOk result
            (self.new ≡ record self.old { signals = self.old.signals ++ signal ∷ [] }) }
        ensures allowed { OnOk result
            (first_refusal (signal_tests self.old.signals signal) ≡ None) }
        ensures refused { IfErr result (λ fault. IsRefusal
            (first_refusal (signal_tests self.old.signals signal)) fault.code) }
        ensures about { IfErr result (λ fault. fault.about ≡ About.Message (number_of self.old)) }
        ensures err { OnErr result (self.new ≡ self.old) }
    {
        let about = About::Message(self.number());
        self.signals
            .add(alloc, signal)
            .map_err(|code| SheetFault { code, about })
    }
}

impl Named for Message {
    ghost name_of = { λ message. message.name };

    fn name(&self) -> &Name {
        &self.name
    }
}

impl Copying for Message {
    fn duplicate(&self, alloc: Global) -> Result<Self, AllocError> {
        Ok(Message {
            ident: self.ident,
            name: self.name.duplicate(alloc)?,
            length: self.length,
            transmitter: self.transmitter.duplicate(alloc)?,
            comment: self.comment.duplicate(alloc)?,
            signals: self.signals.duplicate(alloc)?,
        })
    }
}

impl Drop for Message {
    fn drop(self) {
        let Message {
            ident: _ident,
            name: _name,
            length: _length,
            transmitter: _transmitter,
            comment: _comment,
            signals: _signals,
        } = self;
    }
}
