//! A signal of a message.
ghost use Rattle.std.specs.Prelude.{◌≡◌};
ghost use Rattle.dbc_sheet.specs.Signal.{place_of};

use crate::receivers::Receivers;
use crate::value_texts::ValueTexts;
use base::Copying;
use bitlayout::{Layout, Mux, Place};
use dbc_words::{Name, Named, Spn, Text, ValueType};
use decimal::Decimal;
use std::alloc::{AllocError, Global};

/// A signal of a message.
// The small fields are side by side, which saves 8 bytes a signal.
#[derive(PartialEq, Eq)]
pub struct Signal {
    /// The signal's name.
    pub name: Name,
    /// Where it is in the payload: its start is 0 to 65535, its size 1 to 64 bits.
    pub layout: Layout,
    /// Whether its raw value is signed.
    pub signed: bool,
    /// How the bits are to be read.
    pub value_type: ValueType,
    /// When it is present.
    pub mux: Mux,
    /// The signal's suspect parameter number.
    pub spn: Spn,
    /// What a raw value is multiplied by.
    pub factor: Decimal,
    /// What is added to the product.
    pub offset: Decimal,
    /// The least physical value.
    pub minimum: Decimal,
    /// The greatest physical value.
    pub maximum: Decimal,
    /// The unit of the physical value, empty where there is none.
    pub unit: Text,
    /// The nodes that receive the signal. They need not be nodes of the sheet, and one may occur twice.
    pub receivers: Receivers,
    /// The signal's comment, empty where there is none.
    pub comment: Text,
    /// Texts for values.
    pub values: ValueTexts,
}

impl Signal {
    /// Where the signal is in the payload, and when it is present.
    pub fn place(&self) -> Place
        ensures { result ≡ place_of self.now }
    {
        Place {
            layout: self.layout,
            mux: self.mux,
        }
    }
}

impl Named for Signal {
    ghost name_of = { λ signal. signal.name };

    fn name(&self) -> &Name {
        &self.name
    }
}

impl Copying for Signal {
    fn duplicate(&self, alloc: Global) -> Result<Self, AllocError> {
        Ok(Signal {
            name: self.name.duplicate(alloc)?,
            layout: self.layout,
            signed: self.signed,
            mux: self.mux,
            factor: self.factor,
            offset: self.offset,
            minimum: self.minimum,
            maximum: self.maximum,
            unit: self.unit.duplicate(alloc)?,
            receivers: self.receivers.duplicate(alloc)?,
            comment: self.comment.duplicate(alloc)?,
            spn: self.spn,
            values: self.values.duplicate(alloc)?,
            value_type: self.value_type,
        })
    }
}

impl Drop for Signal {
    fn drop(self) {
        let Signal {
            name: _name,
            layout: _layout,
            signed: _signed,
            mux: _mux,
            factor: _factor,
            offset: _offset,
            minimum: _minimum,
            maximum: _maximum,
            unit: _unit,
            receivers: _receivers,
            comment: _comment,
            spn: _spn,
            values: _values,
            value_type: _value_type,
        } = self;
    }
}
