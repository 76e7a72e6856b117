//! What holds of every sheet, because its parts can't be built otherwise.
//!
//! A part keeps its form by its type. The prover learns the form of a part from a call on the part, so it learns that
//! of a whole sheet from a walk over its parts. The walk computes nothing and returns nothing.
ghost use Rattle.std.specs.Prelude.{All};
ghost use Rattle.dbc_words.specs.Name.{IsName};
ghost use Rattle.dbc_words.specs.Text.{IsText};
ghost use Rattle.dbc_sheet.specs.Form.{IsLayout, IsMux, IsNode, IsSheet, IsValueText, KeepsMessage, KeepsSignal};
ghost use Rattle.dbc_sheet.specs.Form.{KeepsTable, KeepsTexts};

use crate::message::Message;
use crate::node::Node;
use crate::sheet::Sheet;
use crate::signal::Signal;
use crate::value_table::ValueTable;
use crate::value_texts::{ValueText, ValueTexts};
use bitlayout::{Layout, Mux};
use dbc_words::{Name, Text};

/// A value whose type guarantees a form.
pub trait Formed {
    /// The form.
    ghost form: { Self → Type 0 };

    /// The value has the form.
    fn has_form(&self)
        ensures { form self.now };
}

/// Each of the items has the form that its type keeps.
pub fn each_has_form<T: Formed>(items: &[T])
    ensures { All T.form items.now }
{
    for item in items {
        item.has_form();
    }
}

impl Formed for Name {
    ghost form = { IsName };

    fn has_form(&self) {
        self.as_bytes();
    }
}

impl Formed for Text {
    ghost form = { IsText };

    fn has_form(&self) {
        self.as_bytes();
    }
}

impl Formed for ValueText {
    ghost form = { IsValueText };

    fn has_form(&self) {
        self.value.mantissa();
        self.text.has_form();
    }
}

impl Formed for ValueTexts {
    ghost form = { KeepsTexts };

    fn has_form(&self) {
        each_has_form(self.as_slice());
    }
}

impl Formed for Layout {
    ghost form = { IsLayout };

    fn has_form(&self) {
        u32::from(self.start);
        self.size.bits();
    }
}

impl Formed for Mux {
    ghost form = { IsMux };

    fn has_form(&self) {
        match self {
            Mux::Always | Mux::Multiplexor => {}
            Mux::Under(value) => {
                u64::from(*value);
            }
        }
    }
}

impl Formed for Signal {
    ghost form = { KeepsSignal };

    fn has_form(&self) {
        self.name.has_form();
        self.layout.has_form();
        self.mux.has_form();
        self.factor.mantissa();
        self.offset.mantissa();
        self.minimum.mantissa();
        self.maximum.mantissa();
        self.unit.has_form();
        each_has_form(self.receivers.as_slice());
        self.comment.has_form();
        self.spn.number();
        self.values.has_form();
    }
}

impl Formed for Message {
    ghost form = { KeepsMessage };

    fn has_form(&self) {
        self.ident.to_dbc();
        self.name.has_form();
        self.length.bytes();
        if let Some(transmitter) = &self.transmitter {
            transmitter.has_form();
        }
        self.comment.has_form();
        each_has_form(self.signals.as_slice());
    }
}

impl Formed for Node {
    ghost form = { IsNode };

    fn has_form(&self) {
        self.name.has_form();
        self.comment.has_form();
    }
}

impl Formed for ValueTable {
    ghost form = { KeepsTable };

    fn has_form(&self) {
        self.name.has_form();
        self.entries.has_form();
    }
}

/// Every sheet is well formed: each part has its form, names and numbers are unique, messages are in ascending order of
/// their numbers, and the limits are kept.
pub fn sheets_are_well_formed(sheet: &Sheet)
    ensures { IsSheet sheet.now }
{
    sheet.version().has_form();
    sheet.comment().has_form();
    each_has_form(sheet.nodes());
    each_has_form(sheet.tables());
    each_has_form(sheet.messages());
}
