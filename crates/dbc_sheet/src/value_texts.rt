//! Texts for the values of a signal, or of a value table.
ghost use Rattle.std.specs.Prelude.{◌≡◌, ◌≤◌, [], length, SomeIff};
ghost use Rattle.dbc_words.specs.Limits.{value_text_limit};

use base::{Copying, Items, duplicates};
use dbc_words::{Text, VALUE_TEXT_LIMIT};
use decimal::Decimal;
use std::alloc::{AllocError, Global};
use std::marker::Model;

/// A value, and the text that describes it.
#[derive(PartialEq, Eq)]
pub struct ValueText {
    /// The value.
    pub value: Decimal,
    /// The text.
    pub text: Text,
}

impl Copying for ValueText {
    fn duplicate(&self, alloc: Global) -> Result<Self, AllocError> {
        Ok(ValueText {
            value: self.value,
            text: self.text.duplicate(alloc)?,
        })
    }
}

/// At most [`VALUE_TEXT_LIMIT`] values with their texts, in the order in which they are written; a value may occur
/// twice. Contracts see it as the list of them.
#[derive(PartialEq, Eq)]
pub struct ValueTexts {
    entries: Items<ValueText>,
}

impl Model for ValueTexts {
    ghost use Rattle.std.specs.Prelude.{◌≤◌, List, length};
    ghost use Rattle.dbc_words.specs.Limits.{value_text_limit};
    ghost use Rattle.dbc_sheet.specs.declared.value_texts.ValueText.{ValueText};

    ghost Value = { List ValueText };

    ghost view = { λ texts. texts.entries };

    ghost invariant = { λ texts. length texts.entries ≤ value_text_limit };

    ghost inverse = { λ entries. record { entries = entries } };
}

impl ValueTexts {
    /// No texts. Takes no memory.
    pub fn empty(alloc: Global) -> ValueTexts
        ensures { result ≡ [] }
    {
        ValueTexts {
            entries: Items::new(alloc),
        }
    }

    /// The list of these entries, or `None` if there are more than [`VALUE_TEXT_LIMIT`]. Takes no memory.
    pub fn of(entries: Vec<ValueText>) -> Option<ValueTexts>
        ensures { SomeIff result (length entries.items ≤ value_text_limit) entries.items }
    {
        if entries.len() > VALUE_TEXT_LIMIT {
            return None;
        }
        Some(ValueTexts {
            entries: Items::from_vec(entries),
        })
    }

    /// The entries, in order.
    pub fn as_slice(&self) -> &[ValueText]
        ensures entries { result.now ≡ self.now }
        ensures few { length self.now ≤ value_text_limit }
    {
        self.entries.as_slice()
    }
}

impl Copying for ValueTexts {
    fn duplicate(&self, alloc: Global) -> Result<Self, AllocError> {
        Ok(ValueTexts {
            entries: self.entries.duplicate(alloc)?,
        })
    }
}

impl Drop for ValueText {
    fn drop(self) {
        let ValueText {
            value: _value,
            text: _text,
        } = self;
    }
}

impl Drop for ValueTexts {
    fn drop(self) {
        let ValueTexts { entries: _entries } = self;
    }
}
