//! Named tables of texts for values.
use crate::value_texts::ValueTexts;
use base::Copying;
use dbc_words::{Name, Named};
use std::alloc::{AllocError, Global};

/// A named table of texts for values. No signal refers to it: signals have lists of their own.
#[derive(PartialEq, Eq)]
pub struct ValueTable {
    /// The table's name.
    pub name: Name,
    /// The values with their texts.
    pub entries: ValueTexts,
}

impl Named for ValueTable {
    ghost name_of = { λ table. table.name };

    fn name(&self) -> &Name {
        &self.name
    }
}

impl Copying for ValueTable {
    fn duplicate(&self, alloc: Global) -> Result<Self, AllocError> {
        Ok(ValueTable {
            name: self.name.duplicate(alloc)?,
            entries: self.entries.duplicate(alloc)?,
        })
    }
}

impl Drop for ValueTable {
    fn drop(self) {
        let ValueTable {
            name: _name,
            entries: _entries,
        } = self;
    }
}
