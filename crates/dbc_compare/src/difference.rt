//! What differs.
ghost use Rattle.std.specs.Prelude.{◌≡◌, IfOk};

use crate::field::SheetField;
use crate::place::Region;
use base::{Copying, Items};
use dbc_words::Name;
use std::alloc::{AllocError, Global};

/// What has become of a thing.
#[derive(Drop)]
pub enum Alteration {
    /// It is in the new sheet alone.
    Added,
    /// It is in the old sheet alone.
    Removed,
    /// The things that are in both sheets are in another order.
    Reordered,
    /// A field has another value.
    Changed {
        /// The field.
        field: SheetField,
        /// Whether a receiver that was built for the old sheet reads otherwise now, or nothing.
        breaks: bool,
        /// What it had, as a word.
        old: Items<u8>,
        /// What it has, as a word.
        new: Items<u8>,
    },
}

impl Alteration {
    ghost use Rattle.dbc_compare.specs.List.{change_word};

    /// The word that its text begins with.
    pub fn word(&self) -> &'static [u8]
        ensures { result.now ≡ change_word self.now }
    {
        match self {
            Alteration::Added => b"added",
            Alteration::Removed => b"removed",
            Alteration::Reordered => b"reordered",
            Alteration::Changed { field, .. } => field.word(),
        }
    }
}

/// A difference of two sheets.
pub struct Difference {
    /// Where it is.
    pub place: Region,
    /// The node, the value table or the signal in that place, if it is about one.
    pub name: Option<Name>,
    /// What differs.
    pub change: Alteration,
}

/// A copy of the bytes. The error is out of memory.
fn copied(alloc: Global, bytes: &Items<u8>) -> Result<Items<u8>, AllocError>
    ensures { IfOk result (λ copy. copy ≡ bytes.now) }
{
    Ok(Items::from_vec(Vec::from_slice(alloc, bytes.as_slice())?))
}

impl Copying for Alteration {
    fn duplicate(&self, alloc: Global) -> Result<Self, AllocError> {
        match self {
            Alteration::Added => Ok(Alteration::Added),
            Alteration::Removed => Ok(Alteration::Removed),
            Alteration::Reordered => Ok(Alteration::Reordered),
            Alteration::Changed {
                field,
                breaks,
                old,
                new,
            } => Ok(Alteration::Changed {
                field: *field,
                breaks: *breaks,
                old: copied(alloc, old)?,
                new: copied(alloc, new)?,
            }),
        }
    }
}

impl Drop for Difference {
    fn drop(self) {
        let Difference {
            place: _place,
            name: _name,
            change: _change,
        } = self;
    }
}
