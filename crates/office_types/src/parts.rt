//! The parts of a bundle.
ghost use Rattle.std.specs.Prelude.{◌≡◌, length, SomeIff};
ghost use Rattle.office_types.specs.Parts.{AreParts};

use base::{Copying, Items};
use std::alloc::{AllocError, Global};
use std::marker::Model;

/// The greatest number of parts of a bundle.
pub const PART_LIMIT: usize = 64;

/// 1 to [`PART_LIMIT`] things, one for each part of a bundle, in order. Contracts see them as a list.
pub struct Parts<T> {
    things: Items<T>,
}

impl<T> Model for Parts<T> {
    ghost use Rattle.std.specs.Prelude.{List};
    ghost use Rattle.office_types.specs.Parts.{AreParts};

    ghost Value = { List T };

    ghost view = { λ parts. parts.things };

    ghost invariant = { λ parts. AreParts parts.things };
}

impl<T: Drop> Parts<T> {
    /// The parts of these things, or `None` where there is none or more than [`PART_LIMIT`]. Takes no memory.
    pub fn of(things: Items<T>) -> Option<Parts<T>>
        ensures { SomeIff result (AreParts things) things }
    {
        let count = things.as_slice().len();
        if count == 0 || count > PART_LIMIT {
            return None;
        }
        Some(Parts { things })
    }

    /// The parts of these things. Takes no memory.
    pub fn from_items(things: Items<T>) -> Parts<T>
        requires { AreParts things }
        ensures { result ≡ things }
    {
        Parts { things }
    }
}

impl<T> Parts<T> {
    /// The things, in order.
    pub fn as_slice(&self) -> &[T]
        ensures things { result.now ≡ self.now }
        ensures parts { AreParts self.now }
    {
        self.things.as_slice()
    }

    /// How many there are, 1 to [`PART_LIMIT`].
    pub fn count(&self) -> u32
        ensures count { result ≡ length self.now }
        ensures parts { AreParts self.now }
    {
        self.as_slice().len() as u32
    }
}

impl<T: Copying + Drop> Copying for Parts<T> {
    fn duplicate(&self, alloc: Global) -> Result<Self, AllocError> {
        Ok(Parts {
            things: self.things.duplicate(alloc)?,
        })
    }
}

impl<T: PartialEq> PartialEq for Parts<T> {
    ghost use Rattle.std.specs.Cmp.Lexicographic.{pointwise, lists_per};

    ghost eq = { pointwise T.eq };

    ghost laws = { lists_per T.laws };

    fn eq(&self, other: &Parts<T>) -> bool {
        self.things == other.things
    }
}

impl<T: Eq> Eq for Parts<T> {
    ghost use Rattle.std.specs.Cmp.Lexicographic.{lists_equiv};

    ghost laws = { lists_equiv T.Eq.laws };
}

impl<T: Drop> Drop for Parts<T> {
    fn drop(self) {
        let Parts { things: _things } = self;
    }
}
