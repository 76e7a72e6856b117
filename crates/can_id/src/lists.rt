//! Identifiers in lists.
use crate::ident::Ident;
use base::{Copying, Keyed};
use std::alloc::{AllocError, Global};
use std::cmp::Ordering;

impl Copying for Ident {
    fn duplicate(&self, alloc: Global) -> Result<Self, AllocError> {
        Ok(*self)
    }
}

/// In the order of their DBC numbers: those of 11 bits before those of 29.
impl Keyed for Ident {
    ghost use Rattle.std.specs.Ordering.{on, nat_cmp};
    ghost use Rattle.can_id.specs.Ident.{dbc_number};
    ghost use Rattle.std.proofs.Common.{rules};
    ghost use Rattle.std.specs.Cmp.Rules.{comparing};

    ghost order = { on dbc_number nat_cmp };

    ghost ordered = { Prim.search (comparing, rules) };

    fn compare(&self, other: &Ident) -> Ordering {
        self.to_dbc().cmp(&other.to_dbc())
    }
}
