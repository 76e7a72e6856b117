//! The nodes that receive a signal.
ghost use Rattle.std.specs.Prelude.{◌≡◌, ◌++◌, ◌∷◌, [], OnOk, OnErr};

use base::{Copying, duplicates};
use dbc_words::Name;
use std::alloc::{AllocError, Global};
use std::marker::Model;
use std::mem::replace;
use std::slice::from_ref;

/// Where the names are.
#[derive(Drop)]
enum Listed {
    Nothing,
    One(Name),
    Many(Vec<Name>),
}

/// The names of the nodes that receive a signal, in order; one may occur twice. Contracts see them as a list. One name,
/// as most signals have, takes no block of memory.
pub struct Receivers {
    listed: Listed,
}

impl Model for Receivers {
    ghost use Rattle.std.specs.Prelude.{ℕ, List};
    ghost use Rattle.dbc_sheet.specs.Receivers.{names_in};

    ghost Value = { List (List ℕ) };

    ghost view = { λ receivers. names_in receivers.listed };
}

impl Receivers {
    /// No names. Takes no memory.
    pub fn new() -> Receivers
        ensures { result ≡ [] }
    {
        Receivers {
            listed: Listed::Nothing,
        }
    }

    /// The names of a vector. Takes no memory.
    pub fn from_vec(names: Vec<Name>) -> Receivers
        ensures { result ≡ names.items }
    {
        Receivers {
            listed: Listed::Many(names),
        }
    }

    /// The names, in order.
    pub fn as_slice(&self) -> &[Name]
        ensures { result.now ≡ self.now }
    {
        match &self.listed {
            Listed::Nothing => &[],
            Listed::One(name) => from_ref(name),
            Listed::Many(names) => names.as_slice(),
        }
    }

    /// Adds a name at the end. When memory runs out, nothing changes.
    pub fn push(&mut self, alloc: Global, name: Name) -> Result<(), AllocError>
        ensures ok { OnOk result (self.new ≡ self.old ++ name ∷ []) }
        ensures err { OnErr result (self.new ≡ self.old) }
    {
        match replace(&mut self.listed, Listed::Nothing) {
            Listed::Nothing => {
                self.listed = Listed::One(name);
                Ok(())
            }
            Listed::One(first) => match Vec::with_capacity(alloc, 2) {
                Ok(mut names) => {
                    names.push_reserved(first);
                    names.push_reserved(name);
                    self.listed = Listed::Many(names);
                    Ok(())
                }
                Err(error) => {
                    self.listed = Listed::One(first);
                    Err(error)
                }
            },
            Listed::Many(mut names) => {
                let pushed = names.push(name);
                self.listed = Listed::Many(names);
                pushed?;
                Ok(())
            }
        }
    }
}

impl Copying for Receivers {
    fn duplicate(&self, alloc: Global) -> Result<Self, AllocError> {
        match &self.listed {
            Listed::Nothing => Ok(Receivers::new()),
            Listed::One(name) => Ok(Receivers {
                listed: Listed::One(name.duplicate(alloc)?),
            }),
            Listed::Many(names) => Ok(Receivers::from_vec(duplicates(alloc, names)?)),
        }
    }
}

impl PartialEq for Receivers {
    ghost use Rattle.std.specs.Str.{bytes_eq};
    ghost use Rattle.std.specs.Cmp.Lexicographic.{pointwise, lists_per};
    ghost use Rattle.std.proofs.Common.{rules};
    ghost use Rattle.std.specs.Cmp.Rules.{comparing};

    ghost eq = { pointwise bytes_eq };

    ghost laws = { lists_per (Prim.search (comparing, rules)) };

    fn eq(&self, other: &Receivers) -> bool {
        self.as_slice() == other.as_slice()
    }
}

impl Eq for Receivers {
    ghost use Rattle.std.specs.Cmp.Lexicographic.{lists_equiv};
    ghost use Rattle.std.proofs.Common.{rules};
    ghost use Rattle.std.specs.Cmp.Rules.{comparing};

    ghost laws = { lists_equiv (Prim.search (comparing, rules)) };
}

impl Drop for Receivers {
    fn drop(self) {
        let Receivers { listed: _listed } = self;
    }
}
