//! The set of the names of a list, for looking them up.
ghost use Rattle.std.specs.Prelude.{◌≡◌, ◌&&◌, ◌||◌, ℕ, List, false, not, OnOk, OnErr, IfOk};
ghost use Rattle.std.specs.Str.{bytes_eq};
ghost use Rattle.dbc_words.specs.Named.{holds_name};

use crate::name::Name;
use std::alloc::{AllocError, Global};
use std::collections::BTreeSet;

/// A set of names.
pub struct NameSet {
    names: BTreeSet<Name>,
}

impl NameSet {
    /// No names. Takes no memory.
    pub fn new(alloc: Global) -> NameSet
        ensures { (n : List ℕ) → holds_name result n ≡ false }
    {
        NameSet {
            names: BTreeSet::new(alloc),
        }
    }

    /// Whether the name is in the set.
    pub fn has(&self, name: &Name) -> bool
        ensures { result ≡ holds_name self.now name.now }
    {
        self.names.contains(name)
    }

    /// Adds the name, and answers whether it is new. When memory runs out, nothing changes.
    pub fn insert(&mut self, name: Name) -> Result<bool, AllocError>
        ensures new { IfOk result (λ new. new ≡ not (holds_name self.old name)) }
        ensures ok { OnOk result
            ((n : List ℕ) → holds_name self.new n ≡ (bytes_eq name n || holds_name self.old n)) }
        ensures err { OnErr result ((n : List ℕ) → holds_name self.new n ≡ holds_name self.old n) }
    {
        Ok(self.names.insert(name)?)
    }

    /// Removes the name.
    pub fn remove(&mut self, name: &Name)
        ensures { (n : List ℕ) → holds_name self.new n
            ≡ (not (bytes_eq name.now n) && holds_name self.old n) }
    {
        self.names.remove(name);
    }

    /// Takes all names out.
    pub fn clear(&mut self)
        ensures { (n : List ℕ) → holds_name self.new n ≡ false }
    {
        self.names.clear();
    }

    /// A set of the same names.
    pub fn duplicate(&self) -> Result<NameSet, AllocError>
        ensures { IfOk result (λ copy. (n : List ℕ) → holds_name copy n ≡ holds_name self.now n) }
    {
        Ok(NameSet {
            names: self.names.clone()?,
        })
    }
}

impl Drop for NameSet {
    fn drop(self) {
        let NameSet { names: _names } = self;
    }
}
