//! Lists of things with unique names, such as the nodes of a sheet or the signals of a message.
ghost use Rattle.std.specs.Prelude.{◌≡◌, ◌≤◌, ◌++◌, ◌∷◌, [], ℕ, List, None, length, nat_le, false, position, IfErr};
ghost use Rattle.std.specs.Prelude.{IfOk, OnOk, OnErr, SomeIff};
ghost use Rattle.std.specs.Str.{bytes_eq};
ghost use Rattle.base.specs.Refusing.{first_refusal};
ghost use Rattle.dbc_words.specs.Changing.{ChangesAs, KeepsName};
ghost use Rattle.dbc_words.specs.Fault.{IsRefusal};
ghost use Rattle.dbc_words.specs.Limits.{roster_limit};
ghost use Rattle.dbc_words.specs.Named.{AreNamedApart, at_named, has_name, roster_tests, thing_named, without_named};

use crate::fault::SheetCode;
use crate::limits::ROSTER_LIMIT;
use crate::name::Name;
use crate::name_index::{
    NameIndex, add_name, copy_index, index_apart, make_index, one_has_name, remove_name,
};
use base::{Copying, duplicates};
use std::alloc::{AllocError, Global};
use std::marker::Model;

/// A thing that has a name.
pub trait Named {
    /// The bytes of the name.
    ghost name_of: { Self → List ℕ };

    /// The name.
    fn name(&self) -> &Name
        ensures { result.now ≡ name_of self.now };
}

/// At most [`ROSTER_LIMIT`] things in the order in which they were added, no two with the same name. Contracts see it
/// as the list of them. Unless they are few, an index of the names shows whether a name is there without a walk over
/// them.
pub struct Roster<T: Named> {
    things: Vec<T>,
    names: NameIndex,
}

impl<T: Named> Model for Roster<T> {
    ghost use Rattle.std.specs.Prelude.{List};
    ghost use Rattle.dbc_words.specs.Named.{IsRoster};

    ghost Value = { List T };

    ghost view = { λ r. r.things.items };

    ghost invariant = { λ r. IsRoster T.name_of r.things.items r.names };
}

impl<T: Named> Roster<T> {
    /// Nothing yet. Takes no memory.
    pub fn new(alloc: Global) -> Roster<T>
        ensures { result ≡ [] }
    {
        Roster {
            things: Vec::new(alloc),
            names: None,
        }
    }

    /// The things, in the order in which they were added.
    pub fn as_slice(&self) -> &[T]
        ensures things { result.now ≡ self.now }
        ensures apart { AreNamedApart T.name_of self.now }
        ensures few { length self.now ≤ roster_limit }
    {
        &self.things
    }

    /// Whether one of them has the name.
    pub fn has_name(&self, name: &Name) -> bool
        ensures { result ≡ has_name T.name_of self.now name.now }
    {
        match &self.names {
            Some(names) => names.has(name),
            None => one_has_name(&self.things, name),
        }
    }

    /// The index of the thing of the name.
    fn index_of(&self, name: &Name) -> Option<usize>
        ensures { result ≡ position (λ thing. bytes_eq (T.name_of thing) name.now) self.now }
    {
        self.things.iter().position(|thing| thing.name() == name)
    }

    /// Whether there is no room for one more.
    pub fn is_full(&self) -> bool
        ensures { result ≡ nat_le roster_limit (length self.now) }
    {
        self.things.len() >= ROSTER_LIMIT
    }

    /// Why a thing of this name can't be added, in this order: [`SheetCode::TooMany`] where there are [`ROSTER_LIMIT`],
    /// [`SheetCode::DoubleName`] where one of them has the name.
    pub fn refusal(&self, name: &Name) -> Option<SheetCode>
        ensures { result ≡ first_refusal (roster_tests T.name_of self.now name.now) }
    {
        if self.is_full() {
            Some(SheetCode::TooMany)
        } else if self.has_name(name) {
            Some(SheetCode::DoubleName)
        } else {
            None
        }
    }
}

impl<T: Named> Roster<T> {
    /// Changes the thing of the name, all but its name, and answers whether there is one. Takes no memory.
    pub fn change<C: FnOnce(&mut T)>(&mut self, name: &Name, change: C) -> bool
        requires callable { C.IsAlwaysCallable change }
        requires named { KeepsName C.FnOnce change T.name_of }
        ensures there { result ≡ has_name T.name_of self.old name.now }
        ensures changed { (after : T → T) → ChangesAs C.FnOnce change after
            → self.new ≡ at_named T.name_of after name.now self.old }
    {
        match self.index_of(name) {
            Some(at) => {
                change(&mut self.things[at]);
                true
            }
            None => false,
        }
    }

    /// Removes the thing with the name, or returns `None` and changes nothing if there is none. Takes no memory.
    pub fn remove(&mut self, name: &Name) -> Option<T>
        ensures found { result ≡ thing_named T.name_of self.old name.now }
        ensures rest { self.new ≡ without_named T.name_of self.old name.now }
        ensures apart { AreNamedApart T.name_of self.old }
    {
        match self.index_of(name) {
            Some(at) => {
                let thing = self.things.remove(at);
                remove_name(name, &mut self.names);
                Some(thing)
            }
            None => None,
        }
    }
}

impl<T: Named + Drop> Roster<T> {
    /// The things of a vector, in its order, or `None` where they can't be in one roster: more than [`ROSTER_LIMIT`],
    /// or two of one name. None of them is copied or moved one by one. The error is out of memory.
    pub fn of(alloc: Global, things: Vec<T>) -> Result<Option<Roster<T>>, AllocError>
        ensures { IfOk result (λ found. SomeIff found
            (AreNamedApart T.name_of things.items × (length things.items ≤ roster_limit))
            things.items) }
    {
        if things.len() > ROSTER_LIMIT {
            return Ok(None);
        }
        match index_apart(alloc, &things)? {
            Some(names) => Ok(Some(Roster { things, names })),
            None => Ok(None),
        }
    }

    /// Adds a thing that isn't refused. When memory runs out, nothing changes.
    pub fn push(&mut self, alloc: Global, thing: T) -> Result<(), AllocError>
        requires room { nat_le roster_limit (length self.old) ≡ false }
        requires new { has_name T.name_of self.old (T.name_of thing) ≡ false }
        ensures ok { OnOk result (self.new ≡ self.old ++ thing ∷ []) }
        ensures err { OnErr result (self.new ≡ self.old) }
    {
        make_index(alloc, &self.things, &mut self.names)?;
        self.things.reserve(1)?;
        add_name(alloc, thing.name(), &mut self.names)?;
        self.things.push_reserved(thing);
        Ok(())
    }

    /// Adds a thing as the last one. It is refused, and nothing changes, with what [`Roster::refusal`] says.
    /// [`SheetCode::Memory`] is out of memory, and nothing changes either.
    pub fn add(&mut self, alloc: Global, thing: T) -> Result<(), SheetCode>
        ensures ok { OnOk result (self.new ≡ self.old ++ thing ∷ []) }
        ensures allowed { OnOk result
            (first_refusal (roster_tests T.name_of self.old (T.name_of thing)) ≡ None) }
        ensures refused { IfErr result
            (IsRefusal (first_refusal (roster_tests T.name_of self.old (T.name_of thing)))) }
        ensures err { OnErr result (self.new ≡ self.old) }
    {
        if let Some(code) = self.refusal(thing.name()) {
            return Err(code);
        }
        self.push(alloc, thing)?;
        Ok(())
    }
}

impl<T: Named + Copying + Drop> Copying for Roster<T> {
    fn duplicate(&self, alloc: Global) -> Result<Self, AllocError> {
        Ok(Roster {
            things: duplicates(alloc, &self.things)?,
            names: copy_index(&self.names)?,
        })
    }
}

impl<T: Named + PartialEq> PartialEq for Roster<T> {
    ghost use Rattle.std.specs.Cmp.Lexicographic.{pointwise, lists_per};

    ghost eq = { pointwise T.eq };

    ghost laws = { lists_per T.laws };

    fn eq(&self, other: &Roster<T>) -> bool {
        self.things.as_slice() == other.things.as_slice()
    }
}

impl<T: Named + Eq> Eq for Roster<T> {
    ghost use Rattle.std.specs.Cmp.Lexicographic.{lists_equiv};

    ghost laws = { lists_equiv T.Eq.laws };
}

impl<T: Named + Drop> Drop for Roster<T> {
    fn drop(self) {
        let Roster {
            things: _things,
            names: _names,
        } = self;
    }
}
