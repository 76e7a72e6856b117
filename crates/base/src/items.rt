//! A vector that contracts see as a list.
ghost use Rattle.std.specs.Prelude.{◌≡◌, ◌++◌, ◌∷◌, [], ◌<◌, ◌≤◌, Bool, List, length, OnOk, OnErr, filter};
ghost use Rattle.std.specs.Prelude.{insert, remove, slice_get, slice_set};
ghost use Rattle.std.specs.Fn.{CalledAt};
ghost use Rattle.std.specs.List.Retain.{IsFiltered};
ghost use Rattle.base.specs.Retain.{AnswersAs};

use std::alloc::{AllocError, Global};
use std::marker::Model;
use std::mem::replace;

/// A vector that contracts see as the list of its items, so that two of them are compared by what they hold
/// and not by the memory that they reserve.
pub struct Items<T> {
    items: Vec<T>,
}

impl<T> Model for Items<T> {
    ghost Value = { List T };

    ghost view = { λ s. s.items.items };
}

impl<T> Items<T> {
    /// No items. Takes no memory.
    pub fn new(alloc: Global) -> Self
        ensures { result ≡ [] }
    {
        Items {
            items: Vec::new(alloc),
        }
    }

    /// The items of a vector. Takes no memory.
    pub fn from_vec(items: Vec<T>) -> Self
        ensures { result ≡ items.items }
    {
        Items { items }
    }

    /// The vector of the items. Takes no memory.
    pub fn into_vec(self) -> Vec<T>
        ensures { result.items ≡ self }
    {
        let Items { items } = self;
        items
    }

    /// The items, in order.
    pub fn as_slice(&self) -> &[T]
        ensures { result.now ≡ self.now }
    {
        &self.items
    }
}

impl<T: Drop> Items<T> {
    /// Adds an item at the end. When memory runs out, nothing changes.
    pub fn push(&mut self, item: T) -> Result<(), AllocError>
        ensures ok { OnOk result (self.new ≡ self.old ++ item ∷ []) }
        ensures err { OnErr result (self.new ≡ self.old) }
    {
        self.items.push(item)?;
        Ok(())
    }

    /// Adds an item before the one at `at`, from 0. When memory runs out, nothing changes.
    pub fn insert(&mut self, at: usize, item: T) -> Result<(), AllocError>
        requires { at ≤ length self.old }
        ensures ok { OnOk result (self.new ≡ insert self.old at item) }
        ensures err { OnErr result (self.new ≡ self.old) }
    {
        self.items.insert(at, item)?;
        Ok(())
    }

    /// Removes the item at `at`, from 0.
    pub fn remove(&mut self, at: usize) -> T
        requires { at < length self.old }
        ensures item { slice_get self.old at ≡ Some result }
        ensures rest { self.new ≡ remove self.old at }
    {
        self.items.remove(at)
    }

    /// Replaces the item at `at`, from 0, by this one.
    pub fn replace(&mut self, at: usize, item: T)
        requires { at < length self.old }
        ensures { self.new ≡ slice_set self.old at item }
    {
        self.items[at] = item;
    }

    /// Keeps the items at which the test answers true, in order, and drops the others. It is called at each item in
    /// turn. Takes no memory.
    pub fn retain<F: FnMut(&T) -> bool>(&mut self, test: F)
        requires { F.IsAlwaysCallable test }
        ensures called { IsFiltered (CalledAt F.FnMut) test self.old self.new }
        ensures kept { (passes : T → Bool) → AnswersAs F.FnMut test passes
            → self.new ≡ filter passes self.old }
    {
        self.items.retain(test);
    }

    /// Takes all items out. Takes no memory.
    pub fn take(&mut self) -> Items<T>
        ensures items { result ≡ self.old }
        ensures rest { self.new ≡ [] }
    {
        let alloc = *self.items.allocator();
        Items {
            items: replace(&mut self.items, Vec::new(alloc)),
        }
    }
}

impl<T: PartialEq> PartialEq for Items<T> {
    ghost use Rattle.std.specs.Cmp.Lexicographic.{pointwise, lists_per};

    ghost eq = { pointwise T.eq };

    ghost laws = { lists_per T.laws };

    fn eq(&self, other: &Items<T>) -> bool {
        self.items.as_slice() == other.items.as_slice()
    }
}

impl<T: Eq> Eq for Items<T> {
    ghost use Rattle.std.specs.Cmp.Lexicographic.{lists_equiv};

    ghost laws = { lists_equiv T.Eq.laws };
}

impl<T: Drop> Drop for Items<T> {
    fn drop(self) {
        let Items { items: _items } = self;
    }
}
