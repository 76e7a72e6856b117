//! Values that are handed out one by one, such as those that statements attach to signals.
ghost use Rattle.std.specs.Prelude.{◌≡◌, drop};
ghost use Rattle.dbc_read.specs.Built.{first_or};

use base::Items;
use dbc_statements::Entries;
use dbc_words::{Spn, Text, ValueType};
use std::marker::Model;
use std::vec::IntoIter;

/// Values that are handed out one by one, from the first on. Contracts see those that are left.
#[derive(Drop)]
pub(crate) struct Feed<T> {
    left: IntoIter<T>,
}

impl<T> Model for Feed<T> {
    ghost use Rattle.std.specs.Prelude.{List};
    ghost use Rattle.std.specs.Vec.Iter.{into_iter_items};

    ghost Value = { List T };

    ghost view = { λ feed. into_iter_items feed.left };
}

impl<T> Feed<T> {
    /// A feed of these values.
    pub(crate) fn of(items: Items<T>) -> Feed<T>
        ensures { result ≡ items }
    {
        Feed {
            left: items.into_vec().into_iter(),
        }
    }
}

impl<T: Drop> Feed<T> {
    /// The next value, or `other` if none is left.
    pub(crate) fn next_or(&mut self, other: T) -> T
        ensures value { result ≡ first_or other self.old }
        ensures rest { self.new ≡ drop 1 self.old }
    {
        match self.left.next() {
            Some(value) => value,
            None => other,
        }
    }
}

/// What statements attach to the signals that are left.
pub(crate) struct Feeds {
    /// Their comments.
    pub comments: Feed<Text>,
    /// Texts for their values.
    pub values: Feed<Entries>,
    /// Their types.
    pub types: Feed<ValueType>,
    /// Their suspect parameter numbers.
    pub spns: Feed<Spn>,
}

impl Drop for Feeds {
    fn drop(self) {
        let Feeds {
            comments: _comments,
            values: _values,
            types: _types,
            spns: _spns,
        } = self;
    }
}
