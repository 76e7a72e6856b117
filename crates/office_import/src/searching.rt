//! Things with identifiers, found by binary search where they are in order.
ghost use Rattle.std.specs.Prelude.{◌≡◌, Bool, true, IsTrue, IfOk, IfErr};
ghost use Rattle.std.specs.List.{list_any};
ghost use Rattle.base.specs.Ascending.{IsAt, IsGap};
ghost use Rattle.can_id.specs.declared.ident.Ident.{Ident};
ghost use Rattle.office_rules.specs.Facts.{same_ident};
ghost use Rattle.office_import.specs.Searching.{IsAscending, number_by};

use can_id::Ident;
use office_facts::same_ident;
use office_types::LiveMessage;
use std::marker::Model;

/// A thing with an identifier.
pub(crate) trait Identified {
    /// The identifier.
    ghost ident_of: { Self → Ident };

    /// The identifier.
    fn ident(&self) -> Ident
        ensures { result ≡ ident_of self.now };
}

impl Identified for Ident {
    ghost ident_of = { λ ident. ident };

    fn ident(&self) -> Ident {
        *self
    }
}

impl Identified for LiveMessage {
    ghost ident_of = { λ live. live.message.ident };

    fn ident(&self) -> Ident {
        self.message.ident
    }
}

/// Whether the DBC number of each thing is above that of the one before it.
fn is_ascending<T: Identified>(things: &[T]) -> bool
    ensures { IsTrue result → IsAscending T.ident_of things.now }
{
    for i in 1..things.len() {
        if things[i].ident().to_dbc() <= things[i - 1].ident().to_dbc() {
            return false;
        }
    }
    true
}

/// The index of the thing of the DBC number, or the index at which it would go.
fn search<T: Identified>(things: &[T], number: u32) -> Result<usize, usize>
    requires { IsAscending T.ident_of things.now }
    ensures found { IfOk result (IsAt (number_by T.ident_of) things.now number) }
    ensures absent { IfErr result (IsGap (number_by T.ident_of) things.now number) }
{
    things.binary_search_by_key(&number, |thing| thing.ident().to_dbc())
}

/// Whether one of the things has the identifier.
fn has_ident<T: Identified>(things: &[T], ident: &Ident) -> bool
    ensures { result ≡ list_any (λ x. same_ident (T.ident_of x) ident.now) things.now }
{
    things.iter().any(|thing| same_ident(thing.ident(), *ident))
}

/// A list of things with identifiers, and whether they are in ascending order of their DBC numbers. Contracts see it as
/// the list.
#[derive(Drop)]
pub(crate) struct Searching<'a, T: Identified> {
    things: &'a [T],
    ascending: bool,
}

impl<'a, T: Identified> Model for Searching<'a, T> {
    ghost use Rattle.std.specs.Prelude.{◌≡◌, true, List};
    ghost use Rattle.office_import.specs.Searching.{IsAscending};

    ghost Value = { List T };

    ghost view = { λ s. s.things.now };

    ghost invariant = { λ s. s.ascending ≡ true → IsAscending T.ident_of s.things.now };
}

impl<'a, T: Identified> Searching<'a, T> {
    /// The things, after a walk over them.
    pub(crate) fn of(things: &'a [T]) -> Searching<'a, T>
        ensures { result ≡ things.now }
    {
        Searching {
            things,
            ascending: is_ascending(things),
        }
    }

    /// Some of the things, among them all of this DBC number: at most one where they are in order, and else all.
    pub(crate) fn of_number(&self, number: u32) -> &'a [T]
        ensures { (test : T → Bool) → ((x : T) → test x ≡ true → number_by T.ident_of x ≡ number) →
            list_any test result.now ≡ list_any test self.now }
    {
        if !self.ascending {
            return self.things;
        }
        match search(self.things, number) {
            Ok(at) => &self.things[at..at + 1],
            Err(_) => &self.things[..0],
        }
    }

    /// Whether one of the things has the identifier.
    pub(crate) fn has(&self, ident: Ident) -> bool
        ensures { result ≡ list_any (λ x. same_ident (T.ident_of x) ident) self.now }
    {
        let things = self.of_number(ident.to_dbc());
        has_ident(things, &ident)
    }
}
