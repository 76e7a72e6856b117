//! A network, with what finds its messages by number and by name.
ghost use Rattle.std.specs.Prelude.{◌≡◌, IfOk};
ghost use Rattle.std.specs.List.{list_any};
ghost use Rattle.dbc_sheet.specs.Same.{same_message};
ghost use Rattle.office_rules.specs.Facts.{is_held, is_live, is_named};
ghost use Rattle.office_rules.specs.Importing.{is_live_so};

use crate::names::live_names;
use crate::searching::Searching;
use can_id::Ident;
use dbc_sheet::{Message, same_messages_are_equal};
use dbc_words::Name;
use office_types::{LiveMessage, Net};
use std::alloc::{AllocError, Global};
use std::collections::BTreeSet;
use std::marker::Model;

/// Whether one of the live messages is equal to this one.
fn has_equal(live: &[LiveMessage], message: &Message) -> bool
    ensures { result ≡ list_any (λ l. same_message l.message message.now) live.now }
{
    live.iter().any(|live| live.message == *message)
}

/// A network, with what finds its messages by number and by name without a walk over them. Contracts see it as the
/// network.
pub(crate) struct LiveIndex<'a> {
    net: &'a Net,
    live: Searching<'a, LiveMessage>,
    held: Searching<'a, Ident>,
    names: BTreeSet<Name>,
}

impl<'a> Model for LiveIndex<'a> {
    ghost use Rattle.std.specs.Prelude.{◌≡◌, ℕ, List};
    ghost use Rattle.std.specs.BTreeSet.{contains};
    ghost use Rattle.base.specs.Keyed.{text_cmp};
    ghost use Rattle.dbc_words.specs.Named.{has_name};
    ghost use Rattle.office_types.specs.declared.state.Net.{Net};
    ghost use Rattle.office_rules.specs.Facts.{live_name};

    ghost Value = { Net };

    ghost view = { λ index. index.net.now };

    ghost invariant = { λ index. (index.live ≡ index.net.now.live) × (index.held ≡ index.net.now.held)
        × ((n : List ℕ) → contains text_cmp index.names n ≡ has_name live_name index.net.now.live n) };
}

impl<'a> LiveIndex<'a> {
    /// The index of the network. The error is out of memory.
    pub(crate) fn of(alloc: Global, net: &'a Net) -> Result<LiveIndex<'a>, AllocError>
        ensures { IfOk result (λ index. index ≡ net.now) }
    {
        let live = net.live.as_slice();
        let names = live_names(alloc, live)?;
        Ok(LiveIndex {
            net,
            live: Searching::of(live),
            held: Searching::of(net.held.as_slice()),
            names,
        })
    }

    /// The network.
    pub(crate) fn net(&self) -> &'a Net
        ensures { result.now ≡ self.now }
    {
        self.net
    }

    /// Whether a live message has the identifier.
    pub(crate) fn is_live(&self, ident: Ident) -> bool
        ensures { result ≡ is_live self.now ident }
    {
        self.live.has(ident)
    }

    /// Whether a live message is equal to this one.
    pub(crate) fn is_live_so(&self, message: &Message) -> bool
        ensures { result ≡ is_live_so self.now message.now }
    {
        same_messages_are_equal();
        has_equal(self.live.of_number(message.number()), message)
    }

    /// Whether the identifier is held.
    pub(crate) fn is_held(&self, ident: Ident) -> bool
        ensures { result ≡ is_held self.now ident }
    {
        self.held.has(ident)
    }

    /// Whether a live message has the name.
    pub(crate) fn is_named(&self, name: &Name) -> bool
        ensures { result ≡ is_named self.now name.now }
    {
        self.names.contains(name)
    }
}

impl Drop for LiveIndex<'_> {
    fn drop(self) {
        let LiveIndex {
            net: _net,
            live: _live,
            held: _held,
            names: _names,
        } = self;
    }
}
