//! A whole sheet, with what is looked up in it.
ghost use Rattle.std.specs.Prelude.{◌≡◌, ◌≤◌, ◌<◌, ◌^◌, ◌+◌, ◌++◌, IfOk, OnOk, cond, count_by, map};
ghost use Rattle.std.specs.List.{flat_map};
ghost use Rattle.std.specs.Option.{option_copied};
ghost use Rattle.dbc_words.specs.Named.{HasNamesOf, has_name};
ghost use Rattle.dbc_sheet.specs.Sheet.{node_name};
ghost use Rattle.dbc_sheet.specs.declared.signal.Signal as of_signal;
ghost use Rattle.dbc_lint.specs.OfMessage.{is_over_8};
ghost use Rattle.dbc_lint.specs.OfNode.{is_idle, names_of_message, names_used};
ghost use Rattle.dbc_lint.specs.OfSpn.{first_place, places};
ghost use Rattle.dbc_lint.specs.Whole.{text_of};

use crate::spn_places::{FirstPlaces, SpnPlace};
use base::Copying;
use dbc_sheet::{Message, Node, Sheet, Signal};
use dbc_words::{Name, NameSet};
use std::alloc::{AllocError, Global};
use std::marker::Model;

/// A sheet with its nodes, the nodes that send or receive, the first places of suspect parameter numbers and the number
/// of long messages at hand. Contracts see the sheet.
pub(crate) struct Whole<'s> {
    sheet: &'s Sheet,
    nodes: NameSet,
    used: NameSet,
    spns: FirstPlaces<'s>,
    over_8: usize,
}

impl<'s> Model for Whole<'s> {
    ghost use Rattle.dbc_sheet.specs.declared.sheet.Sheet.{Sheet};
    ghost use Rattle.dbc_lint.specs.Whole.{IsOfSheet};

    ghost Value = { Sheet };

    ghost view = { λ w. w.sheet.now };

    ghost invariant = { λ w. IsOfSheet w.sheet.now w.nodes w.used w.spns w.over_8 };
}

/// The set of the names of the nodes.
fn names_of_nodes(alloc: Global, nodes: &[Node]) -> Result<NameSet, AllocError>
    ensures { IfOk result (λ names. HasNamesOf node_name nodes.now names) }
{
    let mut names = NameSet::new(alloc);
    for node in nodes {
        names.insert(node.name.duplicate(alloc)?)?;
    }
    Ok(names)
}

/// The set of these names.
fn set_of(alloc: Global, names: &[&Name]) -> Result<NameSet, AllocError>
    ensures { IfOk result (λ set. HasNamesOf text_of names.now set) }
{
    let mut set = NameSet::new(alloc);
    for name in names {
        set.insert(name.duplicate(alloc)?)?;
    }
    Ok(set)
}

/// Adds more names.
fn add_each<'s>(more: &'s [Name], names: &mut Vec<&'s Name>) -> Result<(), AllocError>
    ensures { OnOk result (map text_of names.new.items ≡ map text_of names.old.items ++ more.now) }
{
    for one in more {
        names.push(one)?;
    }
    Ok(())
}

/// Adds the receivers of the signals.
fn add_receivers<'s>(signals: &'s [Signal], names: &mut Vec<&'s Name>) -> Result<(), AllocError>
    ensures { OnOk result (map text_of names.new.items ≡ map text_of names.old.items
        ++ flat_map (λ (s : of_signal.Signal). s.receivers) signals.now) }
{
    for signal in signals {
        add_each(signal.receivers.as_slice(), names)?;
    }
    Ok(())
}

/// Adds the transmitter of the message and the receivers of its signals.
fn add_names<'s>(message: &'s Message, names: &mut Vec<&'s Name>) -> Result<(), AllocError>
    ensures { OnOk result (map text_of names.new.items ≡ map text_of names.old.items
        ++ names_of_message message.now) }
{
    if let Some(transmitter) = &message.transmitter {
        names.push(transmitter)?;
    }
    add_receivers(message.signals.as_slice(), names)
}

/// The names of the nodes that send or receive.
fn names_used(alloc: Global, messages: &[Message]) -> Result<Vec<&Name>, AllocError>
    ensures { IfOk result (λ names. map text_of names.items ≡ names_used messages.now) }
{
    let mut names = Vec::new(alloc);
    for message in messages {
        add_names(message, &mut names)?;
    }
    Ok(names)
}

/// How many bytes a frame of classical CAN carries.
const CLASSICAL_LIMIT: u16 = 8;

/// Whether the message has more than 8 bytes.
pub(crate) fn is_over_8(message: &Message) -> bool
    ensures { result ≡ is_over_8 message.now }
{
    message.length.bytes() > CLASSICAL_LIMIT
}

/// One more than the count, if the test holds.
fn one_more_if(count: usize, holds: bool) -> usize
    requires { count + 1 < 2 ^ 64 }
    ensures is { result ≡ count + cond holds 1 0 }
    ensures few { result ≤ count + 1 }
{
    if holds { count + 1 } else { count }
}

/// How many of the messages have more than 8 bytes.
fn count_over_8(messages: &[Message]) -> usize
    ensures { result ≡ count_by is_over_8 messages.now }
{
    let mut count = 0;
    for message in messages {
        count = one_more_if(count, is_over_8(message));
    }
    count
}

impl<'s> Whole<'s> {
    /// The sheet with what is looked up in it. The error is out of memory.
    pub(crate) fn of(alloc: Global, sheet: &'s Sheet) -> Result<Whole<'s>, AllocError>
        ensures { IfOk result (λ whole. whole ≡ sheet.now) }
    {
        let used = names_used(alloc, sheet.messages())?;
        Ok(Whole {
            sheet,
            nodes: names_of_nodes(alloc, sheet.nodes())?,
            used: set_of(alloc, &used)?,
            spns: FirstPlaces::of(alloc, sheet.messages())?,
            over_8: count_over_8(sheet.messages()),
        })
    }

    /// The sheet.
    pub(crate) fn sheet(&self) -> &'s Sheet
        ensures { result.now ≡ self.now }
    {
        self.sheet
    }

    /// Whether the sheet has a node of the name.
    pub(crate) fn has_node(&self, name: &Name) -> bool
        ensures { result ≡ has_name node_name self.now.nodes name.now }
    {
        self.nodes.has(name)
    }

    /// Whether a node of the name neither sends nor receives.
    pub(crate) fn is_idle(&self, name: &Name) -> bool
        ensures { result ≡ is_idle self.now name.now }
    {
        !self.used.has(name)
    }

    /// The first signal of the sheet that has the suspect parameter number.
    pub(crate) fn first_place(&self, number: u32) -> Option<&SpnPlace<'s>>
        ensures { option_copied result ≡ first_place (places self.now.messages) number }
    {
        self.spns.get(number)
    }

    /// How many messages have more than 8 bytes.
    pub(crate) fn over_8(&self) -> usize
        ensures { result ≡ count_by is_over_8 self.now.messages }
    {
        self.over_8
    }
}

impl Drop for Whole<'_> {
    fn drop(self) {
        let Whole {
            sheet: _sheet,
            nodes: _nodes,
            used: _used,
            spns: _spns,
            over_8: _over_8,
        } = self;
    }
}
