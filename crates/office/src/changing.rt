//! Changes of live messages and held identifiers, made at the index that binary search gives, and followed by the
//! network's index.
//!
//! Where the index can't follow a change, since memory runs out or because a message is replaced by one of another name
//! or identifier, it is dropped: then it is made anew when a command would use it.
ghost use Rattle.std.specs.Prelude.{◌≡◌, ◌<◌, ◌≤◌, OnOk, OnErr, Some, insert, length, slice_set};
ghost use Rattle.std.specs.List.Sorted.{IsStrictlySortedBy};
ghost use Rattle.office_types.specs.State.{by_number};
ghost use Rattle.office_types.specs.declared.change.Change.TheVariants.{AddSignal, RemoveSignal, SetSpn, SetValues};
ghost use Rattle.office_rules.specs.Change.{Fits, net_changed};
ghost use Rattle.office_rules.specs.Kept.{IsNet};
ghost use Rattle.office_rules.specs.Numbers.{with_message};
ghost use Rattle.office_rules.specs.Retiring.{with_held, without_message};
ghost use Rattle.office.specs.Indexed.{IsIndexIfThere, IsFoundAt, indexed_alike};

use crate::looking_up::{find_ident, find_named, search_idents, search_live};
use crate::net_index::{NetIndex, with_inserted, with_moved, with_removed};
use base::Copying;
use can_id::Ident;
use dbc_sheet::{Signal, ValueTexts};
use dbc_words::Name;
use office_decide::{add_at, set_spn_at, set_values_at, take_out_at};
use office_facts::same_ident;
use office_types::{LiveMessage, Net, SignalPath, UsableSpn};
use std::alloc::{AllocError, Global};
use std::mem::replace;

fn ident_of(live: &LiveMessage) -> Ident
    ensures { result ≡ live.now.message.ident }
{
    live.message.ident
}

/// Inserts a live message at an index of the list. When memory runs out, nothing changes; where it does so for the
/// network's index alone, the message is inserted and that index is dropped.
fn insert_message(
    alloc: Global,
    net: &mut Net,
    index: &mut Option<NetIndex>,
    at: usize,
    message: LiveMessage,
) -> Result<(), AllocError>
    requires within { at ≤ length net.old.live }
    requires index { IsIndexIfThere index.old net.old }
    ensures ok { OnOk result (net.new ≡ record net.old { live = insert net.old.live at message }) }
    ensures err { OnErr result (net.new ≡ net.old) }
    ensures index { IsIndexIfThere index.new net.new }
{
    let name = match index {
        None => None,
        Some(_) => message.message.name.duplicate(alloc).ok(),
    };
    let ident = ident_of(&message);
    net.live.insert(at, message)?;
    let before = replace(index, None);
    *index = match name {
        None => None,
        Some(name) => with_inserted(before, name, &ident),
    };
    Ok(())
}

/// Whether both messages have the same name and the same identifier.
fn are_indexed_alike(a: &LiveMessage, b: &LiveMessage) -> bool
    ensures { result ≡ indexed_alike a.now b.now }
{
    a.message.name == b.message.name && same_ident(a.message.ident, b.message.ident)
}

/// Replaces the live message at an index.
pub(crate) fn replace_message(
    net: &mut Net,
    index: &mut Option<NetIndex>,
    at: usize,
    message: LiveMessage,
)
    requires within { at < length net.old.live }
    requires index { IsIndexIfThere index.old net.old }
    ensures net { net.new ≡ record net.old { live = slice_set net.old.live at message } }
    ensures index { IsIndexIfThere index.new net.new }
{
    if !are_indexed_alike(&net.live.as_slice()[at], &message) {
        *index = None;
    }
    net.live.replace(at, message);
}

/// Sets a live message, in place of one of its number. When it fails, nothing changes.
pub(crate) fn set_message(
    alloc: Global,
    net: &mut Net,
    index: &mut Option<NetIndex>,
    message: LiveMessage,
) -> Result<(), AllocError>
    requires rising { IsStrictlySortedBy by_number net.old.live }
    requires index { IsIndexIfThere index.old net.old }
    ensures ok { OnOk result (net.new ≡ with_message net.old message) }
    ensures err { OnErr result (net.new ≡ net.old) }
    ensures index { IsIndexIfThere index.new net.new }
{
    match search_live(net.live.as_slice(), message.message.number()) {
        Ok(at) => {
            replace_message(net, index, at, message);
            Ok(())
        }
        Err(at) => insert_message(alloc, net, index, at, message),
    }
}

/// Adds a signal as the last one of the live message of the name, which doesn't refuse it: in its place, so that no
/// other signal is copied. When memory runs out, nothing changes.
pub(crate) fn add_signal_in(
    alloc: Global,
    net: &mut Net,
    index: &Option<NetIndex>,
    message: &Name,
    signal: Signal,
) -> Result<(), AllocError>
    requires net { IsNet net.old }
    requires index { IsIndexIfThere index.now net.old }
    requires fits { Fits (AddSignal message.now signal) (Some net.old) }
    ensures ok { OnOk result (net.new ≡ net_changed (AddSignal message.now signal) net.old) }
    ensures err { OnErr result (net.new ≡ net.old) }
    ensures index { IsIndexIfThere index.now net.new }
{
    match find_named(net, index, message) {
        None => Ok(()),
        Some(at) => add_at(alloc, &mut net.live, at, signal),
    }
}

/// Removes the signal of a live message in its place, if both are there. Takes no memory.
pub(crate) fn remove_signal_in(net: &mut Net, index: &Option<NetIndex>, path: &SignalPath)
    requires net { IsNet net.old }
    requires index { IsIndexIfThere index.now net.old }
    ensures net { net.new ≡ net_changed (RemoveSignal path.now) net.old }
    ensures index { IsIndexIfThere index.now net.new }
{
    match find_named(net, index, &path.message) {
        None => {}
        Some(at) => take_out_at(&mut net.live, at, &path.signal),
    }
}

/// Gives the signal of a live message the number in its place, if both are there. Takes no memory.
pub(crate) fn set_spn_in(net: &mut Net, index: &Option<NetIndex>, path: &SignalPath, spn: UsableSpn)
    requires net { IsNet net.old }
    requires index { IsIndexIfThere index.now net.old }
    ensures net { net.new ≡ net_changed (SetSpn path.now spn) net.old }
    ensures index { IsIndexIfThere index.now net.new }
{
    match find_named(net, index, &path.message) {
        None => {}
        Some(at) => set_spn_at(&mut net.live, at, &path.signal, spn),
    }
}

/// Sets the texts of the values of a live message's signal in its place, if both are there. Takes no memory.
pub(crate) fn set_values_in(
    net: &mut Net,
    index: &Option<NetIndex>,
    path: &SignalPath,
    values: ValueTexts,
)
    requires net { IsNet net.old }
    requires index { IsIndexIfThere index.now net.old }
    ensures net { net.new ≡ net_changed (SetValues path.now values) net.old }
    ensures index { IsIndexIfThere index.now net.new }
{
    match find_named(net, index, &path.message) {
        None => {}
        Some(at) => set_values_at(&mut net.live, at, &path.signal, values),
    }
}

/// Removes the live message of the identifier, if there is one.
pub(crate) fn remove_message(net: &mut Net, index: &mut Option<NetIndex>, ident: &Ident)
    requires net { IsNet net.old }
    requires index { IsIndexIfThere index.old net.old }
    ensures net { net.new ≡ without_message net.old ident.now }
    ensures index { IsIndexIfThere index.new net.new }
{
    match find_ident(net.live.as_slice(), ident) {
        None => {}
        Some(at) => {
            let removed = net.live.remove(at);
            let before = replace(index, None);
            *index = with_removed(before, &removed.message.name, ident);
        }
    }
}

/// Moves the identifier of the live message at an index to the held ones. When memory runs out, nothing changes.
pub(crate) fn hold_message(
    net: &mut Net,
    index: &mut Option<NetIndex>,
    at: usize,
    ident: &Ident,
) -> Result<(), AllocError>
    requires net { IsNet net.old }
    requires found { IsFoundAt net.old.live ident.now at }
    requires index { IsIndexIfThere index.old net.old }
    ensures ok { OnOk result (net.new ≡ with_held (without_message net.old ident.now) ident.now) }
    ensures err { OnErr result (net.new ≡ net.old) }
    ensures index { IsIndexIfThere index.new net.new }
{
    match search_idents(net.held.as_slice(), ident.to_dbc()) {
        Ok(_) => unreachable!(),
        Err(gap) => {
            net.held.insert(gap, *ident)?;
            let removed = net.live.remove(at);
            let before = replace(index, None);
            *index = with_moved(before, &removed.message.name);
            Ok(())
        }
    }
}
