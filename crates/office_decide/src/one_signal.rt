//! Changes of one signal of a message: in its place in a list, or on a copy that is put into a network.
ghost use Rattle.std.specs.Prelude.{◌≡◌, ◌<◌, None, Some, IfOk, IfSome, OnOk, OnErr, length, slice_get, slice_set};
ghost use Rattle.base.specs.Refusing.{first_refusal};
ghost use Rattle.dbc_sheet.specs.Signals.{signal_tests};
ghost use Rattle.office_types.specs.declared.change.Change.TheVariants.{AddSignal, RemoveSignal, SetSpn, SetValues};
ghost use Rattle.office_rules.specs.Change.{Fits, net_changed};
ghost use Rattle.office_rules.specs.Facts.{live_named};
ghost use Rattle.office_rules.specs.Signals.{with_last_signal, with_signal_out, with_spn, with_values};

use base::{Copying, Items, put_item};
use dbc_sheet::{Signal, ValueTexts};
use dbc_words::{Name, SheetCode};
use office_facts::live_named;
use office_types::{LiveMessage, Net, SignalPath, UsableSpn};
use std::alloc::{AllocError, Global};

/// Adds a signal, which isn't refused, as the last one of a message. When memory runs out, nothing changes.
fn add_last(alloc: Global, live: &mut LiveMessage, signal: Signal) -> Result<(), AllocError>
    requires { first_refusal (signal_tests live.old.message.signals signal) ≡ None }
    ensures ok { OnOk result (live.new ≡ with_last_signal live.old signal) }
    ensures err { OnErr result (live.new ≡ live.old) }
{
    match live.message.signals.add(alloc, signal) {
        Ok(()) => Ok(()),
        Err(SheetCode::Memory) => Err(AllocError),
        Err(_) => unreachable!(),
    }
}

/// Adds a signal, which isn't refused, as the last one of the message at the index. When memory runs out, nothing
/// changes.
pub fn add_at(
    alloc: Global,
    live: &mut Items<LiveMessage>,
    at: usize,
    signal: Signal,
) -> Result<(), AllocError>
    requires within { at < length live.old }
    requires fits { IfSome (slice_get live.old at)
        (λ m. first_refusal (signal_tests m.message.signals signal) ≡ None) }
    ensures ok { OnOk result (IfSome (slice_get live.old at)
        (λ m. live.new ≡ slice_set live.old at (with_last_signal m signal))) }
    ensures err { OnErr result (live.new ≡ live.old) }
{
    let mut messages = live.take().into_vec();
    let added = add_last(alloc, &mut messages[at], signal);
    *live = Items::from_vec(messages);
    added
}

/// Removes the signal of the name from a message.
fn take_out(live: &mut LiveMessage, signal: &Name)
    ensures { live.new ≡ with_signal_out live.old signal.now }
{
    let _removed = live.message.signals.remove(signal);
}

/// Gives the signal of the name in a message the number.
fn give_spn(live: &mut LiveMessage, signal: &Name, spn: UsableSpn)
    ensures { live.new ≡ with_spn live.old signal.now spn }
{
    live.message.signals.set_spn(signal, spn.spn());
}

/// Sets the texts of the values of the signal of the name in a message.
fn give_values(live: &mut LiveMessage, signal: &Name, values: ValueTexts)
    ensures { live.new ≡ with_values live.old signal.now values }
{
    live.message.signals.set_values(signal, values);
}

/// Removes the signal of the name from the message at the index. Takes no memory.
pub fn take_out_at(live: &mut Items<LiveMessage>, at: usize, signal: &Name)
    requires { at < length live.old }
    ensures { IfSome (slice_get live.old at)
        (λ m. live.new ≡ slice_set live.old at (with_signal_out m signal.now)) }
{
    let mut messages = live.take().into_vec();
    take_out(&mut messages[at], signal);
    *live = Items::from_vec(messages);
}

/// Gives the signal of the name in the message at the index the number. Takes no memory.
pub fn set_spn_at(live: &mut Items<LiveMessage>, at: usize, signal: &Name, spn: UsableSpn)
    requires { at < length live.old }
    ensures { IfSome (slice_get live.old at)
        (λ m. live.new ≡ slice_set live.old at (with_spn m signal.now spn)) }
{
    let mut messages = live.take().into_vec();
    give_spn(&mut messages[at], signal, spn);
    *live = Items::from_vec(messages);
}

/// Sets the texts of the values of the signal of the name in the message at the index. Takes no memory.
pub fn set_values_at(live: &mut Items<LiveMessage>, at: usize, signal: &Name, values: ValueTexts)
    requires { at < length live.old }
    ensures { IfSome (slice_get live.old at)
        (λ m. live.new ≡ slice_set live.old at (with_values m signal.now values)) }
{
    let mut messages = live.take().into_vec();
    give_values(&mut messages[at], signal, values);
    *live = Items::from_vec(messages);
}

/// A copy of the network's live message of the name. The error is out of memory.
fn copy_named(alloc: Global, net: &Net, name: &Name) -> Result<Option<LiveMessage>, AllocError>
    ensures { IfOk result (λ found. found ≡ live_named net.now.live name.now) }
{
    match live_named(net.live.as_slice(), name) {
        None => Ok(None),
        Some(live) => Ok(Some(live.duplicate(alloc)?)),
    }
}

/// Adds a signal as the last one of the network's live message of the name, which doesn't refuse it. When memory runs
/// out, nothing changes.
pub(crate) fn add_signal(
    alloc: Global,
    net: &mut Net,
    message: &Name,
    signal: Signal,
) -> Result<(), AllocError>
    requires { Fits (AddSignal message.now signal) (Some net.old) }
    ensures ok { OnOk result (net.new ≡ net_changed (AddSignal message.now signal) net.old) }
    ensures err { OnErr result (net.new ≡ net.old) }
{
    match copy_named(alloc, net, message)? {
        None => Ok(()),
        Some(mut live) => {
            add_last(alloc, &mut live, signal)?;
            put_item(&mut net.live, live)
        }
    }
}

/// Removes the signal from the network's live message. When memory runs out, nothing changes.
pub(crate) fn remove_signal(
    alloc: Global,
    net: &mut Net,
    path: &SignalPath,
) -> Result<(), AllocError>
    ensures ok { OnOk result (net.new ≡ net_changed (RemoveSignal path.now) net.old) }
    ensures err { OnErr result (net.new ≡ net.old) }
{
    match copy_named(alloc, net, &path.message)? {
        None => Ok(()),
        Some(mut live) => {
            take_out(&mut live, &path.signal);
            put_item(&mut net.live, live)
        }
    }
}

/// Gives the signal of the network's live message the number. When memory runs out, nothing changes.
pub(crate) fn set_spn(
    alloc: Global,
    net: &mut Net,
    path: &SignalPath,
    spn: UsableSpn,
) -> Result<(), AllocError>
    ensures ok { OnOk result (net.new ≡ net_changed (SetSpn path.now spn) net.old) }
    ensures err { OnErr result (net.new ≡ net.old) }
{
    match copy_named(alloc, net, &path.message)? {
        None => Ok(()),
        Some(mut live) => {
            give_spn(&mut live, &path.signal, spn);
            put_item(&mut net.live, live)
        }
    }
}

/// Sets the texts of the values of the signal of the network's live message. When memory runs out, nothing changes.
pub(crate) fn set_values(
    alloc: Global,
    net: &mut Net,
    path: &SignalPath,
    values: ValueTexts,
) -> Result<(), AllocError>
    ensures ok { OnOk result (net.new ≡ net_changed (SetValues path.now values) net.old) }
    ensures err { OnErr result (net.new ≡ net.old) }
{
    match copy_named(alloc, net, &path.message)? {
        None => Ok(()),
        Some(mut live) => {
            give_values(&mut live, &path.signal, values);
            put_item(&mut net.live, live)
        }
    }
}
