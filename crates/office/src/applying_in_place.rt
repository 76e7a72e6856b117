//! Carrying out what was decided on a network that is there, and on the book. It is done in place where nothing can
//! fail once something has changed: for one change, and for three pairs (a signal's SPN that enters the book; an
//! identifier that is held as its message goes; a head without approvals). More changes, and all other pairs, are made
//! on copies first.
ghost use Rattle.std.specs.Prelude.{◌≡◌, ◌∷◌, [], OnOk, OnErr, Some};
ghost use Rattle.office_types.specs.declared.change.Change.TheVariants as change;
ghost use Rattle.office_rules.specs.Change.{AllFit, Fits, NetAndBook, all_applied, changed_book, net_changed};
ghost use Rattle.office_rules.specs.Kept.{IsNet};
ghost use Rattle.office.specs.Indexed.{IsIndexIfThere, is_of_messages};

use crate::changing::{
    add_signal_in, hold_message, remove_message, remove_signal_in, set_message, set_spn_in,
    set_values_in,
};
use crate::looking_up::find_ident;
use crate::net_index::NetIndex;
use base::{Items, put_item};
use can_id::Ident;
use office_decide::{change_all, change_net, draft_of};
use office_facts::same_ident;
use office_types::{Change, Head, Net, NetName, SignalPath, SpnBook, UsableSpn};
use std::alloc::{AllocError, Global};

/// Whether the change is of live messages or of held identifiers.
fn is_of_messages(change: &Change) -> bool
    ensures { result ≡ is_of_messages change.now }
{
    matches!(
        change,
        Change::SetMessage(_)
            | Change::RemoveMessage(_)
            | Change::AddSignal(_, _)
            | Change::RemoveSignal(_)
            | Change::SetSpn(_, _)
            | Change::SetValues(_, _)
            | Change::Hold(_)
    )
}

/// Makes a change, which fits. The index is dropped where the change is of what it knows. When memory runs out, nothing
/// changes but that.
fn change_otherwise(
    alloc: Global,
    net: &mut Net,
    index: &mut Option<NetIndex>,
    change: Change,
) -> Result<(), AllocError>
    requires index { IsIndexIfThere index.old net.old }
    requires fits { Fits change (Some net.old) }
    ensures ok { OnOk result (net.new ≡ net_changed change net.old) }
    ensures err { OnErr result (net.new ≡ net.old) }
    ensures index { IsIndexIfThere index.new net.new }
{
    if is_of_messages(&change) {
        *index = None;
    }
    change_net(alloc, net, change)
}

/// Makes one change, which fits. When memory runs out, nothing changes, but that the index may be dropped.
fn apply_one(
    alloc: Global,
    net: &mut Net,
    book: &mut SpnBook,
    index: &mut Option<NetIndex>,
    change: Change,
) -> Result<(), AllocError>
    requires net { IsNet net.old }
    requires index { IsIndexIfThere index.old net.old }
    requires fits { Fits change (Some net.old) }
    ensures net { OnOk result (net.new ≡ net_changed change net.old) }
    ensures book { OnOk result (book.new ≡ changed_book change book.old) }
    ensures err { OnErr result ((net.new ≡ net.old) × (book.new ≡ book.old)) }
    ensures index { IsIndexIfThere index.new net.new }
{
    match change {
        Change::SetMessage(message) => set_message(alloc, net, index, message),
        Change::RemoveMessage(ident) => {
            remove_message(net, index, &ident);
            Ok(())
        }
        Change::AddSignal(message, signal) => add_signal_in(alloc, net, index, &message, signal),
        Change::RemoveSignal(path) => {
            remove_signal_in(net, index, &path);
            Ok(())
        }
        Change::SetSpn(path, spn) => {
            set_spn_in(net, index, &path, spn);
            Ok(())
        }
        Change::SetValues(path, values) => {
            set_values_in(net, index, &path, values);
            Ok(())
        }
        Change::SetSpnBlock(block) => put_item(&mut book.blocks, block),
        Change::EnterSpn(spn) => book.used.enter(spn),
        other => change_otherwise(alloc, net, index, other),
    }
}

/// Makes several changes, each of which fits after those before it, on copies first. When memory runs out, nothing
/// changes.
fn apply_all(
    alloc: Global,
    name: &NetName,
    net: &mut Net,
    book: &mut SpnBook,
    index: &mut Option<NetIndex>,
    changes: Items<Change>,
) -> Result<(), AllocError>
    requires index { IsIndexIfThere index.old net.old }
    requires fit { AllFit name.now changes (record { net = Some net.old; book = book.old }) }
    ensures ok { OnOk result (◌≡◌ {A = NetAndBook} (record { net = Some net.new; book = book.new })
        (all_applied name.now changes (record { net = Some net.old; book = book.old }))) }
    ensures err { OnErr result ((net.new ≡ net.old) × (book.new ≡ book.old)) }
    ensures index { IsIndexIfThere index.new net.new }
{
    let mut draft = draft_of(alloc, Some(&*net), book)?;
    change_all(alloc, name, &mut draft, changes)?;
    let (after, left) = draft.into_parts();
    match after {
        Some(after) => *net = after,
        None => unreachable!(),
    }
    *book = left;
    *index = None;
    Ok(())
}

/// Makes two changes, the second of which fits after the first one, on copies first. When memory runs out, nothing
/// changes.
fn apply_both(
    alloc: Global,
    name: &NetName,
    net: &mut Net,
    book: &mut SpnBook,
    index: &mut Option<NetIndex>,
    first: Change,
    second: Change,
) -> Result<(), AllocError>
    requires index { IsIndexIfThere index.old net.old }
    requires fit { AllFit name.now (first ∷ second ∷ [])
        (record { net = Some net.old; book = book.old }) }
    ensures ok { OnOk result (◌≡◌ {A = NetAndBook} (record { net = Some net.new; book = book.new })
        (all_applied name.now (first ∷ second ∷ [])
        (record { net = Some net.old; book = book.old }))) }
    ensures err { OnErr result ((net.new ≡ net.old) × (book.new ≡ book.old)) }
    ensures index { IsIndexIfThere index.new net.new }
{
    let mut changes = Items::new(alloc);
    changes.push(first)?;
    changes.push(second)?;
    apply_all(alloc, name, net, book, index, changes)
}

/// Gives a signal a number, and enters a number into the book. When memory runs out, nothing changes.
fn set_and_enter(
    name: &NetName,
    net: &mut Net,
    book: &mut SpnBook,
    index: &Option<NetIndex>,
    path: &SignalPath,
    spn: UsableSpn,
    entered: UsableSpn,
) -> Result<(), AllocError>
    requires net { IsNet net.old }
    requires index { IsIndexIfThere index.now net.old }
    ensures ok { OnOk result (◌≡◌ {A = NetAndBook} (record { net = Some net.new; book = book.new })
        (all_applied name.now (change.SetSpn path.now spn ∷ change.EnterSpn entered ∷ [])
        (record { net = Some net.old; book = book.old }))) }
    ensures err { OnErr result ((net.new ≡ net.old) × (book.new ≡ book.old)) }
    ensures index { IsIndexIfThere index.now net.new }
{
    book.used.enter(entered)?;
    set_spn_in(net, index, path, spn);
    Ok(())
}

/// Removes the live message of an identifier, and holds an identifier: the same one, where a command does both. When
/// memory runs out, nothing changes.
fn remove_and_hold(
    alloc: Global,
    name: &NetName,
    net: &mut Net,
    book: &mut SpnBook,
    index: &mut Option<NetIndex>,
    removed: &Ident,
    held: &Ident,
) -> Result<(), AllocError>
    requires net { IsNet net.old }
    requires index { IsIndexIfThere index.old net.old }
    ensures ok { OnOk result (◌≡◌ {A = NetAndBook} (record { net = Some net.new; book = book.new })
        (all_applied name.now (change.RemoveMessage removed.now ∷ change.Hold held.now ∷ [])
        (record { net = Some net.old; book = book.old }))) }
    ensures err { OnErr result ((net.new ≡ net.old) × (book.new ≡ book.old)) }
    ensures index { IsIndexIfThere index.new net.new }
{
    if same_ident(*removed, *held) {
        if let Some(at) = find_ident(net.live.as_slice(), removed) {
            return hold_message(net, index, at, removed);
        }
    }
    let first = Change::RemoveMessage(*removed);
    let second = Change::Hold(*held);
    apply_both(alloc, name, net, book, index, first, second)
}

/// Gives a signal a number, and makes another change, which fits after that. When memory runs out, nothing changes.
fn set_spn_then(
    alloc: Global,
    name: &NetName,
    net: &mut Net,
    book: &mut SpnBook,
    index: &mut Option<NetIndex>,
    path: SignalPath,
    spn: UsableSpn,
    second: Change,
) -> Result<(), AllocError>
    requires net { IsNet net.old }
    requires index { IsIndexIfThere index.old net.old }
    requires fit { AllFit name.now (change.SetSpn path spn ∷ second ∷ [])
        (record { net = Some net.old; book = book.old }) }
    ensures ok { OnOk result (◌≡◌ {A = NetAndBook} (record { net = Some net.new; book = book.new })
        (all_applied name.now (change.SetSpn path spn ∷ second ∷ [])
        (record { net = Some net.old; book = book.old }))) }
    ensures err { OnErr result ((net.new ≡ net.old) × (book.new ≡ book.old)) }
    ensures index { IsIndexIfThere index.new net.new }
{
    match second {
        Change::EnterSpn(entered) => set_and_enter(name, net, book, index, &path, spn, entered),
        second => {
            let first = Change::SetSpn(path, spn);
            apply_both(alloc, name, net, book, index, first, second)
        }
    }
}

/// Removes the live message of an identifier, and makes another change, which fits after that. When memory runs out,
/// nothing changes.
fn remove_message_then(
    alloc: Global,
    name: &NetName,
    net: &mut Net,
    book: &mut SpnBook,
    index: &mut Option<NetIndex>,
    ident: Ident,
    second: Change,
) -> Result<(), AllocError>
    requires net { IsNet net.old }
    requires index { IsIndexIfThere index.old net.old }
    requires fit { AllFit name.now (change.RemoveMessage ident ∷ second ∷ [])
        (record { net = Some net.old; book = book.old }) }
    ensures ok { OnOk result (◌≡◌ {A = NetAndBook} (record { net = Some net.new; book = book.new })
        (all_applied name.now (change.RemoveMessage ident ∷ second ∷ [])
        (record { net = Some net.old; book = book.old }))) }
    ensures err { OnErr result ((net.new ≡ net.old) × (book.new ≡ book.old)) }
    ensures index { IsIndexIfThere index.new net.new }
{
    match second {
        Change::Hold(held) => remove_and_hold(alloc, name, net, book, index, &ident, &held),
        second => {
            let first = Change::RemoveMessage(ident);
            apply_both(alloc, name, net, book, index, first, second)
        }
    }
}

/// Sets the head, and makes another change, which fits after that. When memory runs out, nothing changes.
fn set_head_then(
    alloc: Global,
    name: &NetName,
    net: &mut Net,
    book: &mut SpnBook,
    index: &mut Option<NetIndex>,
    head: Head,
    second: Change,
) -> Result<(), AllocError>
    requires net { IsNet net.old }
    requires index { IsIndexIfThere index.old net.old }
    requires fit { AllFit name.now (change.SetHead head ∷ second ∷ [])
        (record { net = Some net.old; book = book.old }) }
    ensures ok { OnOk result (◌≡◌ {A = NetAndBook} (record { net = Some net.new; book = book.new })
        (all_applied name.now (change.SetHead head ∷ second ∷ [])
        (record { net = Some net.old; book = book.old }))) }
    ensures err { OnErr result ((net.new ≡ net.old) × (book.new ≡ book.old)) }
    ensures index { IsIndexIfThere index.new net.new }
{
    match second {
        Change::ClearApprovals => {
            net.head = head;
            net.approvals = Items::new(alloc);
            Ok(())
        }
        second => {
            let first = Change::SetHead(head);
            apply_both(alloc, name, net, book, index, first, second)
        }
    }
}

/// Makes two changes, the second of which fits after the first one: in place if they are one of the three pairs above.
/// When it fails, nothing changes.
fn apply_two(
    alloc: Global,
    name: &NetName,
    net: &mut Net,
    book: &mut SpnBook,
    index: &mut Option<NetIndex>,
    first: Change,
    second: Change,
) -> Result<(), AllocError>
    requires net { IsNet net.old }
    requires index { IsIndexIfThere index.old net.old }
    requires fit { AllFit name.now (first ∷ second ∷ [])
        (record { net = Some net.old; book = book.old }) }
    ensures ok { OnOk result (◌≡◌ {A = NetAndBook} (record { net = Some net.new; book = book.new })
        (all_applied name.now (first ∷ second ∷ [])
        (record { net = Some net.old; book = book.old }))) }
    ensures err { OnErr result ((net.new ≡ net.old) × (book.new ≡ book.old)) }
    ensures index { IsIndexIfThere index.new net.new }
{
    match first {
        Change::SetSpn(path, spn) => set_spn_then(alloc, name, net, book, index, path, spn, second),
        Change::RemoveMessage(ident) => remove_message_then(
            alloc, name, net, book, index, ident, second,
        ),
        Change::SetHead(head) => set_head_then(alloc, name, net, book, index, head, second),
        first => apply_both(alloc, name, net, book, index, first, second),
    }
}

/// Carries out the changes that were decided for a network that is there, each of which fits after those before it, and
/// the index follows. When it fails, nothing changes.
pub(crate) fn apply_in_place(
    alloc: Global,
    name: &NetName,
    net: &mut Net,
    book: &mut SpnBook,
    index: &mut Option<NetIndex>,
    changes: Items<Change>,
) -> Result<(), AllocError>
    requires net { IsNet net.old }
    requires index { IsIndexIfThere index.old net.old }
    requires fit { AllFit name.now changes (record { net = Some net.old; book = book.old }) }
    ensures ok { OnOk result (◌≡◌ {A = NetAndBook} (record { net = Some net.new; book = book.new })
        (all_applied name.now changes (record { net = Some net.old; book = book.old }))) }
    ensures err { OnErr result ((net.new ≡ net.old) × (book.new ≡ book.old)) }
    ensures index { IsIndexIfThere index.new net.new }
{
    let mut changes = changes;
    match changes.as_slice().len() {
        0 => Ok(()),
        1 => {
            let change = changes.remove(0);
            apply_one(alloc, net, book, index, change)
        }
        2 => {
            let second = changes.remove(1);
            let first = changes.remove(0);
            apply_two(alloc, name, net, book, index, first, second)
        }
        _ => apply_all(alloc, name, net, book, index, changes),
    }
}
