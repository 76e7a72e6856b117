//! Finding a network of an office, and carrying out what was decided where it isn't there.
ghost use Rattle.std.specs.Prelude.{◌≡◌, ◌∷◌, [], OnOk, OnErr, position};
ghost use Rattle.std.specs.Str.{bytes_eq};
ghost use Rattle.std.specs.List.Sorted.{IsStrictlySortedBy};
ghost use Rattle.base.specs.Keyed.{put};
ghost use Rattle.office_types.specs.State.{by_name};
ghost use Rattle.office_types.specs.declared.state.Net.{Net};
ghost use Rattle.office_types.specs.declared.state.Office.{Office};
ghost use Rattle.office_rules.specs.Change.{AllFit};
ghost use Rattle.office.specs.OfficeApplied.{IsNetFound, both_of, office_applied};

use base::{Items, Slot, put_item, slot_of};
use office_decide::{bare_net, change_all, draft_of};
use office_types::{Change, Net, NetName, SpnBook};
use std::alloc::{AllocError, Global};

/// The index of the first network of the name.
fn first_named(nets: &[Net], name: &NetName) -> Option<usize>
    ensures { result ≡ position (λ net. bytes_eq net.name name.now) nets.now }
{
    nets.iter().position(|net| net.name == *name)
}

/// The index of the network of the name.
pub(crate) fn find_net(nets: &[Net], book: &SpnBook, name: &NetName) -> Option<usize>
    ensures { IsNetFound (record { nets = nets.now; book = book.now }) name.now result }
{
    first_named(nets, name)
}

/// Puts the network where its name belongs, in place of one of that name. When memory runs out, nothing changes.
fn put_net(nets: &mut Vec<Net>, net: Net) -> Result<(), AllocError>
    ensures ok { OnOk result (nets.new.items ≡ put by_name net nets.old.items) }
    ensures err { OnErr result (nets.new.items ≡ nets.old.items) }
{
    match slot_of(nets.as_slice(), &net) {
        Slot::At(index) => {
            nets[index] = net;
            Ok(())
        }
        Slot::Before(index) => {
            nets.insert(index, net)?;
            Ok(())
        }
    }
}

/// Makes one change, where the network isn't there. When memory runs out, nothing changes.
fn apply_one(
    alloc: Global,
    name: &NetName,
    nets: &mut Vec<Net>,
    book: &mut SpnBook,
    change: Change,
) -> Result<(), AllocError>
    requires sorted { IsStrictlySortedBy by_name nets.old.items }
    requires absent { IsNetFound (record { nets = nets.old.items; book = book.old }) name.now None }
    ensures ok { OnOk result (◌≡◌ {A = Office} (record { nets = nets.new.items; book = book.new })
        (office_applied (record { nets = nets.old.items; book = book.old }) name.now
        (change ∷ []))) }
    ensures err { OnErr result ((nets.new.items ≡ nets.old.items) × (book.new ≡ book.old)) }
{
    match change {
        Change::SetSpnBlock(block) => put_item(&mut book.blocks, block),
        Change::EnterSpn(spn) => book.used.enter(spn),
        other => match other {
            Change::SetHead(head) => {
                let net = bare_net(alloc, name, head)?;
                put_net(nets, net)
            }
            _ => Ok(()),
        },
    }
}

/// Makes several changes, each of which fits after those before it, where the network isn't there, on a copy of the
/// book first. When memory runs out, nothing changes.
fn apply_all(
    alloc: Global,
    name: &NetName,
    nets: &mut Vec<Net>,
    book: &mut SpnBook,
    changes: Items<Change>,
) -> Result<(), AllocError>
    requires absent { IsNetFound (record { nets = nets.old.items; book = book.old }) name.now None }
    requires fit { AllFit name.now changes
        (both_of (record { nets = nets.old.items; book = book.old }) name.now) }
    ensures ok { OnOk result (◌≡◌ {A = Office} (record { nets = nets.new.items; book = book.new })
        (office_applied (record { nets = nets.old.items; book = book.old }) name.now changes)) }
    ensures err { OnErr result ((nets.new.items ≡ nets.old.items) × (book.new ≡ book.old)) }
{
    let mut draft = draft_of(alloc, None, book)?;
    change_all(alloc, name, &mut draft, changes)?;
    let (net, after) = draft.into_parts();
    if let Some(net) = net {
        put_net(nets, net)?;
    }
    *book = after;
    Ok(())
}

/// Carries out the changes that were decided where the network of the name isn't there, each of which fits after those
/// before it. For more than one the book is copied first, so that when memory runs out nothing changes.
pub(crate) fn apply_without_net(
    alloc: Global,
    name: &NetName,
    nets: &mut Vec<Net>,
    book: &mut SpnBook,
    changes: Items<Change>,
) -> Result<(), AllocError>
    requires sorted { IsStrictlySortedBy by_name nets.old.items }
    requires absent { IsNetFound (record { nets = nets.old.items; book = book.old }) name.now None }
    requires fit { AllFit name.now changes
        (both_of (record { nets = nets.old.items; book = book.old }) name.now) }
    ensures ok { OnOk result (◌≡◌ {A = Office} (record { nets = nets.new.items; book = book.new })
        (office_applied (record { nets = nets.old.items; book = book.old }) name.now changes)) }
    ensures err { OnErr result ((nets.new.items ≡ nets.old.items) × (book.new ≡ book.old)) }
{
    let mut changes = changes;
    match changes.as_slice().len() {
        0 => Ok(()),
        1 => {
            let change = changes.remove(0);
            apply_one(alloc, name, nets, book, change)
        }
        _ => apply_all(alloc, name, nets, book, changes),
    }
}
