//! Applying changes to a network and the book.
ghost use Rattle.std.specs.Prelude.{◌≡◌, Some, IfOk, OnOk, OnErr};
ghost use Rattle.std.specs.Option.{option_copied};
ghost use Rattle.office_rules.specs.Change.{AllFit, Fits, net_changed, applied, all_applied};
ghost use Rattle.office_rules.specs.Opening.{bare_net};

use crate::one_signal::{add_signal, remove_signal, set_spn, set_values};
use base::{Copying, Items, put_item};
use office_facts::same_ident;
use office_types::{Change, Head, Net, NetName, SpnBook};
use std::alloc::{AllocError, Global};
use std::marker::Model;

/// A command's network, which may not be there yet, and the book, while changes are applied to them.
pub struct Draft {
    /// The network, if it is there.
    pub net: Option<Net>,
    /// The book.
    pub book: SpnBook,
}

impl Model for Draft {
    ghost use Rattle.office_rules.specs.Change.{NetAndBook};

    ghost Value = { NetAndBook };

    ghost view = { λ draft. record { net = draft.net; book = draft.book } };

    ghost inverse = { λ both. record { net = both.net; book = both.book } };
}

impl Draft {
    /// The network and the book.
    pub fn into_parts(self) -> (Option<Net>, SpnBook)
        ensures { (result.0 ≡ self.net) × (result.1 ≡ self.book) }
    {
        let Draft { net, book } = self;
        (net, book)
    }
}

/// A copy of the network, if it is there, and of the book. The error is out of memory.
pub fn draft_of(alloc: Global, found: Option<&Net>, book: &SpnBook) -> Result<Draft, AllocError>
    ensures { IfOk result (λ draft. draft
        ≡ record { net = option_copied found.entry; book = book.now }) }
{
    let net = match found {
        None => None,
        Some(net) => Some(net.duplicate(alloc)?),
    };
    Ok(Draft {
        net,
        book: book.duplicate(alloc)?,
    })
}

/// A network with nothing but its head. The error is out of memory.
pub fn bare_net(alloc: Global, name: &NetName, head: Head) -> Result<Net, AllocError>
    ensures { IfOk result (λ net. net ≡ bare_net name.now head) }
{
    let name = name.duplicate(alloc)?;
    Ok(Net {
        name,
        head,
        live: Items::new(alloc),
        blocks: Items::new(alloc),
        held: Items::new(alloc),
        approvals: Items::new(alloc),
        releases: Items::new(alloc),
    })
}

/// Applies a change that fits to a network that is there; one of the book does nothing to it. When memory runs out,
/// nothing changes.
pub fn change_net(alloc: Global, net: &mut Net, change: Change) -> Result<(), AllocError>
    requires { Fits change (Some net.old) }
    ensures ok { OnOk result (net.new ≡ net_changed change net.old) }
    ensures err { OnErr result (net.new ≡ net.old) }
{
    match change {
        Change::SetHead(head) => {
            net.head = head;
            Ok(())
        }
        Change::SetMessage(message) => put_item(&mut net.live, message),
        Change::RemoveMessage(ident) => {
            net.live
                .retain(|live| !same_ident(live.message.ident, ident));
            Ok(())
        }
        Change::AddSignal(message, signal) => add_signal(alloc, net, &message, signal),
        Change::RemoveSignal(path) => remove_signal(alloc, net, &path),
        Change::SetSpn(path, spn) => set_spn(alloc, net, &path, spn),
        Change::SetValues(path, values) => set_values(alloc, net, &path, values),
        Change::SetBlock(block) => put_item(&mut net.blocks, block),
        Change::SetSpnBlock(_) | Change::EnterSpn(_) => Ok(()),
        Change::Hold(ident) => put_item(&mut net.held, ident),
        Change::SetApproval(team) => put_item(&mut net.approvals, team),
        Change::ClearApprovals => {
            net.approvals = Items::new(alloc);
            Ok(())
        }
        Change::AddRelease(sheet) => net.releases.push(sheet),
    }
}

/// Applies a change that fits.
fn change_draft(
    alloc: Global,
    name: &NetName,
    draft: &mut Draft,
    change: Change,
) -> Result<(), AllocError>
    requires { Fits change draft.old.net }
    ensures { OnOk result (draft.new ≡ applied name.now change draft.old) }
{
    match change {
        Change::SetSpnBlock(block) => put_item(&mut draft.book.blocks, block),
        Change::EnterSpn(spn) => draft.book.used.enter(spn),
        other => match &mut draft.net {
            Some(net) => change_net(alloc, net, other),
            None => match other {
                Change::SetHead(head) => {
                    draft.net = Some(bare_net(alloc, name, head)?);
                    Ok(())
                }
                _ => Ok(()),
            },
        },
    }
}

/// Applies changes in order, each of which fits after those before it. The error is out of memory, and then some of
/// them may be applied.
pub fn change_all(
    alloc: Global,
    name: &NetName,
    draft: &mut Draft,
    changes: Items<Change>,
) -> Result<(), AllocError>
    requires { AllFit name.now changes draft.old }
    ensures { OnOk result (draft.new ≡ all_applied name.now changes draft.old) }
{
    for change in changes.into_vec() {
        change_draft(alloc, name, draft, change)?;
    }
    Ok(())
}

impl Drop for Draft {
    fn drop(self) {
        let Draft {
            net: _net,
            book: _book,
        } = self;
    }
}
