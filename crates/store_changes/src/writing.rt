//! Lists of changes, written to the tables.
ghost use Rattle.std.specs.Prelude.{◌≡◌, ◌+◌, ℕ, List, ◌∷◌, [], Option, IfOk};
ghost use Rattle.std.specs.Option.{option_copied};
ghost use Rattle.office_types.specs.declared.book.SpnBook.{SpnBook as Book};
ghost use Rattle.office_types.specs.declared.change.Change.{Change as Changing};
ghost use Rattle.office_types.specs.declared.state.Net.{Net as Network};
ghost use Rattle.office_rules.specs.Change.{HaveOwnBlocks, IsHeadFirst, all_applied, changed_net};
ghost use Rattle.store_rows.specs.Follows.{Follows};
ghost use Rattle.store_rows.specs.NetIn.{IsNetAt};
ghost use Rattle.store_rows.specs.Written.{IsWritten};
ghost use Rattle.store_changes.specs.Writing.{IsNext, next_number};
ghost use Rattle.store_tables.specs.Frames.{Relates, StaysIn};

use crate::change_rows::{
    clear_approvals, write_approval, write_block, write_head, write_held, write_release, write_spn,
    write_spn_block,
};
use crate::message_rows::{remove_message, write_message};
use crate::one_signal::{add_signal, set_signal_spn, set_signal_values, take_signal_out};
use office_types::{Change, Net, NetName};
use sqlite::{Alter, Error, Transaction};
use std::alloc::Global;

/// The number after this one. An error where it has more than 32 bits; no network has so many releases.
pub(crate) fn number_above(number: u32) -> Result<u32, Error>
    ensures { IfOk result (λ next. next ≡ number + 1) }
{
    match number.checked_add(1) {
        Some(next) => Ok(next),
        None => Err(Error::InvalidQuery),
    }
}

/// The number of the network's next release; a network that isn't there begins with 1. An error where it has more than
/// 32 bits; no network has so many releases.
pub fn next_release(net: Option<&Net>) -> Result<u32, Error>
    ensures { IfOk result (λ number. number ≡ next_number (option_copied net.entry)) }
{
    match net {
        None => Ok(1),
        Some(net) => match u32::try_from(net.releases.as_slice().len()) {
            Ok(number) => number_above(number),
            Err(_) => Err(Error::InvalidQuery),
        },
    }
}

/// The number of the next release after the change, where it was this one before.
fn number_after(number: Option<u32>, change: &Change) -> Result<Option<u32>, Error>
    ensures { IfOk result (λ after. (name : List ℕ) (net : Option Network) (rest : List Changing)
        → IsHeadFirst net (change.now ∷ []) → IsNext number net (change.now ∷ rest)
        → IsNext after (changed_net name change.now net) rest) }
{
    match change {
        Change::AddRelease(_) => match number {
            Some(number) => Ok(Some(number_above(number)?)),
            None => Ok(None),
        },
        _ => Ok(number),
    }
}

/// Writes the change; a release gets the number.
fn write_change<S: Alter>(
    alloc: Global,
    tx: &mut Transaction<'_, S>,
    name: &NetName,
    number: Option<u32>,
    change: &Change,
) -> Result<(), Error>
    ensures written { Relates S.Store tx.old tx.new result (λ before after.
        (net : Option Network) → IsNetAt name.now before net → IsHeadFirst net (change.now ∷ [])
        → HaveOwnBlocks (change.now ∷ []) → IsNext number net (change.now ∷ [])
        → IsWritten name.now change.now net before after) }
    ensures frame { StaysIn S.Store tx.old tx.new result }
{
    match change {
        Change::SetHead(head) => write_head(alloc, tx, name, head),
        Change::SetMessage(live) => write_message(alloc, tx, name, live),
        Change::RemoveMessage(ident) => remove_message(tx, name, *ident),
        Change::AddSignal(message, signal) => add_signal(alloc, tx, name, message, signal),
        Change::RemoveSignal(path) => take_signal_out(tx, name, path),
        Change::SetSpn(path, spn) => set_signal_spn(alloc, tx, name, path, *spn),
        Change::SetValues(path, values) => set_signal_values(alloc, tx, name, path, values),
        Change::SetBlock(granted) => write_block(tx, name, granted),
        Change::SetSpnBlock(block) => write_spn_block(tx, name, block),
        Change::Hold(ident) => write_held(tx, name, *ident),
        Change::EnterSpn(spn) => write_spn(tx, name, *spn),
        Change::SetApproval(team) => write_approval(tx, name, team),
        Change::ClearApprovals => clear_approvals(tx, name),
        Change::AddRelease(release) => match number {
            Some(number) => write_release(alloc, tx, name, number, release),
            None => Err(Error::InvalidQuery),
        },
    }
}

/// Writes the changes of a command at the network of this name, in order. The rows of the network and of the book
/// become those of the network and the book that the changes lead to; other networks' rows, the kept replies and the
/// profile stay. This is promised of changes as a decision has them: where the network isn't there, its head comes
/// first, no block of suspect parameter numbers is set on the network itself, and `next` is the number of the network's
/// next release, if the changes have one. A signal that is added or removed, or gets a suspect parameter number or
/// value texts, is written by its own rows alone.
///
/// The error is `sqlite`'s: out of memory, the disk's, or that of rows with keys that are there already;
/// [`Error::InvalidQuery`] where a release has no number or one of more than 32 bits, or its messages are no sheet's,
/// and where a signal is added to a message that isn't there.
pub fn write_changes<S: Alter>(
    alloc: Global,
    tx: &mut Transaction<'_, S>,
    name: &NetName,
    next: Option<u32>,
    changes: &[Change],
) -> Result<(), Error>
    ensures written { Relates S.Store tx.old tx.new result
        (λ before after. (net : Option Network) (book : Book) → IsNetAt name.now before net
        → IsHeadFirst net changes.now → HaveOwnBlocks changes.now → IsNext next net changes.now
        → Follows name.now before after (record { net = net; book = book })
        (all_applied name.now changes.now (record { net = net; book = book }))) }
    ensures frame { StaysIn S.Store tx.old tx.new result }
{
    let mut number = next;
    for change in changes {
        write_change(alloc, tx, name, number, change)?;
        number = number_after(number, change)?;
    }
    Ok(())
}
