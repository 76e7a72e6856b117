//! The changes of an import, and what it is answered.
ghost use Rattle.std.specs.Prelude.{◌≡◌, ◌++◌, ◌==◌, filter, length, map, not, IfOk, OnOk};
ghost use Rattle.office_types.specs.declared.change.Change.TheVariants.{SetMessage, EnterSpn};
ghost use Rattle.office_rules.specs.Importing.{new_messages, owned_by, spns_of};
ghost use Rattle.office_import.specs.Changes.{import_reply};

use crate::index::LiveIndex;
use base::{Copying, Items};
use dbc_sheet::{Message, Sheet, Signal};
use office_types::{Change, LiveMessage, Reply, Team, UsableSpn};
use std::alloc::{AllocError, Global};

/// How many of the messages are new.
pub(crate) fn new_count(index: &LiveIndex, messages: &[Message]) -> usize
    ensures { result ≡ length (new_messages index.now messages.now) }
{
    messages
        .iter()
        .filter(|message| !index.is_live(message.ident))
        .count()
}

/// How many of the file's messages are new, and how many are live already.
pub(crate) fn counts(index: &LiveIndex, file: &Sheet) -> Reply
    ensures { result ≡ import_reply index.now file.now }
{
    let messages = file.messages();
    let new = new_count(index, messages);
    let same = messages.len() - new;
    Reply::Counts {
        new: new as u32,
        same: same as u32,
    }
}

/// The change that sets the team's message.
fn message_change(alloc: Global, team: &Team, message: &Message) -> Result<Change, AllocError>
    ensures { IfOk result (λ change. change ≡ SetMessage (owned_by team.now message.now)) }
{
    let owner = team.duplicate(alloc)?;
    Ok(Change::SetMessage(LiveMessage {
        message: message.duplicate(alloc)?,
        owner,
    }))
}

/// Adds the changes that set the new ones of these messages.
pub(crate) fn add_messages(
    alloc: Global,
    team: &Team,
    index: &LiveIndex,
    messages: &[Message],
    changes: &mut Items<Change>,
) -> Result<(), AllocError>
    ensures { OnOk result (changes.new ≡ changes.old ++ map (λ m. SetMessage (owned_by team.now m))
        (new_messages index.now messages.now)) }
{
    for message in messages {
        if !index.is_live(message.ident) {
            changes.push(message_change(alloc, team, message)?)?;
        }
    }
    Ok(())
}

/// Adds the changes that enter the suspect parameter numbers of these signals.
fn add_spns(signals: &[Signal], changes: &mut Items<Change>) -> Result<(), AllocError>
    ensures { OnOk result (changes.new ≡ changes.old ++ map EnterSpn
        (filter (λ n. not (n == 0)) (map (λ s. s.spn) signals.now))) }
{
    for signal in signals {
        if let Some(spn) = UsableSpn::of_signal(signal.spn) {
            changes.push(Change::EnterSpn(spn))?;
        }
    }
    Ok(())
}

/// Adds those of the new ones of these messages.
pub(crate) fn add_all_spns(
    index: &LiveIndex,
    messages: &[Message],
    changes: &mut Items<Change>,
) -> Result<(), AllocError>
    ensures { OnOk result (changes.new ≡ changes.old
        ++ map EnterSpn (spns_of (new_messages index.now messages.now))) }
{
    for message in messages {
        if !index.is_live(message.ident) {
            add_spns(message.signals.as_slice(), changes)?;
        }
    }
    Ok(())
}
