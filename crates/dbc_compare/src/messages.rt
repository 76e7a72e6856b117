//! The differences of messages.
ghost use Rattle.std.specs.Prelude.{◌≡◌, ◌≤◌, ◌++◌, ◌∷◌, [], None, length, IfOk, OnOk};
ghost use Rattle.std.specs.List.{flat_map};
ghost use Rattle.std.specs.Option.{option_copied};
ghost use Rattle.dbc_sheet.specs.Pairs.{partner};
ghost use Rattle.dbc_compare.specs.Differences.{below, between, differences_about, gone_message, message_differences};
ghost use Rattle.dbc_compare.specs.Differences.{pair_differences, shown_message};

use crate::difference::{Alteration, Difference};
use crate::fields::message_changes;
use crate::place::{MessageKey, Region};
use crate::things::{push_difference, push_here, push_things};
use base::Copying;
use dbc_sheet::{Message, Sheet, partner};
use std::alloc::{AllocError, Global};

/// What the message is known by. The error is out of memory.
fn key_of(alloc: Global, message: &Message) -> Result<MessageKey, AllocError>
    ensures { IfOk result
        (λ key. key ≡ record { ident = message.now.ident; name = message.now.name }) }
{
    Ok(MessageKey {
        ident: message.ident,
        name: message.name.duplicate(alloc)?,
    })
}

/// The message as it was and as it is. The error is out of memory.
fn between(alloc: Global, old: &Message, new: &Message) -> Result<Region, AllocError>
    ensures { IfOk result (λ place. place ≡ between old.now new.now) }
{
    let old = key_of(alloc, old)?;
    let new = key_of(alloc, new)?;
    Ok(Region::Message { old, new })
}

/// Adds the differences of a message and its partner.
#[tactic(auto, unfolding(crate::specs::Differences::pair_differences))]
fn push_pair(
    alloc: Global,
    found: &mut Vec<Difference>,
    old: &Message,
    new: &Message,
) -> Result<(), AllocError>
    ensures { OnOk result (found.new.items ≡ found.old.items ++ pair_differences old.now new.now) }
{
    let place = between(alloc, old, new)?;
    let changes = message_changes(alloc, old, new)?;
    push_here(alloc, found, &place, &changes)?;
    push_things(
        alloc,
        found,
        &place,
        old.signals.as_slice(),
        new.signals.as_slice(),
    )
}

/// Adds the change of the whole message.
#[tactic(auto, unfolding(crate::specs::Differences::differences_about))]
fn push_message(
    alloc: Global,
    found: &mut Vec<Difference>,
    message: &Message,
    change: Alteration,
) -> Result<(), AllocError>
    ensures { OnOk result (found.new.items ≡ found.old.items
        ++ differences_about (between message.now message.now) None (change ∷ [])) }
{
    let place = between(alloc, message, message)?;
    push_difference(alloc, found, &place, None, &change)
}

/// Adds the differences of a message of the new sheet and its partner in the old one.
fn push_shown(
    alloc: Global,
    found: &mut Vec<Difference>,
    partner: Option<&Message>,
    message: &Message,
) -> Result<(), AllocError>
    ensures { OnOk result (found.new.items ≡ found.old.items
        ++ shown_message (option_copied partner.entry) message.now) }
{
    match partner {
        Some(old) => push_pair(alloc, found, old, message),
        None => push_message(alloc, found, message, Alteration::Added),
    }
}

/// Adds the difference of a message of the old sheet that has no partner in the new one.
fn push_if_gone(
    alloc: Global,
    found: &mut Vec<Difference>,
    partner: Option<&Message>,
    message: &Message,
) -> Result<(), AllocError>
    ensures { OnOk result (found.new.items ≡ found.old.items
        ++ gone_message (option_copied partner.entry) message.now) }
{
    match partner {
        Some(_) => Ok(()),
        None => push_message(alloc, found, message, Alteration::Removed),
    }
}

/// Adds the differences of these messages of the old sheet that have no partner in the new one.
fn push_gone(
    alloc: Global,
    found: &mut Vec<Difference>,
    old: &Sheet,
    new: &Sheet,
    messages: &[Message],
) -> Result<(), AllocError>
    ensures { OnOk result (found.new.items ≡ found.old.items ++ flat_map
        (λ m. gone_message (partner new.now.messages old.now.messages m) m) messages.now) }
{
    for message in messages {
        push_if_gone(alloc, found, partner(new, old, message), message)?;
    }
    Ok(())
}

/// How many of the first messages have numbers below this one.
fn below(messages: &[Message], number: u32) -> usize
    ensures count { result ≡ below number messages.now }
    ensures within { result ≤ length messages.now }
{
    let mut count = 0;
    for message in messages {
        if number <= message.number() {
            return count;
        }
        count += 1;
    }
    count
}

/// Adds the differences of the messages, by number.
pub(crate) fn push_messages(
    alloc: Global,
    found: &mut Vec<Difference>,
    old: &Sheet,
    new: &Sheet,
) -> Result<(), AllocError>
    ensures { OnOk result (found.new.items ≡ found.old.items
        ++ message_differences old.now.messages new.now.messages) }
{
    let mut rest = old.messages();
    for message in new.messages() {
        let count = below(rest, message.number());
        let (passed, later) = rest.split_at(count);
        push_gone(alloc, found, old, new, passed)?;
        push_shown(alloc, found, partner(old, new, message), message)?;
        rest = later;
    }
    push_gone(alloc, found, old, new, rest)
}
