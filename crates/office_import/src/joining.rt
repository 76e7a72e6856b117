//! Whether a team may bring the messages of a file to a network.
ghost use Rattle.std.specs.Prelude.{◌≡◌};
ghost use Rattle.std.specs.List.{flat_map};
ghost use Rattle.base.specs.Refusing.{first_refusal};
ghost use Rattle.office_rules.specs.Importing.{may_bring, message_import_tests};
ghost use Rattle.office_import.specs.Numbers.{team_numbers};

use crate::index::LiveIndex;
use crate::numbers::TeamNumbers;
use can_id::{Ident, J1939};
use dbc_sheet::Message;
use office_types::{Refusal, Team, is_office};

/// Whether the team, which has these numbers, may bring a message of the identifier.
fn may_bring(team: &Team, numbers: &TeamNumbers, index: &LiveIndex, ident: Ident) -> bool
    requires { numbers.now ≡ team_numbers team.now index.now.blocks }
    ensures { result ≡ may_bring team.now index.now ident }
{
    if is_office(team) {
        return true;
    }
    match ident {
        Ident::Std(id) => numbers.std.has(u32::from(id.number())),
        Ident::Ext(id) => {
            if numbers.ext.has(id.number()) {
                return true;
            }
            match J1939::of(ident) {
                None => false,
                Some(fields) => numbers.pgn.has(fields.pgn()),
            }
        }
    }
}

/// Why the network doesn't take the message.
fn message_refusal(
    team: &Team,
    numbers: &TeamNumbers,
    index: &LiveIndex,
    message: &Message,
) -> Option<Refusal>
    requires { numbers.now ≡ team_numbers team.now index.now.blocks }
    ensures { result ≡ first_refusal (message_import_tests team.now index.now message.now) }
{
    if index.is_live(message.ident) {
        if index.is_live_so(message) {
            None
        } else {
            Some(Refusal::IdentTaken)
        }
    } else if index.is_held(message.ident) {
        Some(Refusal::Held)
    } else if index.is_named(&message.name) {
        Some(Refusal::NameTaken)
    } else if !may_bring(team, numbers, index, message.ident) {
        Some(Refusal::OutsideBlock)
    } else {
        None
    }
}

/// Why the network doesn't take the first of the messages that it doesn't.
pub(crate) fn first_refused(
    team: &Team,
    numbers: &TeamNumbers,
    index: &LiveIndex,
    messages: &[Message],
) -> Option<Refusal>
    requires { numbers.now ≡ team_numbers team.now index.now.blocks }
    ensures { result ≡ first_refusal
        (flat_map (message_import_tests team.now index.now) messages.now) }
{
    for message in messages {
        let refusal = message_refusal(team, numbers, index, message);
        if refusal.is_some() {
            return refusal;
        }
    }
    None
}
