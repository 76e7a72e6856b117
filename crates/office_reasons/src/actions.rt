//! Why an action is refused, command by command, in the order of each one's tests.
use crate::bits::{no_room, outside_payload, shared_bit};
use crate::blocks::no_block;
use crate::case::{Case, Told, told};
use crate::messages::message_reason;
use crate::networks::{
    block_taken, many_nodes, net_there, no_net, no_node, no_receiver, node_there, not_j1939,
    not_office,
};
use crate::numbers::{
    groups_taken, ident_held, ident_live, idents_taken, live_with, many_messages, name_live,
    no_spn, outside_block, spns_used,
};
use crate::reviews::{many_releases, review_reason};
use crate::seen::Seen;
use crate::signals::{
    many_signals, many_texts, needed, no_signal, second_multiplexor, signal_there, unmultiplexed,
};
use can_id::{Ident, IdentForm};
use dbc_sheet::Message;
use dbc_words::Name;
use office_facts::live_named;
use office_types::{
    Action, BlockForm, Grant, LiveMessage, NetName, NewMessage, Refusal, SetValues, SignalPath,
    TakeBits, TakeIdent, TakePgn, TakeSpn, Team,
};
use std::alloc::Global;

/// Why a block isn't granted.
fn grant_reason(case: &Case<'_>, grant: &Grant) -> Told {
    match case.refusal {
        Refusal::NotJ1939 => told(not_j1939(case.alloc, case.net)),
        Refusal::BlockTaken => block_taken(case.alloc, case.net, case.book, grant),
        _ => Ok(None),
    }
}

/// Why a node isn't added.
fn node_reason(case: &Case<'_>, node: &Name) -> Told {
    match case.refusal {
        Refusal::NameTaken => told(node_there(case.alloc, case.net, node)),
        Refusal::TooMany => told(many_nodes(case.alloc, case.net)),
        _ => Ok(None),
    }
}

/// The live message of the name.
fn live<'a>(case: &Case<'a>, name: &Name) -> Option<&'a LiveMessage> {
    live_named(case.net.live.as_slice(), name)
}

/// Why a new message can't be what it says of itself.
fn new_message_reason(case: &Case<'_>, message: &NewMessage) -> Told {
    match (case.refusal, &message.node) {
        (Refusal::NoNode, Some(node)) => told(no_node(case.alloc, case.net, node)),
        (Refusal::NameTaken, _) => match live(case, &message.name) {
            Some(live) => told(name_live(case.alloc, case.net, live)),
            None => Ok(None),
        },
        (Refusal::TooMany, _) => told(many_messages(case.alloc, case.net)),
        _ => Ok(None),
    }
}

/// Why a wanted identifier isn't given out; `None` where it isn't live or held.
fn wanted_reason(case: &Case<'_>, form: IdentForm, number: u32) -> Told {
    let Some(ident) = Ident::new(form, number) else {
        return Ok(None);
    };
    match (case.refusal, live_with(case.net.live.as_slice(), &ident)) {
        (Refusal::IdentTaken, Some(live)) => told(ident_live(case.alloc, live)),
        (Refusal::Held, _) => told(ident_held(case.alloc, case.net, &ident)),
        _ => Ok(None),
    }
}

/// Why no identifier is given out.
fn ident_reason(case: &Case<'_>, take: &TakeIdent) -> Told {
    let form = take.form;
    match (case.refusal, take.want) {
        (Refusal::NoBlock, _) => told(no_block(case, BlockForm::of_identifiers(form))),
        (Refusal::BlockFull, _) => told(idents_taken(case, form)),
        (Refusal::OutsideBlock, Some(number)) => outside_block(case, form, number),
        (Refusal::IdentTaken | Refusal::Held, Some(number)) => wanted_reason(case, form, number),
        _ => new_message_reason(case, &take.message),
    }
}

/// Why no parameter group is given out.
fn group_reason(case: &Case<'_>, take: &TakePgn) -> Told {
    match case.refusal {
        Refusal::NotJ1939 => told(not_j1939(case.alloc, case.net)),
        Refusal::NoBlock => told(no_block(case, BlockForm::Pgn)),
        Refusal::BlockFull => told(groups_taken(case, take)),
        _ => new_message_reason(case, &take.message),
    }
}

/// Why no suspect parameter number is given out for a signal of the message.
fn spn_reason(case: &Case<'_>, message: &Message, take: &TakeSpn) -> Told {
    match (case.refusal, take.same) {
        (Refusal::NoSignal, _) => told(no_signal(case.alloc, message, &take.path.signal)),
        (Refusal::NoSpn, Some(number)) => told(no_spn(case.alloc, number)),
        (Refusal::NoBlock, _) => told(no_block(case, BlockForm::Spn)),
        (Refusal::BlockFull, _) => told(spns_used(case)),
        _ => Ok(None),
    }
}

/// Why the message doesn't take a new signal at the wanted start.
fn start_reason(case: &Case<'_>, message: &Message, take: &TakeBits, start: u16) -> Told {
    match case.refusal {
        Refusal::OutsidePayload => outside_payload(case.alloc, message, take, start),
        Refusal::Clash => shared_bit(case.alloc, message, take, start),
        _ => Ok(None),
    }
}

/// Why the message doesn't take a new signal.
fn bits_reason(case: &Case<'_>, message: &Message, take: &TakeBits) -> Told {
    let alloc = case.alloc;
    let name = &take.path.signal;
    match (case.refusal, take.start) {
        (Refusal::NameTaken, _) => signal_there(alloc, message, name),
        (Refusal::NoNode, _) => no_receiver(alloc, case.net, name, &take.receivers),
        (Refusal::TooMany, _) => told(many_signals(alloc, message)),
        (Refusal::TwoMultiplexors, _) => second_multiplexor(alloc, message),
        (Refusal::NoMultiplexor, _) => told(unmultiplexed(alloc, message, name, take.mux)),
        (Refusal::NoRoom, _) => told(no_room(alloc, message, take)),
        (_, Some(start)) => start_reason(case, message, take, start),
        _ => Ok(None),
    }
}

/// Why a signal of the message doesn't get texts.
fn values_reason(case: &Case<'_>, message: &Message, set: &SetValues) -> Told {
    match case.refusal {
        Refusal::NoSignal => told(no_signal(case.alloc, message, &set.path.signal)),
        Refusal::TooMany => told(many_texts(case.alloc, set.values.as_slice().len())),
        _ => Ok(None),
    }
}

/// Why a signal isn't taken out of the message.
fn removal_reason(case: &Case<'_>, message: &Message, path: &SignalPath) -> Told {
    match case.refusal {
        Refusal::NoSignal => told(no_signal(case.alloc, message, &path.signal)),
        Refusal::NoMultiplexor => told(needed(case.alloc, message, &path.signal)),
        _ => Ok(None),
    }
}

/// Why an action on a signal of a live message is refused; `None` where the message isn't live.
fn signal_reason(case: &Case<'_>, action: &Action) -> Told {
    match action {
        Action::TakeSpn(take) => match live(case, &take.path.message) {
            Some(live) => spn_reason(case, &live.message, take),
            None => Ok(None),
        },
        Action::TakeBits(take) => match live(case, &take.path.message) {
            Some(live) => bits_reason(case, &live.message, take),
            None => Ok(None),
        },
        Action::SetValues(set) => match live(case, &set.path.message) {
            Some(live) => values_reason(case, &live.message, set),
            None => Ok(None),
        },
        Action::RemoveSignal(path) => match live(case, &path.message) {
            Some(live) => removal_reason(case, &live.message, path),
            None => Ok(None),
        },
        _ => Ok(None),
    }
}

/// Why an action is refused for what only some commands are.
fn own_reason(case: &Case<'_>, action: &Action) -> Told {
    match (action, case.refusal) {
        (Action::OpenNet(_), Refusal::NetThere) => told(net_there(case.alloc, case.net)),
        (Action::Release, Refusal::TooMany) => told(many_releases(case.alloc, case.net)),
        (Action::Grant(grant), _) => grant_reason(case, grant),
        (Action::AddNode(node), _) => node_reason(case, node),
        (Action::TakeIdent(take), _) => ident_reason(case, take),
        (Action::TakePgn(take), _) => group_reason(case, take),
        _ => signal_reason(case, action),
    }
}

/// Why the action is refused on a network that is there; `None` where the network doesn't show it.
fn net_reason(case: &Case<'_>, action: &Action) -> Told {
    match case.refusal {
        Refusal::InReview | Refusal::NotInReview | Refusal::OwnReview | Refusal::NeedsMore => {
            review_reason(case)
        }
        Refusal::NoMessage | Refusal::NotOwner => message_reason(case, action),
        _ => own_reason(case, action),
    }
}

/// Why the team's action on the network of this name is refused; `None` where what is seen doesn't show it. The error
/// is out of memory.
pub(crate) fn action_reason(
    alloc: Global,
    team: &Team,
    name: &NetName,
    action: &Action,
    refusal: Refusal,
    seen: &Seen<'_>,
) -> Told {
    match (refusal, seen.net) {
        (Refusal::NotOffice, _) => told(not_office(alloc, team, action)),
        (Refusal::NoNet, None) => told(no_net(alloc, name, seen.names)),
        (_, Some(net)) => {
            let book = seen.book;
            let case = Case {
                alloc,
                team,
                net,
                book,
                refusal,
            };
            net_reason(&case, action)
        }
        _ => Ok(None),
    }
}
