//! Why an import is refused: what is amiss in the file, or which of its messages doesn't go with the network.
ghost use Rattle.std.specs.Prelude.{◌≡◌, IfOk, string_bytes};
ghost use Rattle.base.specs.Refusing.{first_refusal};
ghost use Rattle.office_rules.specs.Importing.{is_live_so, may_bring, message_import_tests};
ghost use Rattle.office_reasons.specs.Files.{excess_text};

use crate::blocks::owned_text;
use crate::case::{Case, Told, told};
use crate::networks::no_net;
use crate::numbers::{ident_held, live_with, name_live};
use crate::pieces::{ident_text, shown};
use crate::reviews::review_reason;
use crate::seen::Seen;
use can_id::{Ident, J1939};
use dbc_advice::first_stated;
use dbc_read::{ReadCode, read};
use dbc_sheet::{Message, Node, Sheet, Signal, ValueTable};
use dbc_words::{MESSAGE_LIMIT, NODE_LIMIT, TABLE_LIMIT};
use office_facts::{group_of, has_node, has_number, is_held, is_live, is_named, live_named};
use office_types::{BlockForm, LiveMessage, Net, NetName, Refusal, Team, is_office};
use std::alloc::{AllocError, Global};

/// What is first amiss in the file, and where; `None` where its messages are clear.
fn fault_reason(alloc: Global, file: &[u8]) -> Told {
    let Some(stated) = first_stated(alloc, file)? else {
        return Ok(None);
    };
    let line = stated.position.line;
    let column = stated.position.column;
    let label = shown(&stated.label);
    let sentence = shown(&stated.sentence);
    told(format!(in alloc; "line {line}, column {column}: {label}: {sentence}"))
}

/// Whether a live message is equal to this one.
fn is_live_so(net: &Net, message: &Message) -> bool
    ensures { result ≡ is_live_so net.now message.now }
{
    net.live
        .as_slice()
        .iter()
        .any(|live| live.message == *message)
}

/// Whether the team may bring the identifier.
fn may_bring(team: &Team, net: &Net, ident: Ident) -> bool
    ensures { result ≡ may_bring team.now net.now ident }
{
    if is_office(team) {
        return true;
    }
    let blocks = net.blocks.as_slice();
    match ident {
        Ident::Std(id) => has_number(blocks, team, BlockForm::Std, u32::from(id.number())),
        Ident::Ext(id) => {
            if has_number(blocks, team, BlockForm::Ext, id.number()) {
                return true;
            }
            match J1939::of(ident) {
                None => false,
                Some(fields) => has_number(blocks, team, BlockForm::Pgn, fields.pgn()),
            }
        }
    }
}

/// Why the message of a file can't be brought to the network.
fn message_refusal(team: &Team, net: &Net, message: &Message) -> Option<Refusal>
    ensures { result ≡ first_refusal (message_import_tests team.now net.now message.now) }
{
    if is_live(net, message.ident) {
        if is_live_so(net, message) {
            None
        } else {
            Some(Refusal::IdentTaken)
        }
    } else if is_held(net, message.ident) {
        Some(Refusal::Held)
    } else if is_named(net, &message.name) {
        Some(Refusal::NameTaken)
    } else if !may_bring(team, net, message.ident) {
        Some(Refusal::OutsideBlock)
    } else {
        None
    }
}

/// The first of the file's messages that can't be brought to the network.
fn first_refused<'a>(team: &Team, net: &Net, messages: &'a [Message]) -> Option<&'a Message> {
    messages
        .iter()
        .find(|message| message_refusal(team, net, message).is_some())
}

/// The first of the file's signals that isn't equal to the live one in its place.
fn changed_signal<'a>(live: &[Signal], signals: &'a [Signal]) -> Option<&'a Signal> {
    for (index, signal) in signals.iter().enumerate() {
        match live.get(index) {
            Some(other) if *other == *signal => {}
            _ => return Some(signal),
        }
    }
    None
}

/// What the live message has other than the file's.
fn difference(alloc: Global, live: &Message, message: &Message) -> Result<String, AllocError> {
    if live.name != message.name {
        return String::from_str(alloc, "another name");
    }
    if live.length != message.length {
        return String::from_str(alloc, "another length");
    }
    if live.transmitter != message.transmitter {
        return String::from_str(alloc, "another transmitter");
    }
    if live.comment != message.comment {
        return String::from_str(alloc, "another comment");
    }
    match changed_signal(live.signals.as_slice(), message.signals.as_slice()) {
        Some(signal) => {
            let name = shown(signal.name.as_bytes());
            format!(in alloc; "another signal {name}")
        }
        None => String::from_str(alloc, "more signals"),
    }
}

/// That the live message of the identifier isn't the file's.
fn other_message(
    alloc: Global,
    live: &LiveMessage,
    message: &Message,
) -> Result<String, AllocError> {
    let ident = ident_text(alloc, &message.ident)?;
    let ident = ident.as_str();
    let difference = difference(alloc, &live.message, message)?;
    let difference = difference.as_str();
    let name = shown(message.name.as_bytes());
    let other = shown(live.message.name.as_bytes());
    let team = shown(live.owner.as_bytes());
    format!(in alloc;
        "the file's {name} is {ident}, which live message {other} of team {team} has, with {difference}"
    )
}

/// Which of the team's blocks the identifier isn't in.
fn outside_text(alloc: Global, team: &Team, message: &Message) -> Result<String, AllocError> {
    let ident = ident_text(alloc, &message.ident)?;
    let ident = ident.as_str();
    let form = message.ident.form().word();
    let name = shown(message.name.as_bytes());
    let team = shown(team.as_bytes());
    match group_of(message.ident) {
        None => format!(in alloc;
            "the file's {name} is {ident}, in no {form} block of team {team}"
        ),
        Some(pgn) => format!(in alloc;
            "the file's {name} is {ident}, in no {form} block of team {team}, and its PGN {pgn} in no pgn block"
        ),
    }
}

/// That the team may not bring the message's identifier, and which blocks it has.
fn outside_blocks(case: &Case<'_>, message: &Message) -> Result<String, AllocError> {
    let alloc = case.alloc;
    let outside = outside_text(alloc, case.team, message)?;
    let outside = outside.as_str();
    match owned_text(case)? {
        Some(own) => {
            let own = own.as_str();
            format!(in alloc; "{outside}; {own}")
        }
        None => format!(in alloc; "{outside}; it has no block"),
    }
}

/// A reason that is about a message of the file.
fn of_message(alloc: Global, message: &Message, reason: &str) -> Result<String, AllocError> {
    let name = shown(message.name.as_bytes());
    format!(in alloc; "the file's {name}: {reason}")
}

/// Why the message of the file can't be brought to the network.
fn message_text(case: &Case<'_>, message: &Message) -> Told {
    let alloc = case.alloc;
    let net = case.net;
    match message_refusal(case.team, net, message) {
        Some(Refusal::IdentTaken) => match live_with(net.live.as_slice(), &message.ident) {
            Some(live) => told(other_message(alloc, live, message)),
            None => Ok(None),
        },
        Some(Refusal::Held) => {
            let held = ident_held(alloc, net, &message.ident)?;
            told(of_message(alloc, message, held.as_str()))
        }
        Some(Refusal::NameTaken) => match live_named(net.live.as_slice(), &message.name) {
            Some(live) => {
                let named = name_live(alloc, net, live)?;
                told(of_message(alloc, message, named.as_str()))
            }
            None => Ok(None),
        },
        Some(Refusal::OutsideBlock) => told(outside_blocks(case, message)),
        _ => Ok(None),
    }
}

/// That the network would have more of something than it may have: `NET would have N THINGS with the file, ..`.
fn excess_text(
    alloc: Global,
    net: &Net,
    count: usize,
    things: &str,
    most: usize,
) -> Result<String, AllocError>
    ensures { IfOk result
        (λ text. string_bytes text ≡ excess_text net.now count things.now most) }
{
    let name = shown(net.name.as_bytes());
    format!(in alloc; "with the file {name} would have {count} {things}, and it may have {most}")
}

/// How many of the file's nodes are new.
fn new_nodes(nodes: &[Node], file: &[Node]) -> usize {
    file.iter()
        .filter(|node| !has_node(nodes, &node.name))
        .count()
}

/// How many of the file's value tables are new.
fn new_tables(tables: &[ValueTable], file: &[ValueTable]) -> usize {
    file.iter()
        .filter(|table| !tables.iter().any(|other| other.name == table.name))
        .count()
}

/// How many messages of the file are new.
fn new_messages(net: &Net, file: &[Message]) -> usize {
    file.iter()
        .filter(|message| !is_live(net, message.ident))
        .count()
}

/// Of what the network would have too much with the file; `None` where it would not.
fn excess_reason(alloc: Global, net: &Net, file: &Sheet) -> Told {
    let frame = &net.head.frame;
    let messages = new_messages(net, file.messages()).saturating_add(net.live.as_slice().len());
    if messages > MESSAGE_LIMIT {
        return told(excess_text(alloc, net, messages, "live messages", MESSAGE_LIMIT));
    }
    let nodes = new_nodes(frame.nodes(), file.nodes()).saturating_add(frame.nodes().len());
    if nodes > NODE_LIMIT {
        return told(excess_text(alloc, net, nodes, "nodes", NODE_LIMIT));
    }
    let tables = new_tables(frame.tables(), file.tables()).saturating_add(frame.tables().len());
    if tables > TABLE_LIMIT {
        return told(excess_text(alloc, net, tables, "value tables", TABLE_LIMIT));
    }
    Ok(None)
}

/// Why the sheet isn't brought to the network.
fn sheet_reason(case: &Case<'_>, file: &Sheet) -> Told {
    match first_refused(case.team, case.net, file.messages()) {
        Some(message) => message_text(case, message),
        None => excess_reason(case.alloc, case.net, file),
    }
}

/// The same of what the file reads as.
fn read_reason(case: &Case<'_>, file: &[u8]) -> Told {
    match read(case.alloc, file) {
        Ok(reading) => sheet_reason(case, &reading.sheet),
        Err(fault) => match fault.code {
            ReadCode::Memory => Err(AllocError),
            _ => Ok(None),
        },
    }
}

/// Why the team's import of the file to the network of this name is refused; `None` where neither the file nor what is
/// seen shows it. The error is out of memory.
pub(crate) fn import_reason(
    alloc: Global,
    team: &Team,
    name: &NetName,
    file: &[u8],
    refusal: Refusal,
    seen: &Seen<'_>,
) -> Told {
    let (net, book) = match (refusal, seen.net) {
        (Refusal::NoNet, None) => return told(no_net(alloc, name, seen.names)),
        (Refusal::FileFault(_), _) => return fault_reason(alloc, file),
        (_, Some(net)) => (net, seen.book),
        _ => return Ok(None),
    };
    let case = Case {
        alloc,
        team,
        net,
        book,
        refusal,
    };
    match refusal {
        Refusal::InReview => review_reason(&case),
        _ => read_reason(&case, file),
    }
}
