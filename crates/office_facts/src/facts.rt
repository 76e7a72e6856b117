//! What a network's parts have, as the tests of commands need it.
ghost use Rattle.std.specs.Prelude.{◌≡◌};
ghost use Rattle.std.specs.Option.{option_copied};
ghost use Rattle.dbc_words.specs.Named.{has_name};
ghost use Rattle.dbc_sheet.specs.Signals.{signal_name};
ghost use Rattle.office_rules.specs.Facts.{has_node, in_review, is_full, is_held, is_j1939, is_live, is_named};
ghost use Rattle.office_rules.specs.Facts.{is_submitter, knows_node, live_named, same_ident};

use can_id::Ident;
use dbc_sheet::{Node, Signal};
use dbc_words::{MESSAGE_LIMIT, Name};
use office_types::{LiveMessage, Net, NetKind, Phase, Team};

/// Whether J1939 parameter groups are allotted on a network of this kind.
pub fn is_j1939(kind: NetKind) -> bool
    ensures { result ≡ is_j1939 kind }
{
    match kind {
        NetKind::Can => false,
        NetKind::J1939 => true,
    }
}

/// Whether the phase is a review.
pub fn in_review(phase: &Phase) -> bool
    ensures { result ≡ in_review phase.now }
{
    match phase {
        Phase::Draft => false,
        Phase::Review { .. } => true,
    }
}

/// Whether the phase is a review that the team requested.
pub fn is_submitter(team: &Team, phase: &Phase) -> bool
    ensures { result ≡ is_submitter team.now phase.now }
{
    match phase {
        Phase::Draft => false,
        Phase::Review { submitter } => *submitter == *team,
    }
}

/// Whether one of the nodes has the name.
pub fn has_node(nodes: &[Node], name: &Name) -> bool
    ensures { result ≡ has_node nodes.now name.now }
{
    nodes.iter().any(|node| node.name == *name)
}

/// Whether no node is named, or one of these.
pub fn knows_node(nodes: &[Node], name: &Option<Name>) -> bool
    ensures { result ≡ knows_node nodes.now name.now }
{
    match name {
        None => true,
        Some(name) => has_node(nodes, name),
    }
}

/// Whether a live message has the name.
pub fn is_named(net: &Net, name: &Name) -> bool
    ensures { result ≡ is_named net.now name.now }
{
    net.live
        .as_slice()
        .iter()
        .any(|live| live.message.name == *name)
}

/// Whether the network has as many live messages as it may have.
pub fn is_full(net: &Net) -> bool
    ensures { result ≡ is_full net.now }
{
    net.live.as_slice().len() >= MESSAGE_LIMIT
}

/// The live message of the name, `None` where there is none.
pub fn live_named<'a>(live: &'a [LiveMessage], name: &Name) -> Option<&'a LiveMessage>
    ensures { option_copied result ≡ live_named live.now name.now }
{
    live.iter().find(|live| live.message.name == *name)
}

/// Whether both identifiers have the same form and the same number.
pub fn same_ident(a: Ident, b: Ident) -> bool
    ensures { result ≡ same_ident a b }
{
    match a {
        Ident::Std(a) => match b {
            Ident::Std(b) => a.number() == b.number(),
            Ident::Ext(_) => false,
        },
        Ident::Ext(a) => match b {
            Ident::Std(_) => false,
            Ident::Ext(b) => a.number() == b.number(),
        },
    }
}

/// Whether a live message has the identifier.
pub fn is_live(net: &Net, ident: Ident) -> bool
    ensures { result ≡ is_live net.now ident }
{
    net.live
        .as_slice()
        .iter()
        .any(|live| same_ident(live.message.ident, ident))
}

/// Whether the identifier is held for good.
pub fn is_held(net: &Net, ident: Ident) -> bool
    ensures { result ≡ is_held net.now ident }
{
    net.held
        .as_slice()
        .iter()
        .any(|held| same_ident(*held, ident))
}

/// Whether one of the signals has the name.
pub fn has_signal(signals: &[Signal], name: &Name) -> bool
    ensures { result ≡ has_name signal_name signals.now name.now }
{
    signals.iter().any(|signal| signal.name == *name)
}
