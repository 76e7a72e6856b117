//! What commands on a live message read of a network.
ghost use Rattle.std.specs.Prelude.{◌≡◌};
ghost use Rattle.office_facts.specs.FactsOf.{message_facts_of};
ghost use Rattle.office_rules.specs.Facts.{message_facts, was_released};

use crate::facts::live_named;
use can_id::Ident;
use dbc_sheet::Node;
use dbc_words::Name;
use office_types::{FrozenSheet, LiveMessage, Net, Phase};

/// What a command on a live message reads of a network, wherever that is kept.
#[derive(Drop)]
pub struct MessageFacts<'a> {
    /// Whether the network is in review.
    pub phase: &'a Phase,
    /// The network's nodes.
    pub nodes: &'a [Node],
    /// The message that the command names, with its owner, where it is live.
    pub found: Option<&'a LiveMessage>,
}

/// What the network has for a command on the message of this name. Takes no memory.
pub fn message_facts<'a>(net: &'a Net, name: &Name) -> MessageFacts<'a>
    ensures { message_facts_of result ≡ message_facts net.now name.now }
{
    MessageFacts {
        phase: &net.head.phase,
        nodes: net.head.frame.nodes(),
        found: live_named(net.live.as_slice(), name),
    }
}

/// Whether one of the releases has a message of the identifier.
pub fn was_released(releases: &[FrozenSheet], ident: &Ident) -> bool
    ensures { result ≡ was_released releases.now ident.now }
{
    releases.iter().any(|release| release.has(*ident))
}
