//! Which messages a node sends, and which of their signals it receives.
ghost use Rattle.std.specs.Prelude.{◌≡◌};
ghost use Rattle.office_views.specs.Sending.{received, receives, sends};

use dbc_sheet::{Message, Signal};
use dbc_words::Name;

/// Whether the node sends the message.
pub fn sends(node: &Name, message: &Message) -> bool
    ensures { result ≡ sends node.now message.now }
{
    match &message.transmitter {
        Some(transmitter) => *transmitter == *node,
        None => false,
    }
}

/// Whether the node receives the signal.
pub fn receives(node: &Name, signal: &Signal) -> bool
    ensures { result ≡ receives node.now signal.now }
{
    signal
        .receivers
        .as_slice()
        .iter()
        .any(|receiver| *receiver == *node)
}

/// How many signals of the message the node receives.
pub fn received(node: &Name, message: &Message) -> usize
    ensures { result ≡ received node.now message.now }
{
    message
        .signals
        .as_slice()
        .iter()
        .filter(|signal| receives(node, signal))
        .count()
}
