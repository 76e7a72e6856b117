//! How far carrying over is, for whoever waits for it.

use dbc_words::Name;
use office_types::NetName;

/// Sees which messages are carried over. What it does with that changes nothing of what is done.
pub trait Watch {
    /// This live message of the network is next.
    fn show(&mut self, net: &NetName, message: &Name);
}
