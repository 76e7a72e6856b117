//! The sheet: what a DBC file describes of a network.
//!
//! A [`Sheet`] is what a DBC file describes: a version, a comment, [`Node`]s, [`ValueTable`]s, and [`Message`]s by DBC
//! number with their [`Signal`]s. An invalid sheet can't be built, since each part keeps its form by its own type
//! ([`sheets_are_well_formed`]); a call that would break a rule returns a [`SheetFault`] and changes nothing.
//! [`Sheet::is_clear`] checks whether the signals of each message fit together in its payload. `==` of messages is
//! equality ([`same_messages_are_equal`]). What a DBC text is, and which sheet it reads as, is defined in
//! `dbc_grammar`.
//!
//! [`partner`] is the message of one sheet that belongs to a message of another: the one of its name; else, where
//! neither name is in the other sheet, the one of its DBC number. [`counts_of`] says how many messages of the newer
//! sheet have no partner in the older one (added), how many of the older one have none in the newer (removed), and how
//! many have one that isn't equal (changed).
//!
//! Names, texts and the limits are of `dbc_words`.
#![tactic(auto)]

mod counts;
mod form;
mod message;
mod messages;
mod node;
mod pairing;
mod receivers;
mod same_law;
mod sheet;
mod signal;
mod signals;
mod value_table;
mod value_texts;

pub use counts::{Counts, counts_of};
pub use form::{Formed, each_has_form, sheets_are_well_formed};
pub use message::Message;
pub use node::Node;
pub use pairing::{has_number, partner};
pub use receivers::Receivers;
pub use same_law::same_messages_are_equal;
pub use sheet::Sheet;
pub use signal::Signal;
pub use signals::Signals;
pub use value_table::ValueTable;
pub use value_texts::{ValueText, ValueTexts};
