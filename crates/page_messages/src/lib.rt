//! Parts of a page about the messages of a sheet.
//!
//! - [`put_messages`]: the table of all messages, a row for each.
//! - [`put_nodes`]: the nodes, and which of them sends and receives which message.
//! - [`put_each`]: all of each message: facts, from whom it goes to whom, comment, layouts, signals.
//! - [`put_tables`]: the value tables.
//! - [`put_remarks`] and [`put_remarks_line`]: what a check of the sheet found.
//! - [`is_long`]: whether the sheet has a long name, for which cells break anywhere.
//!
//! What the parts tell is found here too: [`used_bits`] counts the bits that signals have, [`receivers_of`] lists the
//! nodes that receive a message, and a layout is drawn from the bits that signals hold, in reading order. Each is found
//! by sorting, so a part takes time in proportion to what it shows.
#![tactic(auto, using(markup::proofs::Changes::joins))]

mod bits;
mod byte_rows;
mod cells;
mod each;
mod facts;
mod layouts;
mod messages;
mod names;
mod nodes;
mod receivers;
mod remarks;
mod shown;
mod signals;
mod tables;
mod used;
mod whole_texts;

pub use each::put_each;
pub use messages::put_messages;
pub use names::{is_long, put_message_link, sender_of};
pub use nodes::put_nodes;
pub use receivers::{Receiver, receivers_of};
pub use remarks::{put_remarks, put_remarks_line};
pub use tables::put_tables;
pub use used::used_bits;
