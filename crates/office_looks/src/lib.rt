//! What people look up of a network, as lines and as JSON: its state, blocks, messages, held identifiers, releases, nodes,
//! suspect parameter numbers, who has a name or a number, and what changed from one release to another; and what a team's
//! requests were answered.
//!
//! [`shown_of`] gives what is shown for a [`NetLook`](office_types::NetLook) of a [`View`](office_seen::View), as lines or
//! as JSON; `None` where the network has no such message, node or release, or nobody has the name or number.
//! [`reads_of`] says how much of the live messages and of the releases it depends on. Each kind of look is a module, and a
//! file of definitions in `specs/`, or a crate of its own (`office_blocks`, `office_spns`, `dbc_compare`); `Looks.antt`
//! joins them. Looks are lists (`rows`): their rows and columns are described here, and how these are shown, there; a
//! message has its chart after its lines. All lines have one space between columns; nothing is cut; and what people wrote
//! is in words without spaces (`columns`), or last. The messages are the table of a sheet with columns put in
//! ([`messages_are_the_table`]).
//!
//! [`requests_text`] gives a team's requests ([`AnsweredRequest`]): of each its key, the reply and the first line of its
//! content, and where the reply is that of a bundle, a row for each part; and how many there are and were refused.
//! `Requests.antt` says which those of a team in a history are (`AreRequestsOf`), and defines their list.
//!
//! Nothing here decides anything: no crate that does uses it.
#![tactic(auto)]

mod compared;
mod held;
mod laws;
mod looks;
mod message_whole;
mod messages;
mod nodes;
mod reads;
mod releases;
mod requests;
mod seeking;
mod signal_rows;
mod state;
mod who;

pub use laws::messages_are_the_table;
pub use looks::shown_of;
pub use reads::{MessagesRead, Reads, ReleasesRead, reads_of};
pub use requests::{AnsweredRequest, requests_text};
