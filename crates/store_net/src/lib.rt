//! A network, the book and a release, read from the office's tables in a transaction.
//!
//! [`net_at`] reads the network of a name, and [`book_of`] the book of suspect parameter numbers. If the tables have a
//! network under the name (`IsNetAt` of `store_rows`), that is the one that `net_at` gives, and so it is with the book
//! and with the releases as sheets ([`release_texts_at`]); the rows of other networks may be any. Each part is one
//! SELECT, and one function (`parts`). [`live_text`] gives the canonical text of a network's live sheet, [`live_table`]
//! the table of its messages and [`live_chart`] the chart of one of them; [`release_text`] gives the canonical text of a
//! release, which reads as the release and as no other sheet. [`nets_text`] lists all networks (`AreNets`), and
//! [`names_of`] gives their names. [`live_of`] reads live messages that are bodies, the form of profile 1.
//!
//! [`excerpt_at`] reads what an action reads of its network, as the action's scope says (`office_facts`), and no more:
//! one on a message reads no other message, and one that gives out a number reads none, but the identifiers that are
//! live or held in the team's blocks, or, for a parameter group, of 29 bits (`number_excerpt`, `heads`, `ranges`).
//!
//! Each is called in a transaction, and changes nothing. An error is out of memory, what `sqlite` answers, or
//! `InvalidQuery` where the rows are no office's; the transaction is to be rolled back then. What is written to the
//! tables is `store_changes`.
//!
//! The definitions are in `specs/`: `Reading.antt` (the words for what is read), `Parts.antt` (the parts of a network
//! in the tables), `Excerpts.antt` and `Numbers.antt` (the part that a command reads), `Nets.antt` (all networks of the
//! tables), `Texts.antt` (the texts of a network). The lemmas on them, for the crates above, are in `proofs/`.
#![tactic(auto)]

mod excerpt;
mod heads;
mod live;
mod live_list;
mod message;
mod nets;
mod number_excerpt;
mod orphans;
mod parts;
mod ranges;
mod reading;
mod release;
mod releases;
mod signal_parts;

pub use excerpt::excerpt_at;
pub use live::{live_chart, live_sheet, live_table, live_text};
pub use live_list::live_messages;
pub use message::message_at;
pub use nets::{names_of, nets_text};
pub use parts::live_of;
pub use reading::{book_of, counted_net_at, net_at, outline_at, partial_net_at, unreleased_net_at};
pub use release::release_text;
pub use releases::{last_sheets_at, release_texts_at};
pub use signal_parts::SignalParts;
