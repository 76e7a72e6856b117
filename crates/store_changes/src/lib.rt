//! Changes and answered requests, written to the office's tables in a transaction; and answered requests, read.
//!
//! [`write_changes`] writes the rows of a list of changes (`writing`, `change_rows`, `setting`): each removes the rows of
//! its key and adds its own, so that the tables follow what the changes do at the network and in the book.
//! [`keep_reply`] adds the row of an answered request, and [`answer_at`] gives what a request under the same key is
//! answered (`replies`). [`keys_of`] gives the keys of a team's requests that were answered, and [`kept_at`] the one
//! under a key (`requests`).
//!
//! Each is called in a transaction. It commits nothing, and leaves nothing that a crash could find: only the commit
//! does. An error is out of memory, what `sqlite` answers, or `InvalidQuery` where the rows are no office's; the
//! transaction is to be rolled back then.
//!
//! The definitions are in `specs/`: `Writing.antt` (what writing a change leaves), `Places.antt` (where a signal is put),
//! `Kept.antt` (the rows of answered requests). The lemmas on them, for the crates above, are in `proofs/`; those of
//! statements one after the other are in `Frames.antt` of `store_rows`.
#![tactic(auto)]

mod change_rows;
mod message_rows;
mod one_signal;
mod release_sheet;
mod replies;
mod requests;
mod setting;
mod writing;

pub use message_rows::{remove_message, write_message, write_receivers, write_values};
pub use replies::{answer_at, keep_reply};
pub use requests::{KeptRequest, kept_at, keys_of};
pub use writing::{next_release, write_changes};
