//! What the rows of the office's tables stand for.
//!
//! A part of a network is rows of one table: its head, granted blocks, held identifiers, approvals and releases; its
//! live messages are rows of four. Rows stand for a list if, in the order of their key, each stands for its item; a row
//! whose text only reads as its item stands for it too. What a change writes and removes, and what it does at its
//! network and in the book, agree.
//!
//! [`items_of`] gives the list whose rows a query shows, by [`FromRow`]: if the rows stand for a list, that is the list
//! it gives. [`granted_of`] does so for a network's own blocks, and leaves out those of suspect parameter numbers.
//! [`blob_at`] and [`number_at`] give one column.
//!
//! The definitions are in `specs/`: `Listed.antt` (rows that stand for a list), `Rows.antt` (the rows of a network and
//! of the book), `Live.antt` (those of live messages), `NetIn.antt` (a network in the tables), `Written.antt` and
//! `LiveWritten.antt` (the tables after the rows of a change are written), `Follows.antt` (the tables go from one
//! network and book to another), `Showing.antt` and `SignalShowing.antt` (what a row of a query shows). The lemmas on
//! them, for the crates above, are in `proofs/`: `Listing.antt` (any rows and items), `Changes.antt` (one for each
//! change, and for changes one after the other), `Reading.antt` (what the rows of each query show), `Fresh.antt`
//! (tables with no row), `Frames.antt` and `Made.antt` (what statements one after the other keep and make).
#![tactic(auto)]

mod columns;
mod from_row;
mod granted;
mod items;
mod live_message;
mod merging;
mod signal;
mod signal_columns;

pub use columns::{blob_at, number_at, text_at};
pub use from_row::FromRow;
pub use granted::granted_of;
pub use items::items_of;
pub use live_message::live_message_of;
pub use merging::signals_of;
pub use signal::signal_of;
