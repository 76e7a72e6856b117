//! Remarks on a DBC text that reads: what its sheet has that is hardly meant so.
//!
//! [`remarks_on`] gives each [`Remark`], in the order of the file, and [`remark_rows`] a row for each. A [`Kind`] is a kind of
//! remark, with a number and a name. The definitions are in `specs/`: `OfSignal.antt`, `OfMessage.antt`, `OfNode.antt`
//! and `OfTable.antt` have the remarks on one thing, `OfSpn.antt` those on a number that two signals have,
//! `Numbers.antt` what bits hold, `OfFile.antt` all remarks and where they are in the file, and `Listing.antt` their
//! rows.
//!
//! A remark on a signal or a node is at its name, and one on a message or a value table at the keyword of its
//! statement. What other statements attach to a signal, its texts for values among them, is remarked at the signal.
#![tactic(auto)]

mod kind;
mod linting;
mod listing;
mod number_set;
mod numbers;
mod of_message;
mod of_node;
mod of_signal;
mod of_spn;
mod of_statement;
mod of_values;
mod places;
mod range;
mod remark;
mod spn_places;
mod whole;

pub use kind::{ALL_KINDS, Kind, first_unknown};
pub use linting::remarks_on;
pub use listing::{REMARKS, remark_rows};
pub use remark::Remark;
