//! The suspect parameter numbers of a network as a list: what has become of each, its releases and its places.
//!
//! [`spns_table`] gives the rows of all numbers that are shown ([`shown_spns`]), and how many there are; [`push_spn`]
//! adds those of one number. Both look in a [`SpnView`]: what is seen of a network (`office_seen`), with an index of
//! each of its sheets (`spn_index`), in which a number is found by binary search.
//!
//! The index of a sheet ([`SpnIndex`]) is there for a page of a network too, and so is what a line says: what has become
//! of a number ([`use_of`]), its releases ([`releases_with`]) and its places ([`shown_places`]).
//!
//! The definitions are in `specs/`: `Spns.antt` has where a number is, what has become of it (`SpnUse`) and the rows;
//! `SpnIndex.antt` says what an index has. A number is shown if a live signal or a release has it, or a block of the
//! network.
#![tactic(auto)]

mod spn_index;
mod spn_use;
mod spn_view;
mod spns;

pub use spn_index::{SpnIndex, SpnPlace};
pub use spn_use::SpnUse;
pub use spn_view::SpnView;
pub use spns::{
    SPN_TOTALS, SPNS, push_spn, releases_with, shown_places, shown_spns, spns_table, use_of,
};
