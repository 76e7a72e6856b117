//! An office in memory.
//!
//! [`PlainOffice::step`] carries a command out completely, or refuses it and changes nothing, and [`PlainOffice::run`]
//! runs a list of commands. What it holds is always that of an office (`office_rules/specs/Kept.antt`), so the laws of
//! `office_law` hold of what the program runs.
//!
//! What a command does is decided by `office_decide`; here the changes are carried out: one change in place, and some
//! pairs; more of them on copies of the network and the book first, so that nothing is changed where memory runs out
//! (`applying_in_place.rt`, and `applying.rt` for a network that isn't there yet).
//!
//! A [`PlainOffice`] keeps an index beside each network that isn't small, once a command would use it (`net_index.rt`).
//! With it commands but `take_pgn` find names and numbers without a walk (`looking_up.rt`, `indexed.rt`), and changes
//! are made where a search ends (`changing.rt`), which the index follows. Without it everything is decided alike, by a
//! walk.
//!
//! A [`KeyedOffice`] is an office that answers requests which may arrive again. [`KeyedOffice::arrive`] answers one
//! arrival, and [`KeyedOffice::run`] a list of them. The first arrival of a pair of team and key is a step of the
//! office, and its content and reply are kept. A later one of the same pair is answered from what is kept, and changes
//! nothing. What is kept of a pair is found by a hash map, so an arrival takes no longer where many came before. Such
//! an office holds a history (`HoldsHistory`, `specs/Keyed.antt`) if the history is legal and leaves the office, and
//! what is kept is that of its first arrivals. A new office holds the empty history, and each answer goes into every
//! history that the office held. `specs/Running.antt` has lists of arrivals.
//!
//! The definitions are in `office_rules/specs`: `Commands.antt` and `Step.antt` the outcome of a command, `Change.antt`
//! what changes do. `specs/OfficeApplied.antt` here has what they do to a whole office, `specs/Indexed.antt` what an
//! index is.
#![tactic(auto)]

mod applying;
mod applying_in_place;
mod changing;
mod first;
mod indexed;
mod keyed_office;
mod looking_up;
mod net_index;
mod plain;
mod stepping;

pub use keyed_office::KeyedOffice;
pub use plain::PlainOffice;
