//! The store: an office on SQLite tables, which answers requests that may arrive again.
//!
//! [`StoredOffice::open`] makes the tables on a database that has none, or takes those of an earlier run.
//! [`StoredOffice::arrive`] answers one arrival, in one transaction, and [`StoredOffice::run`] a list of them.
//! [`StoredOffice::look`] gives the text of what is looked up: of networks, or of a team's requests.
//! [`StoredOffice::see`] gives what there is to be read of a network, to report why a command on it was refused.
//! [`StoredOffice::close`] gives the connection back. A call that is [`Lost`] counts as not made.
//!
//! Tables hold a history (`specs/Holds.antt`) if it is legal, their rows stand for the office that it leaves, and there
//! is one kept reply for each first arrival. The main theorem is the contract of [`StoredOffice::run`]
//! (`specs/Headline.antt`): for every list of arrivals, the history that the tables held before, followed by the
//! arrivals that were answered, in order and with their answers, is what they hold after. [`held_networks_are_clear`]
//! says what then holds of each network, [`held_numbers_mean_one_thing`] of numbers that were given out, and
//! [`held_networks_are_apart`] of an answer after other histories.
//!
//! The other definitions are in `specs/`: `Holding.antt` (connections, and what a crash leaves, that hold a history),
//! `Calls.antt` (what a call on an office promises), `OpensAs.antt` (what opening and migrating do), `Making.antt`
//! (what makes the tables below them), `Opening.antt`, `Deciding.antt`, `Running.antt`, `Looking.antt`, `Seeing.antt`
//! and `Laws.antt` by the names of the modules, `Office.antt` (an office as contracts see it) and `Lost.antt`.
#![tactic(auto)]

mod arriving;
mod deciding;
mod laws;
mod looking;
mod losing;
mod lost;
mod migrating;
mod opening;
mod running;
mod seeing;
mod stored_office;

pub use laws::{held_networks_are_apart, held_networks_are_clear, held_numbers_mean_one_thing};
pub use lost::Lost;
pub use office_history::{Answer, Arrival, Key, Request};
pub use office_types::Look;
pub use store_looks::ReadNet;
pub use store_migrate::Watch;
pub use stored_office::StoredOffice;
