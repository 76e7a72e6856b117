//! What the office does with a command, decided by what the command reads of its network.
//!
//! [`decide_by`] has a body for each action: by the facts of an action's scope it decides as for every network that has
//! them (`office_facts`). Of a network in memory the facts are found by a walk ([`walk`]); whoever has them from
//! elsewhere, by an index or from rows, needs no more. [`decide`] decides any command on a network in memory, which may
//! not be there: an import reads its file (`importing.rt`), and a bundle decides its parts one after the other, each on
//! a copy on which those before it are carried out (`bundling.rt`). Nothing else is changed here.
//!
//! `applying.rt` and `one_signal.rt` apply changes to such a copy, a [`Draft`].
//!
//! The bodies of the commands are in `office_net`, `office_signals` and `office_import`, and the definitions in
//! `office_rules/specs`: `Commands.antt` and `Step.antt` the outcome of a command, `Change.antt` what changes do.
#![tactic(auto)]

mod applying;
mod bundling;
mod by_facts;
mod deciding;
mod importing;
mod one_signal;
mod walking;

pub use applying::{Draft, bare_net, change_all, change_net, draft_of};
pub use by_facts::decide_by;
pub use deciding::{decide, decide_by_excerpt};
pub use one_signal::{add_at, set_spn_at, set_values_at, take_out_at};
pub use walking::{number_facts, retiring_facts, walk};
