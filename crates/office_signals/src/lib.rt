//! What the office decides on commands on a live message.
//!
//! The commands: taking bits for a new signal ([`decide_take_bits`]), taking a suspect parameter number for a signal
//! ([`decide_take_spn`]), setting the texts of a signal's values ([`decide_set_values`]), removing a signal
//! ([`decide_remove_signal`]), and taking the whole message out ([`decide_retire`]).
//!
//! Each takes what it reads of the network and no more: the facts for the message that the command names, and the book
//! or the releases where it reads them. Its contract speaks of every network that has these facts, so a decision by
//! rows of tables is the same. The outcome of each command is defined in `office_rules` (`Signals.antt`,
//! `Retiring.antt`). All of them first find the team's own message (`own.rt`); what costs work or memory comes after
//! every test that doesn't.
#![tactic(auto)]

mod bits;
mod own;
mod removing;
mod retiring;
mod spn;
mod start;
mod values;

pub use bits::decide_take_bits;
pub use removing::decide_remove_signal;
pub use retiring::decide_retire;
pub use spn::decide_take_spn;
pub use values::decide_set_values;
