//! Tests of the libraries through their public calls: that a call succeeds where memory is there, what is printed, and
//! what is left. Which values they give is in the `proofs/` of their crates, as computed rows, and in `tests/`, as runs
//! of the program.
//!
//! They are in one crate, since each program and each crate of tests loads the proofs of all that it reaches.
#![tactic(auto)]

#[cfg(test)]
mod changes;
#[cfg(test)]
mod copies;
#[cfg(test)]
mod decimals;
#[cfg(test)]
mod identifiers;
#[cfg(test)]
mod layouts;
#[cfg(test)]
mod lists;
#[cfg(test)]
mod made;
#[cfg(test)]
mod masks;
#[cfg(test)]
mod numbers;
