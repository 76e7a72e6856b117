//! What the office does with each command, as definitions alone.
//!
//! The definitions are in `specs/`. Each command has its refusals in one list, in the order in which they are tested,
//! and its change and reply: `Opening.antt` (opening a network, granting a block, adding a node), `Numbers.antt`
//! (taking an identifier or a parameter group), `Signals.antt` (the commands on signals), `Retiring.antt`,
//! `Importing.antt` and `Reviewing.antt`. `Facts.antt` has what the tests read of a network, `Outcome.antt` what a
//! command results in, and `Commands.antt` finds the command's own definition, its tests and what it reads of releases.
//! `Step.antt` has steps and runs of them, `Change.antt` what changes do, and `Kept.antt` what every office keeps. The
//! rows of `proofs/` are worked examples.
#![tactic(auto)]
