//! Laws of the office's steps.
//!
//! Each law is the contract of a function that does nothing; the statements are in `specs/`.
//!
//! - [`offices_are_kept`]: what every office keeps is kept by each step and each run.
//! - [`numbers_are_fresh`]: a number that is given out is live nowhere on its network, isn't held, and was never used.
//! - [`networks_are_apart`]: a command reads and changes its own network alone, and leaves its releases.
//! - [`releases_dont_count`]: what a network released doesn't count for the commands that don't read it;
//!   [`bodies_dont_count`]: what is in a release for those that read at most how many there are.
//! - [`steps_agree`]: a step is a function, but for the fault that is reported of a file that reads as no sheet.
//! - [`outcomes_are_left`], [`replies_are_apart`], [`one_history_leaves_one_network`]: so what becomes of a network
//!   depends on its own history alone.
//! - [`tests_decide_commands`]: a command is refused by the first of its tests that holds, and else it is answered.
//! - [`wants_are_real`]: a refusal for want of a block, a number or room comes only where there is none.
//! - [`nothing_is_missing`]: where no test of a command refuses, there is what it goes on with.
//! - [`numbers_elsewhere_do_not_count`] and [`sheets_have_one_multiplexor`]: what an allocator and an import needn't
//!   look at.
//!
//! What is proved of each action is one record, `proofs/OfAction.antt`: where it is refused, that its tests decide,
//! what it leaves of its network and the book, and what it depends on of releases. The records of a family of actions
//! stand in one file, as `proofs/SignalLaws.antt`; `proofs/EachAction.antt` finds that of an action, and the laws of
//! commands and bundles go by it.
#![tactic(auto)]

mod bundles;
mod deciding;
mod histories;
mod laws;

pub use bundles::bundles_run_their_parts;
pub use deciding::tests_decide_commands;
pub use histories::{one_history_leaves_one_network, outcomes_are_left, replies_are_apart};
pub use laws::{
    bodies_dont_count, networks_are_apart, nothing_is_missing, numbers_are_fresh,
    numbers_elsewhere_do_not_count, offices_are_kept, releases_dont_count,
    sheets_have_one_multiplexor, steps_agree, wants_are_real,
};
