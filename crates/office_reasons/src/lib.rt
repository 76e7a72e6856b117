//! Why the office refuses a command: in one sentence with what it collides and what there is instead.
//!
//! [`reason`] makes the sentence from the office as it is [`Seen`] while the command is refused: a refusal changes
//! nothing, so that is the office before and after. [`answer_reason`] makes that of a refusal that may have been
//! answered before under its key, and [`key_reused_reason`] that of a key that came with another request. A sentence is
//! one line of printable ASCII, and it is made whatever is seen: where that doesn't show the refusal, it is what the
//! refusal means (`plain`).
//!
//! `actions` has the reasons of each command in the order of its tests, `files` those of an import and `bundles` that
//! of the refused command of a bundle, on a copy on which the earlier ones are carried out. The sentences are made in
//! `networks`, `blocks`, `numbers`, `messages`, `signals`, `bits` and `reviews`, of the words in `pieces`, `places` and
//! `few`. The definitions are in `specs/`, by the names of the modules. Nothing that decides loads this crate.
#![tactic(auto)]

mod actions;
mod bits;
mod blocks;
mod bundles;
mod case;
mod few;
mod files;
mod kept;
mod messages;
mod networks;
mod numbers;
mod pieces;
mod places;
mod plain;
mod reasons;
mod releases;
mod reviews;
mod seen;
mod signals;

pub use kept::{answer_reason, key_reused_reason};
pub use reasons::{reads_releases, reason};
pub use seen::Seen;
