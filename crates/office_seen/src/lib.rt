//! What is seen of a network by those who look something up, and what several looks show of it.
//!
//! - A [`View`] is all that is seen of a network; its releases are [`FrozenSheets`].
//! - What releases say of a message: [`since`] says what has become of it since the last one ([`last_release`],
//!   [`last_of`]), [`releases_with`], [`releases_runs`] and [`releases_text`] which of them have its number.
//! - [`has_number_in`] says whether a number is in a granted block, [`team_at`] and [`team_of`] whose block that is, and
//!   [`last_name`] what an identifier was called last.
//!
//! The definitions are in `specs/`: `View.antt` says what is seen of a network of an office, and `Since.antt`,
//! `Granted.antt` and `Owners.antt` are of the rest. The looks are those of `office_blocks`, `office_spns` and
//! `office_looks`. Nothing here decides anything: no crate that does uses it.
#![tactic(auto)]

mod frozen;
mod granted;
mod owners;
mod releases;
mod view;

pub use frozen::FrozenSheets;
pub use granted::has_number_in;
pub use owners::{last_name, team_at, team_of};
pub use releases::{last_of, last_release, releases_runs, releases_text, releases_with, since};
pub use view::View;
