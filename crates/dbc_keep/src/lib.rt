//! The canonical text of a sheet with the statements that the reader skips.
//!
//! [`kept_text_of`] writes the text of a reading's sheet, and in it each statement that was skipped: verbatim, on a
//! line of its own, at the place that Vector's order of statements gives to its keyword. `dbc_keep_law` defines that
//! text (`specs/Kept.antt`) and has its laws: it reads as the same sheet, its skipped statements are those of the
//! source, and it is its own kept text.
//!
//! A reading has the offset and the keyword of each statement that was skipped. Its bytes are found again from there
//! (`passages`): they end with the first `;`, or, after `BO_`, before the next statement. The parts of the canonical
//! text (`dbc_write`) and the statements of one place after the other (`places`) are appended to one buffer (`kept`).
//!
//! [`text_with_staying`] does the same for another sheet, as a release of the network that the source describes. Of the
//! statements that were skipped, those stay that cite only what the sheet has (`staying`, `citing`, `words`); the
//! others are listed with why. [`text_with_j1939`] adds to such a text the attributes by which other tools take its
//! messages as those of SAE J1939 (`j1939`). [`complete`] is both, as an export asks for them ([`Besides`]). The text
//! reads as the sheet and as no other. Each statement of the original that is left out gets a line `FILE:LINE:COLUMN:
//! passed KEYWORD: why` (`left_out`), of the form in which `dbc_advice` reports what is skipped. Lines are counted on
//! from one statement to the next (`counting`), so a long list takes one walk over the file.
#![tactic(auto)]

mod citing;
mod completing;
mod counting;
mod j1939;
mod kept;
mod left_out;
mod passages;
mod places;
mod said;
mod staying;
mod words;

pub use completing::{Besides, Completed, complete};
pub use dbc_keep_law::LeavingReason;
pub use j1939::text_with_j1939;
pub use kept::kept_text_of;
pub use left_out::left_out_lines;
pub use staying::{LeftOut, text_with_staying};
