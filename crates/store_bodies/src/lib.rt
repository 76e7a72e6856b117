//! Messages and sheets as texts, for the rows of tables.
//!
//! A table of an earlier office has a message as its body: the canonical DBC text of the sheet that has that message
//! alone. [`message_of`] gives the message back: whatever text reads as that sheet gives that message. A whole sheet,
//! such as a release, is kept as its canonical text, and [`sheet_of`] gives it back. So what was written comes back
//! equal, field by field (the grammar law of `dbc_law`), and a text that is no body gives `None`.
//!
//! [`ReadTexts`] are texts with the sheets that they read as, and [`RememberedTexts`] those that are remembered for the
//! next time: [`read_text`] gives the sheet of a text that is known, and reads any other. The definitions are those of
//! `specs/ReadText.antt`.
#![tactic(auto)]

mod bodies;
mod read_texts;
mod remembered;

pub use bodies::{message_of, sheet_of};
pub use read_texts::{ReadText, ReadTexts, TextsLeft, read_text};
pub use remembered::{REMEMBERED_LIMIT, RememberedTexts};
