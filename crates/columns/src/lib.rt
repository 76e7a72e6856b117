//! Texts in columns, for lines that people read and scripts take apart.
//!
//! - [`concat`]: texts one after the other. A line is made of its parts by one call of it: each `?` beside a text that is
//!   kept costs the prover seconds.
//! - [`filled`], [`number_right`] and [`set_left`]: a text in a column of a fixed width. Nothing is cut.
//! - [`word`], [`words`] and [`rest`]: bytes as a word, as words with commas between, and as the last column of a line.
//! - [`Run`], [`runs_of`] and [`runs_text`]: ascending numbers as runs, `1-3,5`.
//! - [`ident_columns`] and [`no_ident_columns`]: the columns of an identifier, and of none; [`form_word`] and
//!   [`hexadecimal`]: two of them alone.
//!
//! The definitions are in `specs/`: `Padding.antt`, `Word.antt`, `Run.antt` and `IdentColumns.antt`.
#![tactic(auto)]

mod escaping;
mod ident;
mod padding;
mod run;
mod texts;

pub use escaping::{rest, word, words};
pub use ident::{form_word, hexadecimal, ident_columns, no_ident_columns};
pub use padding::{filled, number_right, set_left};
pub use run::{Run, runs_of, runs_text};
pub use texts::concat;
