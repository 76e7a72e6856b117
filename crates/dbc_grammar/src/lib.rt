//! The grammar of DBC text: what a file's tokens and statements are, and which sheet it reads as.
//!
//! It is in definitions only, and its laws are the contracts of functions that do nothing. `specs/Reads.antt` is the
//! one to read first: a text reads as a sheet if it has tokens ([`TokenKind`], `Tokens`, `Lexing`), these are divided
//! into statements (`Grammar`, `Division`; `Parsing` is the same computed), and the statements state the sheet
//! (`Saying`). `Canon` is the one text that is written for a sheet.
//!
//! The laws, in the order in which they build on one another: [`tokens_are_exact`], [`statements_are_single`],
//! [`divisions_are_single`], [`reading_is_exact`], [`statements_say_one_sheet`], and [`texts_read_as_one_sheet`], which
//! all layers above cite. That the canonical text of a sheet reads as that sheet is the law of `dbc_law`.
#![tactic(auto)]

mod reading_law;
mod saying_law;
mod statement_law;
mod token;
mod token_law;

pub use reading_law::texts_read_as_one_sheet;
pub use saying_law::statements_say_one_sheet;
pub use statement_law::{
    divisions_are_single, message_numbers_are_identifiers, numbers_are_decimals, reading_is_exact,
    statements_are_single,
};
pub use token::TokenKind;
pub use token_law::tokens_are_exact;
