//! Exact decimals, as DBC files spell them.
//!
//! A [`Decimal`] is a whole mantissa of at most 36 digits times a power of ten from -400 to 400. Nothing is
//! rounded: [`Decimal::read`] gives the exact value that a number token writes, or says why there is none, and
//! [`Decimal::print_into`] writes a text that reads as the same decimal again. Each value has one decimal, so two
//! decimals are equal exactly where their values are.
//!
//! `specs/` says what a number token is and which number it writes (`Spelling`), when two numbers are one value
//! (`Number`), what reading answers (`Reading`) and what the text is (`Printing`). [`readings_are_computed`] says
//! that the answer computed there is the one that the equation of values describes.
#![tactic(auto)]

mod digits;
mod fault;
mod law;
mod number;
mod plain;
mod printing;
mod reading;
mod spelling;

pub use fault::DecimalFault;
pub use law::readings_are_computed;
pub use number::Decimal;
pub use spelling::{digits_len, fraction_len};
