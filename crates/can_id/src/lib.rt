//! CAN identifiers, and the numbers that a DBC file writes for them.
//!
//! A CAN data frame has an identifier of 11 bits (base frame format, 0 to 2047) or of 29 bits (extended frame
//! format, 0 to 536870911): its [`IdentForm`]. A DBC file writes either as one number: an 11-bit identifier as
//! itself, a 29-bit one with bit 31 set above it (Vector's DBC File Format Documentation, the message statement
//! `BO_`). [`Ident::from_dbc`] and [`Ident::to_dbc`] go both ways, exactly; every other number is refused.
//!
//! A 29-bit identifier has the fields of SAE J1939-21's protocol data unit: [`J1939`] takes it apart, builds it of the
//! fields of a message, and gives its parameter group number. [`is_pgn`] says which numbers are those of groups, and
//! [`has_destination`] which groups have a destination address.
//!
//! Lists of identifiers are in the order of their DBC numbers. Nothing here takes memory. The definitions are in
//! `specs/Form.antt`, `specs/Ident.antt` and `specs/J1939.antt`.
#![tactic(auto)]

mod fault;
mod form;
mod ident;
mod j1939;
mod lists;

pub use fault::IdFault;
pub use form::{EXTENDED_FLAG, GREATEST_EXTENDED, GREATEST_STANDARD, IdentForm};
pub use ident::{ExtendedId, Ident, StandardId};
pub use j1939::{J1939, has_destination, is_pgn, pgn_count};
