//! The columns of an identifier.
ghost use Rattle.std.specs.Prelude.{◌≡◌, IfOk};
ghost use Rattle.columns.specs.IdentColumns.{form_word, group_text, hexadecimal, ident_columns, no_ident_columns};
ghost use Rattle.columns.specs.Padding.{set_right};

use crate::padding::{filled, number_right};
use crate::texts::concat;
use can_id::{Ident, J1939};
use std::alloc::{AllocError, Global};

/// The word for how many bits the identifier has: `std` for 11, `ext` for 29.
pub fn form_word(ident: &Ident) -> &'static [u8]
    ensures { result.now ≡ form_word ident.now }
{
    match ident {
        Ident::Std(_) => b"std",
        Ident::Ext(_) => b"ext",
    }
}

/// The identifier in 8 lower case hexadecimal digits. The error is out of memory.
pub fn hexadecimal(alloc: Global, ident: &Ident) -> Result<Vec<u8>, AllocError>
    ensures { IfOk result (λ text. text.items ≡ hexadecimal ident.now) }
{
    let number = ident.number();
    let digits = format!(in alloc; "{number:x}")?;
    filled(alloc, b'0', 8, digits.as_bytes())
}

/// The identifier's parameter group number, right-aligned in 6 columns, `-` for an 11-bit identifier.
fn group(alloc: Global, ident: &Ident) -> Result<Vec<u8>, AllocError>
    ensures { IfOk result (λ text. text.items ≡ set_right 6 (group_text ident.now)) }
{
    match J1939::of(*ident) {
        Some(fields) => number_right(alloc, 6, fields.pgn() as usize),
        None => filled(alloc, b' ', 6, b"-"),
    }
}

/// The identifier's columns, with a space between two: the number that a DBC file writes for it, right-aligned in 10;
/// `std` for 11 bits or `ext` for 29; the identifier in 8 lower case hexadecimal digits; its J1939 parameter group
/// number, right-aligned in 6, or `-` for 11 bits. The error is out of memory.
pub fn ident_columns(alloc: Global, ident: &Ident) -> Result<Vec<u8>, AllocError>
    ensures { IfOk result (λ text. text.items ≡ ident_columns ident.now) }
{
    let number = number_right(alloc, 10, ident.to_dbc() as usize)?;
    let digits = hexadecimal(alloc, ident)?;
    let group = group(alloc, ident)?;
    concat(
        alloc,
        &[&number, b" ", form_word(ident), b" ", &digits, b" ", &group],
    )
}

/// The columns of no identifier, as wide as those of one: `-` in each.
pub fn no_ident_columns() -> &'static [u8]
    ensures { result.now ≡ no_ident_columns }
{
    b"         - -   -             -"
}
