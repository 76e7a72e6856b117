//! Columns of rows as typed values.
ghost use Rattle.std.specs.Prelude.{◌≡◌, IfOk, Ok, pos};
ghost use Rattle.sqlite.specs.declared.types.Value.TheVariants.{Int, Text, Blob};
ghost use Rattle.sqlite.specs.Order.{column};
ghost use Rattle.decimal.specs.Number.{IsDecimal, Number};
ghost use Rattle.decimal.specs.Printing.{text_of};
ghost use Rattle.decimal.specs.Reading.{ReadsNumber};
ghost use Rattle.store_statements.specs.Mux.{mux_number};
ghost use Rattle.store_rows.specs.SignalShowing.{without_sign};
ghost use Rattle.store_rows.specs.Live.{flag_number, motorola_number, mux_column};

use crate::columns::{blob_at, number_at, text_at};
use bitlayout::{Mux, Order};
use dbc_words::{Name, Text};
use decimal::Decimal;
use sqlite::{Error, Row};
use std::alloc::Global;

/// The name in the column.
pub(crate) fn name_at(alloc: Global, row: &Row, at: usize) -> Result<Name, Error>
    ensures { IfOk result (λ name. column row.now at ≡ Text name) }
{
    let text = text_at(row, at)?;
    match Name::of(alloc, text)? {
        Some(name) => Ok(name),
        None => Err(Error::InvalidQuery),
    }
}

/// The bytes in the column, as those of a unit or a comment.
pub(crate) fn words_at(alloc: Global, row: &Row, at: usize) -> Result<Text, Error>
    ensures { IfOk result (λ text. column row.now at ≡ Blob text) }
{
    let bytes = blob_at(row, at)?;
    match Text::of(alloc, bytes)? {
        Some(text) => Ok(text),
        None => Err(Error::InvalidQuery),
    }
}

/// The decimal that the bytes without their sign read as.
fn decimal_read(negative: bool, digits: &[u8]) -> Result<Decimal, Error>
    ensures { IfOk result (λ d. (other : Number) → ReadsNumber negative digits.now (Ok other)
        → d ≡ other) }
{
    match Decimal::read(negative, digits) {
        Ok(decimal) => Ok(decimal),
        Err(_) => Err(Error::InvalidQuery),
    }
}

/// Whether the bytes begin with a minus, and what comes after it.
fn without_sign(bytes: &[u8]) -> (bool, &[u8])
    ensures { (result.0, result.1.now) ≡ without_sign bytes.now }
{
    match bytes {
        [b'-', digits @ ..] => (true, digits),
        _ => (false, bytes),
    }
}

/// The decimal that the bytes are the text of.
fn decimal_of(bytes: &[u8]) -> Result<Decimal, Error>
    ensures { IfOk result (λ d. (other : Number) → IsDecimal other → bytes.now ≡ text_of other
        → d ≡ other) }
{
    let (negative, digits) = without_sign(bytes);
    decimal_read(negative, digits)
}

/// The decimal in the column.
pub(crate) fn decimal_at(row: &Row, at: usize) -> Result<Decimal, Error>
    ensures { IfOk result (λ d. (other : Number) → IsDecimal other
        → column row.now at ≡ Text (text_of other)
        → d ≡ other) }
{
    let text = text_at(row, at)?;
    decimal_of(text)
}

/// The flag in the column.
pub(crate) fn flag_at(row: &Row, at: usize) -> Result<bool, Error>
    ensures { IfOk result (λ flag. column row.now at ≡ Int (pos (flag_number flag))) }
{
    match number_at(row, at)? {
        0 => Ok(false),
        1 => Ok(true),
        _ => Err(Error::InvalidQuery),
    }
}

/// The order of bits in the column.
pub(crate) fn order_at(row: &Row, at: usize) -> Result<Order, Error>
    ensures { IfOk result (λ order. column row.now at ≡ Int (pos (motorola_number order))) }
{
    if flag_at(row, at)? {
        Ok(Order::Motorola)
    } else {
        Ok(Order::Intel)
    }
}

/// When a signal is there, by the number in the column.
pub(crate) fn mux_at(row: &Row, at: usize) -> Result<Mux, Error>
    ensures { IfOk result (λ mux. column row.now at ≡ Int (mux_number (mux_column mux))) }
{
    let number: i64 = row.get(at)?;
    if number == -2 {
        return Ok(Mux::Always);
    }
    if number == -1 {
        return Ok(Mux::Multiplexor);
    }
    match u32::try_from(number) {
        Ok(value) => Ok(Mux::Under(value)),
        Err(_) => Err(Error::InvalidQuery),
    }
}
