//! Columns of rows as typed values.
ghost use Rattle.std.specs.Prelude.{◌≡◌, ℕ, List, IfOk, pos};
ghost use Rattle.sqlite.specs.declared.types.Value.TheVariants.{Int, Text, Blob};
ghost use Rattle.sqlite.specs.Order.{column};
ghost use Rattle.dbc_grammar.specs.Reads.{Reads};
ghost use Rattle.dbc_sheet.specs.declared.sheet.Sheet.{Sheet as SheetModel};

use dbc_sheet::Sheet;
use office_types::Team;
use sqlite::types::ValueRef;
use sqlite::{Error, Row};
use std::alloc::Global;
use store_bodies::sheet_of;

/// The text in the column. An error where it has none.
pub fn text_at(row: &Row, at: usize) -> Result<&[u8], Error>
    ensures { IfOk result (λ text. column row.now at ≡ Text text.now) }
{
    match row.get_ref(at)? {
        ValueRef::Text(text) => Ok(text),
        _ => Err(Error::InvalidQuery),
    }
}

/// The blob in the column. An error where it has none.
pub fn blob_at(row: &Row, at: usize) -> Result<&[u8], Error>
    ensures { IfOk result (λ blob. column row.now at ≡ Blob blob.now) }
{
    match row.get_ref(at)? {
        ValueRef::Blob(blob) => Ok(blob),
        _ => Err(Error::InvalidQuery),
    }
}

/// The number in the column. An error where it has none of 32 bits.
pub fn number_at(row: &Row, at: usize) -> Result<u32, Error>
    ensures { IfOk result (λ number. column row.now at ≡ Int (pos number)) }
{
    row.get(at)
}

/// The team in the column.
pub(crate) fn team_at(alloc: Global, row: &Row, at: usize) -> Result<Team, Error>
    ensures { IfOk result (λ team. column row.now at ≡ Text team) }
{
    let text = text_at(row, at)?;
    match Team::of(alloc, text)? {
        Some(team) => Ok(team),
        None => Err(Error::InvalidQuery),
    }
}

/// The sheet that the blob in the column reads as.
pub(crate) fn sheet_at(alloc: Global, row: &Row, at: usize) -> Result<Sheet, Error>
    ensures { IfOk result (λ sheet. (text : List ℕ) → (other : SheetModel)
        → column row.now at ≡ Blob text
        → Reads text other → sheet ≡ other) }
{
    let text = blob_at(row, at)?;
    match sheet_of(alloc, text)? {
        Some(sheet) => Ok(sheet),
        None => Err(Error::InvalidQuery),
    }
}
