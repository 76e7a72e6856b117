//! Texts in columns of a fixed width.
ghost use Rattle.std.specs.Prelude.{◌≡◌, IfOk, decimal};
ghost use Rattle.columns.specs.Padding.{filled, set_left, set_right};

use crate::texts::concat;
use std::alloc::{AllocError, Global};

/// The text, right-aligned in this many columns, with this byte before it. The error is out of memory.
pub fn filled(alloc: Global, fill: u8, columns: usize, text: &[u8]) -> Result<Vec<u8>, AllocError>
    ensures { IfOk result (λ set. set.items ≡ filled fill columns text.now) }
{
    let before = vec![in alloc; fill; columns.saturating_sub(text.len())]?;
    concat(alloc, &[&before, text])
}

/// The number in decimal, right-aligned in this many columns. The error is out of memory.
pub fn number_right(alloc: Global, columns: usize, number: usize) -> Result<Vec<u8>, AllocError>
    ensures { IfOk result (λ set. set.items ≡ set_right columns (decimal number)) }
{
    let digits = format!(in alloc; "{number}")?;
    filled(alloc, b' ', columns, digits.as_bytes())
}

/// The text, left-aligned in this many columns. The error is out of memory.
pub fn set_left(alloc: Global, columns: usize, text: &[u8]) -> Result<Vec<u8>, AllocError>
    ensures { IfOk result (λ set. set.items ≡ set_left columns text.now) }
{
    let spaces = vec![in alloc; b' '; columns.saturating_sub(text.len())]?;
    concat(alloc, &[text, &spaces])
}
