//! Remarks on texts for values.
ghost use Rattle.std.specs.Prelude.{◌≡◌, ◌++◌, IfOk, OnOk, not};
ghost use Rattle.std.specs.List.{flat_map};
ghost use Rattle.decimal.specs.Printing.{text_of};
ghost use Rattle.dbc_lint.specs.OfSignal.{remark_twice, value_outside, values_twice};

use crate::kind::Kind;
use crate::number_set::NumberSet;
use crate::numbers::holds_value;
use crate::remark::{Remark, add_word_when};
use dbc_sheet::{Signal, ValueText};
use decimal::Decimal;
use std::alloc::{AllocError, Global};

/// The text of a value.
fn value_text(alloc: Global, value: &Decimal) -> Result<Vec<u8>, AllocError>
    ensures { IfOk result (λ text. text.items ≡ text_of value.now) }
{
    let mut text = Vec::new(alloc);
    value.print_into(&mut text)?;
    Ok(text)
}

/// Adds a remark if the bits of the signal can't hold the value of the text.
fn add_value_outside(
    alloc: Global,
    words: &[u8],
    at: usize,
    signal: &Signal,
    entry: &ValueText,
    remarks: &mut Vec<Remark>,
) -> Result<(), AllocError>
    ensures { OnOk result (remarks.new.items ≡ remarks.old.items
        ++ value_outside words.now at signal.now entry.now) }
{
    if holds_value(signal, &entry.value) {
        return Ok(());
    }
    let word = value_text(alloc, &entry.value)?;
    add_word_when(alloc, true, Kind::ValueOutside, at, words, &word, remarks)
}

/// Adds the remarks on texts for values that the bits of the signal can't hold.
pub(crate) fn add_values_outside(
    alloc: Global,
    words: &[u8],
    at: usize,
    signal: &Signal,
    remarks: &mut Vec<Remark>,
) -> Result<(), AllocError>
    ensures { OnOk result (remarks.new.items ≡ remarks.old.items
        ++ flat_map (value_outside words.now at signal.now) signal.now.values) }
{
    for entry in signal.values.as_slice() {
        add_value_outside(alloc, words, at, signal, entry, remarks)?;
    }
    Ok(())
}

/// Adds a remark on the value if it isn't new.
fn add_value_twice(
    alloc: Global,
    words: &[u8],
    at: usize,
    new: bool,
    value: &Decimal,
    remarks: &mut Vec<Remark>,
) -> Result<(), AllocError>
    ensures { OnOk result (remarks.new.items ≡ remarks.old.items
        ++ remark_twice words.now at (not new) value.now) }
{
    if new {
        return Ok(());
    }
    let word = value_text(alloc, value)?;
    add_word_when(alloc, true, Kind::ValueTwice, at, words, &word, remarks)
}

/// Adds the remarks on texts for a value that an earlier one of them is for.
pub(crate) fn add_values_twice(
    alloc: Global,
    words: &[u8],
    at: usize,
    entries: &[ValueText],
    remarks: &mut Vec<Remark>,
) -> Result<(), AllocError>
    ensures { OnOk result (remarks.new.items ≡ remarks.old.items
        ++ values_twice words.now at entries.now 0 entries.now) }
{
    let mut seen = NumberSet::new(alloc);
    for entry in entries {
        let new = seen.insert(&entry.value)?;
        add_value_twice(alloc, words, at, new, &entry.value, remarks)?;
    }
    Ok(())
}
