//! Words for what fields have.
ghost use Rattle.std.specs.Prelude.{◌≡◌, IfOk, decimal};
ghost use Rattle.decimal.specs.Printing.{text_of};
ghost use Rattle.dbc_compare.specs.Fields.{truth_word, type_word};
ghost use Rattle.dbc_compare.specs.Value.{entries_text, entry_text, later_entries, spn_text};

use bitlayout::Order;
use columns::{concat, word};
use dbc_sheet::ValueText;
use dbc_words::{Spn, ValueType};
use decimal::Decimal;
use std::alloc::{AllocError, Global};

/// The number's digits.
pub(crate) fn digits(alloc: Global, number: u64) -> Result<Vec<u8>, AllocError>
    ensures { IfOk result (λ text. text.items ≡ decimal number) }
{
    Ok(format!(in alloc; "{number}")?.into_bytes())
}

/// The decimal's text.
pub(crate) fn decimal_text(alloc: Global, number: &Decimal) -> Result<Vec<u8>, AllocError>
    ensures { IfOk result (λ text. text.items ≡ text_of number.now) }
{
    let mut text = Vec::new(alloc);
    number.print_into(&mut text)?;
    Ok(text)
}

/// The suspect parameter number; `-` for none.
pub(crate) fn spn_text(alloc: Global, spn: Spn) -> Result<Vec<u8>, AllocError>
    ensures { IfOk result (λ text. text.items ≡ spn_text spn) }
{
    let number = spn.number();
    if number == 0 {
        Vec::from_slice(alloc, b"-")
    } else {
        digits(alloc, u64::from(number))
    }
}

/// `true` or `false`.
pub(crate) fn truth_word(truth: bool) -> &'static [u8]
    ensures { result.now ≡ truth_word truth }
{
    if truth { b"true" } else { b"false" }
}

/// The word for the type of a value.
pub(crate) fn type_word(value_type: ValueType) -> &'static [u8]
    ensures { result.now ≡ type_word value_type }
{
    match value_type {
        ValueType::Integer => b"integer",
        ValueType::Float => b"float",
        ValueType::Double => b"double",
    }
}

/// A value and its text, as `0:Off`.
fn entry_text(alloc: Global, entry: &ValueText) -> Result<Vec<u8>, AllocError>
    ensures { IfOk result (λ text. text.items ≡ entry_text entry.now) }
{
    let value = decimal_text(alloc, &entry.value)?;
    let shown = word(alloc, entry.text.as_bytes())?;
    concat(alloc, &[&value, b":", &shown])
}

/// The values and their texts, each after a comma.
fn later_entries(alloc: Global, entries: &[ValueText]) -> Result<Vec<u8>, AllocError>
    ensures { IfOk result (λ text. text.items ≡ later_entries entries.now) }
{
    let mut text = Vec::new(alloc);
    for entry in entries {
        let one = entry_text(alloc, entry)?;
        text.push(b',')?;
        text.extend_from_slice(&one)?;
    }
    Ok(text)
}

/// The values and their texts with commas between, as `0:Off,1:On`; `-` for none.
pub(crate) fn entries_text(alloc: Global, entries: &[ValueText]) -> Result<Vec<u8>, AllocError>
    ensures { IfOk result (λ text. text.items ≡ entries_text entries.now) }
{
    match entries {
        [] => Vec::from_slice(alloc, b"-"),
        [first, others @ ..] => {
            let later = later_entries(alloc, others)?;
            let mut text = entry_text(alloc, first)?;
            text.extend_from_slice(&later)?;
            Ok(text)
        }
    }
}
