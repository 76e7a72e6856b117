//! The changes of fields, each of which breaks a receiver or doesn't.
ghost use Rattle.std.specs.Prelude.{◌≡◌, ◌++◌, ◌∷◌, [], OnOk};
ghost use Rattle.dbc_compare.specs.Differences.{field_changes};
ghost use Rattle.dbc_compare.specs.Value.{Dec, Names, Texts, Whole, WholeOrNone, Word};

use crate::difference::Alteration;
use crate::field::SheetField;
use crate::values::{decimal_text, digits, entries_text, spn_text};
use base::Items;
use columns::{word, words};
use dbc_sheet::ValueText;
use dbc_words::{Name, Spn};
use decimal::Decimal;
use std::alloc::{AllocError, Global};

/// Adds that the field had the one word and has the other.
fn push_words(
    changes: &mut Vec<Alteration>,
    field: SheetField,
    breaks: bool,
    old: Vec<u8>,
    new: Vec<u8>,
) -> Result<(), AllocError>
    ensures { OnOk result
        (changes.new.items ≡ changes.old.items ++ Alteration.Changed field breaks old.items new.items ∷ []) }
{
    let old = Items::from_vec(old);
    let new = Items::from_vec(new);
    changes.push(Alteration::Changed {
        field,
        breaks,
        old,
        new,
    })?;
    Ok(())
}

/// Adds the change of a whole number, if it has changed.
#[tactic(auto, unfolding(crate::specs::Differences::field_changes))]
pub(crate) fn push_whole(
    alloc: Global,
    changes: &mut Vec<Alteration>,
    field: SheetField,
    breaks: bool,
    old: u64,
    new: u64,
) -> Result<(), AllocError>
    ensures { OnOk result (changes.new.items
        ≡ changes.old.items ++ field_changes field breaks (Whole old) (Whole new)) }
{
    if old == new {
        return Ok(());
    }
    let old = digits(alloc, old)?;
    let new = digits(alloc, new)?;
    push_words(changes, field, breaks, old, new)
}

/// Adds the change of a name or a text, if it has changed.
#[tactic(auto, unfolding(crate::specs::Differences::field_changes))]
pub(crate) fn push_word(
    alloc: Global,
    changes: &mut Vec<Alteration>,
    field: SheetField,
    breaks: bool,
    old: &[u8],
    new: &[u8],
) -> Result<(), AllocError>
    ensures { OnOk result (changes.new.items
        ≡ changes.old.items ++ field_changes field breaks (Word old.now) (Word new.now)) }
{
    if old == new {
        return Ok(());
    }
    let old = word(alloc, old)?;
    let new = word(alloc, new)?;
    push_words(changes, field, breaks, old, new)
}

/// Adds the change of a suspect parameter number, if it has changed.
#[tactic(auto, unfolding(crate::specs::Differences::field_changes))]
pub(crate) fn push_spn(
    alloc: Global,
    changes: &mut Vec<Alteration>,
    field: SheetField,
    breaks: bool,
    old: Spn,
    new: Spn,
) -> Result<(), AllocError>
    ensures { OnOk result (changes.new.items
        ≡ changes.old.items ++ field_changes field breaks (WholeOrNone old) (WholeOrNone new)) }
{
    if old == new {
        return Ok(());
    }
    let old = spn_text(alloc, old)?;
    let new = spn_text(alloc, new)?;
    push_words(changes, field, breaks, old, new)
}

/// Adds the change of a decimal, if it has changed.
#[tactic(auto, unfolding(crate::specs::Differences::field_changes))]
pub(crate) fn push_decimal(
    alloc: Global,
    changes: &mut Vec<Alteration>,
    field: SheetField,
    breaks: bool,
    old: &Decimal,
    new: &Decimal,
) -> Result<(), AllocError>
    ensures { OnOk result (changes.new.items
        ≡ changes.old.items ++ field_changes field breaks (Dec old.now) (Dec new.now)) }
{
    if old == new {
        return Ok(());
    }
    let old = decimal_text(alloc, old)?;
    let new = decimal_text(alloc, new)?;
    push_words(changes, field, breaks, old, new)
}

/// Adds the change of a list of names, if it has changed.
#[tactic(auto, unfolding(crate::specs::Differences::field_changes))]
pub(crate) fn push_names(
    alloc: Global,
    changes: &mut Vec<Alteration>,
    field: SheetField,
    breaks: bool,
    old: &[Name],
    new: &[Name],
) -> Result<(), AllocError>
    ensures { OnOk result (changes.new.items
        ≡ changes.old.items ++ field_changes field breaks (Names old.now) (Names new.now)) }
{
    if old == new {
        return Ok(());
    }
    let old = words(alloc, old)?;
    let new = words(alloc, new)?;
    push_words(changes, field, breaks, old, new)
}

/// Adds the change of texts for values, if they have changed.
#[tactic(auto, unfolding(crate::specs::Differences::field_changes))]
pub(crate) fn push_texts(
    alloc: Global,
    changes: &mut Vec<Alteration>,
    field: SheetField,
    breaks: bool,
    old: &[ValueText],
    new: &[ValueText],
) -> Result<(), AllocError>
    ensures { OnOk result (changes.new.items
        ≡ changes.old.items ++ field_changes field breaks (Texts old.now) (Texts new.now)) }
{
    if old == new {
        return Ok(());
    }
    let old = entries_text(alloc, old)?;
    let new = entries_text(alloc, new)?;
    push_words(changes, field, breaks, old, new)
}
