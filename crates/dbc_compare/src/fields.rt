//! Which fields of a sheet and of its things have changed.
ghost use Rattle.std.specs.Prelude.{◌≡◌, ◌++◌, List, IfOk, OnOk};
ghost use Rattle.dbc_compare.specs.Differences.{changes_between, message_changes, sheet_changes};
ghost use Rattle.dbc_compare.specs.Fields.{is_integer, layout_fields, meaning_fields, names_of, reading_fields};
ghost use Rattle.dbc_compare.specs.Fields.{scale_fields, signal_breaks};

use crate::changes::{push_decimal, push_names, push_spn, push_texts, push_whole, push_word};
use crate::difference::Alteration;
use crate::field::SheetField;
use crate::values::{truth_word, type_word};
use bitlayout::same_bits;
use dbc_sheet::{Message, Node, Sheet, Signal, ValueTable};
use dbc_words::{Name, Named, ValueType};
use std::alloc::{AllocError, Global};
use std::slice::from_ref;

/// A thing of a sheet that is known by its name, and has fields that change.
pub(crate) trait Compared: Named {
    ghost use Rattle.dbc_compare.specs.declared.difference.Alteration.{Alteration};

    /// The changes of the fields from the one to the other.
    ghost changes_of: { Self → Self → List Alteration };

    /// The changes of the fields since it was the old one. The error is out of memory.
    fn changes_from(&self, alloc: Global, old: &Self) -> Result<Vec<Alteration>, AllocError>
        ensures { IfOk result (λ changes. changes.items ≡ changes_of old.now self.now) };
}

impl Compared for Node {
    ghost use Rattle.dbc_compare.specs.Differences.{node_changes};

    ghost changes_of = { node_changes };

    fn changes_from(&self, alloc: Global, old: &Node) -> Result<Vec<Alteration>, AllocError> {
        let mut changes = Vec::new(alloc);
        let (before, after) = (old.comment.as_bytes(), self.comment.as_bytes());
        push_word(
            alloc,
            &mut changes,
            SheetField::Comment,
            false,
            before,
            after,
        )?;
        Ok(changes)
    }
}

impl Compared for ValueTable {
    ghost use Rattle.dbc_compare.specs.Differences.{table_changes};

    ghost changes_of = { table_changes };

    fn changes_from(&self, alloc: Global, old: &ValueTable) -> Result<Vec<Alteration>, AllocError> {
        let mut changes = Vec::new(alloc);
        let (before, after) = (old.entries.as_slice(), self.entries.as_slice());
        push_texts(
            alloc,
            &mut changes,
            SheetField::Values,
            false,
            before,
            after,
        )?;
        Ok(changes)
    }
}

impl Compared for Signal {
    ghost use Rattle.dbc_compare.specs.Differences.{signal_changes};

    ghost changes_of = { signal_changes };

    fn changes_from(&self, alloc: Global, old: &Signal) -> Result<Vec<Alteration>, AllocError> {
        let mut changes = Vec::new(alloc);
        push_layout(alloc, &mut changes, old, self)?;
        push_reading(alloc, &mut changes, old, self)?;
        push_scale(alloc, &mut changes, old, self)?;
        push_meaning(alloc, &mut changes, old, self)?;
        Ok(changes)
    }
}

/// Adds the changes of where a signal's bits are.
fn push_layout(
    alloc: Global,
    changes: &mut Vec<Alteration>,
    old: &Signal,
    new: &Signal,
) -> Result<(), AllocError>
    ensures { OnOk result (changes.new.items
        ≡ changes.old.items ++ changes_between (signal_breaks old.now new.now)
        (layout_fields old.now) (layout_fields new.now)) }
{
    let moved = !same_bits(old.layout, new.layout);
    let (before, after) = (u64::from(old.layout.start), u64::from(new.layout.start));
    push_whole(alloc, changes, SheetField::Start, moved, before, after)?;
    let (before, after) = (
        u64::from(old.layout.size.bits()),
        u64::from(new.layout.size.bits()),
    );
    push_whole(alloc, changes, SheetField::Size, moved, before, after)?;
    let (before, after) = (
        old.layout.order.word().as_bytes(),
        new.layout.order.word().as_bytes(),
    );
    push_word(alloc, changes, SheetField::Order, moved, before, after)
}

/// Whether the raw value is an integer, whose sign is the signal's. A float has a sign of its own.
fn is_integer(value_type: ValueType) -> bool
    ensures { result ≡ is_integer value_type }
{
    matches!(value_type, ValueType::Integer)
}

/// Adds the changes of how a signal's bits are read, and when.
fn push_reading(
    alloc: Global,
    changes: &mut Vec<Alteration>,
    old: &Signal,
    new: &Signal,
) -> Result<(), AllocError>
    ensures { OnOk result (changes.new.items
        ≡ changes.old.items ++ changes_between (signal_breaks old.now new.now)
        (reading_fields old.now) (reading_fields new.now)) }
{
    let has_sign = is_integer(old.value_type) || is_integer(new.value_type);
    let (before, after) = (truth_word(old.signed), truth_word(new.signed));
    push_word(alloc, changes, SheetField::Signed, has_sign, before, after)?;
    let (before, after) = (type_word(old.value_type), type_word(new.value_type));
    push_word(alloc, changes, SheetField::ValueType, true, before, after)?;
    let (before, after) = (old.mux.indicator(), new.mux.indicator());
    let (before, after) = (before.as_bytes(), after.as_bytes());
    push_word(alloc, changes, SheetField::Mux, true, before, after)
}

/// Adds the changes of a signal's factor, offset and range.
fn push_scale(
    alloc: Global,
    changes: &mut Vec<Alteration>,
    old: &Signal,
    new: &Signal,
) -> Result<(), AllocError>
    ensures { OnOk result (changes.new.items
        ≡ changes.old.items ++ changes_between (signal_breaks old.now new.now)
        (scale_fields old.now) (scale_fields new.now)) }
{
    let (before, after) = (&old.factor, &new.factor);
    push_decimal(alloc, changes, SheetField::Factor, true, before, after)?;
    let (before, after) = (&old.offset, &new.offset);
    push_decimal(alloc, changes, SheetField::Offset, true, before, after)?;
    let (before, after) = (&old.minimum, &new.minimum);
    push_decimal(alloc, changes, SheetField::Minimum, false, before, after)?;
    let (before, after) = (&old.maximum, &new.maximum);
    push_decimal(alloc, changes, SheetField::Maximum, false, before, after)
}

/// Adds the changes of what a signal means, and to whom.
fn push_meaning(
    alloc: Global,
    changes: &mut Vec<Alteration>,
    old: &Signal,
    new: &Signal,
) -> Result<(), AllocError>
    ensures { OnOk result (changes.new.items
        ≡ changes.old.items ++ changes_between (signal_breaks old.now new.now)
        (meaning_fields old.now) (meaning_fields new.now)) }
{
    let (before, after) = (old.unit.as_bytes(), new.unit.as_bytes());
    push_word(alloc, changes, SheetField::Unit, false, before, after)?;
    push_spn(alloc, changes, SheetField::Spn, false, old.spn, new.spn)?;
    let (before, after) = (old.receivers.as_slice(), new.receivers.as_slice());
    push_names(alloc, changes, SheetField::Receivers, false, before, after)?;
    let (before, after) = (old.values.as_slice(), new.values.as_slice());
    push_texts(alloc, changes, SheetField::Values, false, before, after)?;
    let (before, after) = (old.comment.as_bytes(), new.comment.as_bytes());
    push_word(alloc, changes, SheetField::Comment, false, before, after)
}

/// The name, if there is one, as a list.
fn names_of(name: &Option<Name>) -> &[Name]
    ensures { result.now ≡ names_of name.now }
{
    match name {
        None => &[],
        Some(name) => from_ref(name),
    }
}

/// The changes of a message's own fields. The error is out of memory.
pub(crate) fn message_changes(
    alloc: Global,
    old: &Message,
    new: &Message,
) -> Result<Vec<Alteration>, AllocError>
    ensures { IfOk result (λ changes. changes.items ≡ message_changes old.now new.now) }
{
    let mut changes = Vec::new(alloc);
    let (before, after) = (u64::from(old.number()), u64::from(new.number()));
    push_whole(alloc, &mut changes, SheetField::Number, true, before, after)?;
    push_word(
        alloc,
        &mut changes,
        SheetField::Name,
        false,
        old.name.as_bytes(),
        new.name.as_bytes(),
    )?;
    let (before, after) = (u64::from(old.length.bytes()), u64::from(new.length.bytes()));
    push_whole(alloc, &mut changes, SheetField::Length, true, before, after)?;
    let (before, after) = (names_of(&old.transmitter), names_of(&new.transmitter));
    push_names(
        alloc,
        &mut changes,
        SheetField::Transmitter,
        false,
        before,
        after,
    )?;
    let (before, after) = (&old.comment, &new.comment);
    push_word(
        alloc,
        &mut changes,
        SheetField::Comment,
        false,
        before.as_bytes(),
        after.as_bytes(),
    )?;
    Ok(changes)
}

/// The changes of a sheet's own fields. The error is out of memory.
pub(crate) fn sheet_changes(
    alloc: Global,
    old: &Sheet,
    new: &Sheet,
) -> Result<Vec<Alteration>, AllocError>
    ensures { IfOk result (λ changes. changes.items ≡ sheet_changes old.now new.now) }
{
    let mut changes = Vec::new(alloc);
    let (before, after) = (old.version().as_bytes(), new.version().as_bytes());
    push_word(
        alloc,
        &mut changes,
        SheetField::Version,
        false,
        before,
        after,
    )?;
    let (before, after) = (old.comment().as_bytes(), new.comment().as_bytes());
    push_word(
        alloc,
        &mut changes,
        SheetField::Comment,
        false,
        before,
        after,
    )?;
    Ok(changes)
}
