//! The rows of the signals of a message.
ghost use Rattle.std.specs.Prelude.{◌≡◌, ◌++◌, ◌∷◌, [], IfOk, OnOk};
ghost use Rattle.office_looks.specs.Message.{note_rows, signal_kinds, signal_row, spn_shown, type_row, type_rows};
ghost use Rattle.office_looks.specs.Message.{value_rows};

use dbc_sheet::Signal;
use dbc_words::{Spn, ValueType};
use rows::{Alignment, Cell, Column, Kind, Rows};
use std::alloc::{AllocError, Global};

/// The columns of a signal.
pub const SIGNALS: [Column; 8] = [
    Column(*b"layout      ", Alignment::Right(10)),
    Column(*b"multiplexer ", Alignment::Left(4)),
    Column(*b"spn         ", Alignment::Right(6)),
    Column(*b"signal      ", Alignment::Left(22)),
    Column(*b"scale       ", Alignment::Left(14)),
    Column(*b"range       ", Alignment::Left(14)),
    Column(*b"unit        ", Alignment::Left(6)),
    Column(*b"receivers   ", Alignment::Plain),
];

/// The columns of the type of a signal whose values are no whole numbers.
pub const TYPES: [Column; 2] = [
    Column(*b"signal      ", Alignment::Plain),
    Column(*b"type        ", Alignment::Plain),
];

/// The columns of a text for a value of a signal.
pub const VALUES: [Column; 3] = [
    Column(*b"signal      ", Alignment::Left(22)),
    Column(*b"value       ", Alignment::Right(6)),
    Column(*b"text        ", Alignment::Plain),
];

/// The columns of the comment of a signal.
pub const NOTES: [Column; 2] = [
    Column(*b"signal      ", Alignment::Left(22)),
    Column(*b"comment     ", Alignment::Plain),
];

/// The number, where it is one.
fn spn_shown(spn: Spn) -> Option<u128>
    ensures { result ≡ spn_shown spn }
{
    let number = spn.number();
    if number == 0 {
        None
    } else {
        Some(u128::from(number))
    }
}

/// Adds the row of a signal.
fn push_signal<'a>(alloc: Global, rows: &mut Rows<'a>, signal: &'a Signal) -> Result<(), AllocError>
    ensures { OnOk result (rows.new ≡ rows.old ++ signal_row signal.now ∷ []) }
{
    let receivers = Cell::words(alloc, signal.receivers.as_slice())?;
    let cells = vec![in alloc;
        Cell::Layout(signal.layout, signal.signed),
        Cell::Mux(signal.mux),
        Cell::Maybe(spn_shown(signal.spn)),
        Cell::Name(signal.name.as_bytes()),
        Cell::Scale(&signal.factor, &signal.offset),
        Cell::Range(&signal.minimum, &signal.maximum),
        Cell::Word(signal.unit.as_bytes()),
        receivers,
    ]?;
    rows.push(cells)
}

/// Adds the row of a signal's type, which is this word.
fn push_typed<'a>(
    alloc: Global,
    rows: &mut Rows<'a>,
    signal: &'a Signal,
    word: &'static [u8],
) -> Result<(), AllocError>
    ensures { OnOk result (rows.new ≡ rows.old ++ type_row signal.now word.now ∷ []) }
{
    let cells = vec![in alloc; Cell::Name(signal.name.as_bytes()), Cell::Name(word)]?;
    rows.push(cells)
}

/// Adds the row of a signal's type; none where its values are whole numbers.
fn push_type<'a>(alloc: Global, rows: &mut Rows<'a>, signal: &'a Signal) -> Result<(), AllocError>
    ensures { OnOk result (rows.new ≡ rows.old ++ type_rows signal.now) }
{
    match signal.value_type {
        ValueType::Integer => Ok(()),
        ValueType::Float => push_typed(alloc, rows, signal, b"float"),
        ValueType::Double => push_typed(alloc, rows, signal, b"double"),
    }
}

/// Adds the rows of the texts for values of a signal.
fn push_values<'a>(alloc: Global, rows: &mut Rows<'a>, signal: &'a Signal) -> Result<(), AllocError>
    ensures { OnOk result (rows.new ≡ rows.old ++ value_rows signal.now) }
{
    for value in signal.values.as_slice() {
        let cells = vec![in alloc;
            Cell::Name(signal.name.as_bytes()),
            Cell::Decimal(&value.value),
            Cell::Rest(value.text.as_bytes()),
        ]?;
        rows.push(cells)?;
    }
    Ok(())
}

/// Adds the row of a signal's comment; none where it has none.
fn push_note<'a>(alloc: Global, rows: &mut Rows<'a>, signal: &'a Signal) -> Result<(), AllocError>
    ensures { OnOk result (rows.new ≡ rows.old ++ note_rows signal.now) }
{
    let comment = signal.comment.as_bytes();
    if comment.is_empty() {
        return Ok(());
    }
    let cells = vec![in alloc; Cell::Name(signal.name.as_bytes()), Cell::Rest(comment)]?;
    rows.push(cells)
}

/// The rows of the signals: of each its own, then the types, the texts for values, and the comments.
pub(crate) fn signal_kinds(alloc: Global, signals: &[Signal]) -> Result<Vec<Kind<'_>>, AllocError>
    ensures { IfOk result (λ kinds. kinds.items ≡ signal_kinds signals.now) }
{
    let mut plain = Rows::new(alloc);
    let mut types = Rows::new(alloc);
    let mut values = Rows::new(alloc);
    let mut notes = Rows::new(alloc);
    for signal in signals {
        push_signal(alloc, &mut plain, signal)?;
        push_type(alloc, &mut types, signal)?;
        push_values(alloc, &mut values, signal)?;
        push_note(alloc, &mut notes, signal)?;
    }
    Ok(vec![in alloc;
        Kind::of(b"signal      ", &SIGNALS, plain),
        Kind::of(b"type        ", &TYPES, types),
        Kind::of(b"value       ", &VALUES, values),
        Kind::of(b"note        ", &NOTES, notes),
    ]?)
}
