//! A signal of its row, its receivers and its value texts.
ghost use Rattle.std.specs.Prelude.{◌≡◌, IfOk, pos};
ghost use Rattle.sqlite.specs.declared.types.Value.TheVariants.{Int};
ghost use Rattle.sqlite.specs.Order.{column};
ghost use Rattle.dbc_words.specs.ValueType.{value_type_number};
ghost use Rattle.dbc_words.specs.declared.value_type.ValueType.{ValueType as Kind};
ghost use Rattle.dbc_sheet.specs.declared.signal.Signal.{Signal as SignalModel};
ghost use Rattle.store_rows.specs.SignalShowing.{ShowsLayout, ShowsReceiver, ShowsSignal, ShowsValueText};

use crate::columns::number_at;
use crate::from_row::FromRow;
use crate::signal_columns::{decimal_at, flag_at, mux_at, name_at, order_at, words_at};
use bitlayout::{Layout, Size};
use dbc_sheet::{Receivers, Signal, ValueText, ValueTexts};
use dbc_words::{Name, Spn, ValueType};
use sqlite::{Error, Row};
use std::alloc::Global;

/// The layout in the third to the fifth column.
fn layout_at(row: &Row) -> Result<Layout, Error>
    ensures { IfOk result (λ layout. (other : SignalModel) → ShowsLayout other row.now
        → layout ≡ other.layout) }
{
    let start = number_at(row, 2)?;
    let bits = number_at(row, 3)?;
    let order = order_at(row, 4)?;
    let (Ok(start), Ok(bits)) = (u16::try_from(start), u8::try_from(bits)) else {
        return Err(Error::InvalidQuery);
    };
    match Size::new(bits) {
        Some(size) => Ok(Layout { start, size, order }),
        None => Err(Error::InvalidQuery),
    }
}

/// The suspect parameter number in the column.
fn spn_at(row: &Row, at: usize) -> Result<Spn, Error>
    ensures { IfOk result (λ spn. column row.now at ≡ Int (pos spn)) }
{
    let number = number_at(row, at)?;
    match Spn::new(number) {
        Some(spn) => Ok(spn),
        None => Err(Error::InvalidQuery),
    }
}

/// The value type in the column.
fn type_at(row: &Row, at: usize) -> Result<ValueType, Error>
    ensures { IfOk result (λ kind. (other : Kind)
        → column row.now at ≡ Int (pos (value_type_number other))
        → kind ≡ other) }
{
    let number = number_at(row, at)?;
    match ValueType::of(number) {
        Some(kind) => Ok(kind),
        None => Err(Error::InvalidQuery),
    }
}

impl FromRow for Name {
    ghost shows = { ShowsReceiver };

    fn from_row(alloc: Global, row: &Row) -> Result<Name, Error> {
        name_at(alloc, row, 1)
    }
}

impl FromRow for ValueText {
    ghost shows = { ShowsValueText };

    fn from_row(alloc: Global, row: &Row) -> Result<ValueText, Error> {
        let value = decimal_at(row, 1)?;
        let text = words_at(alloc, row, 2)?;
        Ok(ValueText { value, text })
    }
}

/// The signal of the row, with these receivers and value texts.
pub fn signal_of(
    alloc: Global,
    row: &Row,
    receivers: Receivers,
    values: ValueTexts,
) -> Result<Signal, Error>
    ensures { IfOk result (λ signal. (other : SignalModel) → ShowsSignal other row.now
        → receivers ≡ other.receivers
        → values ≡ other.values → signal ≡ other) }
{
    let name = name_at(alloc, row, 1)?;
    let layout = layout_at(row)?;
    let signed = flag_at(row, 5)?;
    let mux = mux_at(row, 6)?;
    let factor = decimal_at(row, 7)?;
    let offset = decimal_at(row, 8)?;
    let minimum = decimal_at(row, 9)?;
    let maximum = decimal_at(row, 10)?;
    let unit = words_at(alloc, row, 11)?;
    let comment = words_at(alloc, row, 12)?;
    let spn = spn_at(row, 13)?;
    let value_type = type_at(row, 14)?;
    Ok(Signal {
        name,
        layout,
        signed,
        value_type,
        mux,
        spn,
        factor,
        offset,
        minimum,
        maximum,
        unit,
        receivers,
        comment,
        values,
    })
}
