//! Parts that the tests build. A part is `None` where memory is refused, or where it can't be built.
use bitlayout::{Layout, Mux, Order, Size};
use can_id::Ident;
use dbc_sheet::{Message, Receivers, Signal, Signals, ValueText, ValueTexts};
use dbc_words::{Name, PayloadLength, Spn, Text, ValueType};
use decimal::Decimal;
use std::alloc::Global;

pub(crate) fn name(alloc: Global, bytes: &[u8]) -> Option<Name> {
    Name::of(alloc, bytes).ok()?
}

pub(crate) fn text(alloc: Global, bytes: &[u8]) -> Option<Text> {
    Text::of(alloc, bytes).ok()?
}

pub(crate) fn decimal(spelling: &[u8]) -> Option<Decimal> {
    Decimal::read(false, spelling).ok()
}

/// A message of 8 bytes without signals.
pub(crate) fn message(alloc: Global, number: u32, bytes: &[u8]) -> Option<Message> {
    let ident = Ident::from_dbc(number).ok()?;
    let length = PayloadLength::new(8)?;
    let name = name(alloc, bytes)?;
    Some(Message {
        ident,
        name,
        length,
        transmitter: None,
        comment: Text::empty(alloc),
        signals: Signals::new(alloc),
    })
}

/// An unsigned signal of 8 bits and factor 1, Intel.
pub(crate) fn signal(alloc: Global, bytes: &[u8], start: u16, mux: Mux) -> Option<Signal> {
    let size = Size::new(8)?;
    let factor = decimal(b"1")?;
    let name = name(alloc, bytes)?;
    Some(Signal {
        name,
        layout: Layout {
            start,
            size,
            order: Order::Intel,
        },
        signed: false,
        mux,
        factor,
        offset: Decimal::ZERO,
        minimum: Decimal::ZERO,
        maximum: Decimal::ZERO,
        unit: Text::empty(alloc),
        receivers: Receivers::new(),
        comment: Text::empty(alloc),
        spn: Spn::NONE,
        values: ValueTexts::empty(alloc),
        value_type: ValueType::Integer,
    })
}

/// Adds a value with its text.
pub(crate) fn add_value(
    alloc: Global,
    entries: &mut Vec<ValueText>,
    value: &[u8],
    bytes: &[u8],
) -> Option<()> {
    let value = decimal(value)?;
    let text = text(alloc, bytes)?;
    entries.push(ValueText { value, text }).ok()
}
