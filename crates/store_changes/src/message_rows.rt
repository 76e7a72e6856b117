//! The rows of a live message, written and removed.
ghost use Rattle.std.specs.Prelude.{◌≡◌, ◌≢◌, ◌++◌, ◌∷◌, [], IfOk, IfSome, OnOk};
ghost use Rattle.std.specs.List.{AllByRecursion};
ghost use Rattle.can_id.specs.Ident.{IsIdentifier, dbc_number};
ghost use Rattle.dbc_sheet.specs.declared.value_texts.ValueText.{ValueText as Entry};
ghost use Rattle.decimal.specs.Number.{IsDecimal};
ghost use Rattle.decimal.specs.Printing.{text_of};
ghost use Rattle.store_rows.specs.Live.{HasDecimals, flag_number, motorola_number, mux_column, sender_text, sig_values};
ghost use Rattle.store_rows.specs.LiveWritten.{IsLive, IsSignal, placed_from, receiver_rows, value_rows, with_live};
ghost use Rattle.store_rows.specs.LiveWritten.{with_msg, with_signal, with_signals, without_live};
ghost use Rattle.store_tables.specs.Frames.{Edits, OnlyWrites, Relates, WritesAndEndsIn, WritesAndStaysIn};

use crate::writing::number_above;
use bitlayout::{Mux, Order};
use can_id::Ident;
use dbc_sheet::{Signal, ValueText};
use dbc_words::Name;
use decimal::Decimal;
use office_types::{LiveMessage, NetName};
use sqlite::{Alter, Error, Transaction};
use std::alloc::{AllocError, Global};
use store_statements::{
    LiveRow, MuxColumn, ReceiverRow, SigRow, SigValueRow, delete_msgs, delete_receivers,
    delete_sigs, delete_sigvalues, insert_msg, insert_receiver, insert_sig, insert_sigvalue,
};

/// Writes the receivers of the signal at the place of a message.
pub fn write_receivers<S: Alter>(
    tx: &mut Transaction<'_, S>,
    net: &[u8],
    number: u32,
    place: u32,
    receivers: &[Name],
) -> Result<(), Error>
    ensures written { Relates S.Store tx.old tx.new result (λ before after. after ≡ (record before {
      receiver = before.receiver ++ receiver_rows net.now number place 0 receivers.now;
    })) }
    ensures frame { WritesAndStaysIn S.Store tx.old tx.new result }
{
    let mut index = 0;
    for name in receivers {
        let row = ReceiverRow {
            net,
            number,
            place,
            index,
            name: name.as_bytes(),
        };
        insert_receiver(tx, &row)?;
        index = number_above(index)?;
    }
    Ok(())
}

/// The text of a decimal.
fn decimal_text(alloc: Global, decimal: &Decimal) -> Result<Vec<u8>, AllocError>
    ensures text { IfOk result (λ text. text.items ≡ text_of decimal.now) }
    ensures decimal { IsDecimal decimal.now }
{
    let mut text = Vec::new(alloc);
    decimal.print_into(&mut text)?;
    Ok(text)
}

/// Writes the value texts of the signal at the place of a message.
pub fn write_values<S: Alter>(
    alloc: Global,
    tx: &mut Transaction<'_, S>,
    net: &[u8],
    number: u32,
    place: u32,
    values: &[ValueText],
) -> Result<(), Error>
    ensures decimals { OnOk result (AllByRecursion (λ (v : Entry). IsDecimal v.value) values.now) }
    ensures written { Relates S.Store tx.old tx.new result (λ before after. after ≡ (record before {
      sigvalue = before.sigvalue ++ value_rows net.now number place 0 values.now;
    })) }
    ensures frame { WritesAndStaysIn S.Store tx.old tx.new result }
{
    let mut index = 0;
    for entry in values {
        let text = decimal_text(alloc, &entry.value)?;
        let row = SigValueRow {
            net,
            number,
            place,
            index,
            value: &text,
            text: entry.text.as_bytes(),
        };
        insert_sigvalue(tx, &row)?;
        index = number_above(index)?;
    }
    Ok(())
}

/// 1 for Motorola's order, 0 for Intel's.
fn motorola_number(order: Order) -> u32
    ensures { result ≡ motorola_number order }
{
    match order {
        Order::Intel => 0,
        Order::Motorola => 1,
    }
}

/// 1 if it is so.
fn flag_number(flag: bool) -> u32
    ensures { result ≡ flag_number flag }
{
    if flag { 1 } else { 0 }
}

/// The column that shows when a signal is there.
fn mux_column(mux: Mux) -> MuxColumn
    ensures { result ≡ mux_column mux }
{
    match mux {
        Mux::Always => MuxColumn::Always,
        Mux::Multiplexor => MuxColumn::Multiplexor,
        Mux::Under(value) => MuxColumn::Under(value),
    }
}

/// Writes the row of a signal, without its receivers and value texts.
pub(crate) fn write_sig<S: Alter>(
    alloc: Global,
    tx: &mut Transaction<'_, S>,
    net: &[u8],
    number: u32,
    place: u32,
    signal: &Signal,
) -> Result<(), Error>
    ensures decimals { OnOk result (HasDecimals signal.now) }
    ensures written { Edits S.Store tx.old tx.new result
        (λ t. record t { sig = t.sig ++ sig_values net.now number place signal.now ∷ [] }) }
    ensures frame { OnlyWrites S.Store tx.old tx.new }
{
    let factor = decimal_text(alloc, &signal.factor)?;
    let offset = decimal_text(alloc, &signal.offset)?;
    let minimum = decimal_text(alloc, &signal.minimum)?;
    let maximum = decimal_text(alloc, &signal.maximum)?;
    let row = SigRow {
        net,
        number,
        place,
        name: signal.name.as_bytes(),
        start: u32::from(signal.layout.start),
        size: u32::from(signal.layout.size.bits()),
        motorola: motorola_number(signal.layout.order),
        signed: flag_number(signal.signed),
        mux: mux_column(signal.mux),
        factor: &factor,
        offset: &offset,
        minimum: &minimum,
        maximum: &maximum,
        unit: signal.unit.as_bytes(),
        comment: signal.comment.as_bytes(),
        spn: signal.spn.number(),
        value_type: u32::from(signal.value_type.number()),
    };
    insert_sig(tx, &row)?;
    Ok(())
}

/// Writes a signal, at its place.
pub(crate) fn write_signal<S: Alter>(
    alloc: Global,
    tx: &mut Transaction<'_, S>,
    net: &[u8],
    number: u32,
    place: u32,
    signal: &Signal,
) -> Result<(), Error>
    ensures signal { OnOk result (IsSignal signal.now) }
    ensures written { Relates S.Store tx.old tx.new result
        (λ before after. after ≡ with_signal net.now number place signal.now before) }
    ensures frame { WritesAndEndsIn S.Store tx.old tx.new result }
{
    write_sig(alloc, tx, net, number, place, signal)?;
    write_receivers(tx, net, number, place, signal.receivers.as_slice())?;
    write_values(alloc, tx, net, number, place, signal.values.as_slice())
}

/// Writes the signals of a message, at places from 0.
fn write_signals<S: Alter>(
    alloc: Global,
    tx: &mut Transaction<'_, S>,
    net: &[u8],
    number: u32,
    signals: &[Signal],
) -> Result<(), Error>
    ensures signals { OnOk result (AllByRecursion IsSignal signals.now) }
    ensures written { Relates S.Store tx.old tx.new result
        (λ before after. after ≡ with_signals net.now number (placed_from 0 signals.now) before) }
    ensures frame { WritesAndStaysIn S.Store tx.old tx.new result }
{
    let mut place = 0;
    for signal in signals {
        write_signal(alloc, tx, net, number, place, signal)?;
        place = number_above(place)?;
    }
    Ok(())
}

/// The node that sends it, empty if there is none.
fn sender_text(sender: &Option<Name>) -> &[u8]
    ensures text { result.now ≡ sender_text sender.now }
    ensures sent { IfSome sender.now (λ n. n ≢ []) }
{
    match sender {
        Some(name) => name.as_bytes(),
        None => &[],
    }
}

/// Writes the row of a message, without its signals.
fn write_msg<S: Alter>(
    tx: &mut Transaction<'_, S>,
    net: &[u8],
    live: &LiveMessage,
) -> Result<(), Error>
    ensures identifier { IsIdentifier live.now.message.ident }
    ensures sent { IfSome live.now.message.transmitter (λ n. n ≢ []) }
    ensures written { Edits S.Store tx.old tx.new result (with_msg net.now live.now) }
    ensures frame { OnlyWrites S.Store tx.old tx.new }
{
    let row = LiveRow {
        net,
        number: live.message.ident.to_dbc(),
        name: live.message.name.as_bytes(),
        owner: live.owner.as_bytes(),
        length: u32::from(live.message.length.bytes()),
        transmitter: sender_text(&live.message.transmitter),
        comment: live.message.comment.as_bytes(),
    };
    insert_msg(tx, &row)?;
    Ok(())
}

/// Removes all rows of the network's message with the number.
fn remove_numbered<S: Alter>(
    tx: &mut Transaction<'_, S>,
    net: &[u8],
    number: u32,
) -> Result<(), Error>
    ensures removed { Edits S.Store tx.old tx.new result (without_live net.now number) }
    ensures frame { OnlyWrites S.Store tx.old tx.new }
{
    delete_msgs(tx, net, number)?;
    delete_sigs(tx, net, number)?;
    delete_receivers(tx, net, number)?;
    delete_sigvalues(tx, net, number)?;
    Ok(())
}

/// Removes the live message of the identifier.
pub fn remove_message<S: Alter>(
    tx: &mut Transaction<'_, S>,
    name: &NetName,
    ident: Ident,
) -> Result<(), Error>
    ensures identifier { IsIdentifier ident }
    ensures removed { Edits S.Store tx.old tx.new result
        (without_live name.now (dbc_number ident)) }
    ensures frame { OnlyWrites S.Store tx.old tx.new }
{
    let number = ident.to_dbc();
    remove_numbered(tx, name.as_bytes(), number)
}

/// Writes the live message in place of that of its number.
pub fn write_message<S: Alter>(
    alloc: Global,
    tx: &mut Transaction<'_, S>,
    name: &NetName,
    live: &LiveMessage,
) -> Result<(), Error>
    ensures live { OnOk result (IsLive live.now) }
    ensures written { Relates S.Store tx.old tx.new result
        (λ before after. after ≡ with_live name.now live.now before) }
    ensures frame { WritesAndEndsIn S.Store tx.old tx.new result }
{
    let number = live.message.ident.to_dbc();
    let net = name.as_bytes();
    remove_numbered(tx, net, number)?;
    write_msg(tx, net, live)?;
    write_signals(alloc, tx, net, number, live.message.signals.as_slice())
}
