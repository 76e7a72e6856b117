//! One live message of a network, as the tables have it: no other message is read.
ghost use Rattle.std.specs.Prelude.{◌≡◌, map, Option};
ghost use Rattle.office_rules.specs.Facts.{live_named};
ghost use Rattle.store_net.specs.SignalParts.{received_signal, signals_in};
ghost use Rattle.store_rows.specs.Live.{bare_signal, OnLive};
ghost use Rattle.store_tables.specs.Frames.{Asks, ReadsOnly};
ghost use Rattle.store_net.specs.Reading.{OnSignals};

use crate::signal_parts::SignalParts;
use dbc_sheet::Signals;
use dbc_words::Name;
use office_types::{LiveMessage, NetName};
use sqlite::{Alter, Error, Transaction};
use std::alloc::Global;
use store_rows::{live_message_of, number_at, signals_of};
use store_statements::{select_msg_named, select_receivers, select_sigs, select_sigvalues};

/// The signals of the network's message with the number.
fn signals_at<S: Alter>(
    alloc: Global,
    tx: &mut Transaction<'_, S>,
    net: &[u8],
    number: u32,
) -> Result<Signals, Error>
    ensures found { Asks S.Store tx.old tx.new result
        (OnSignals net.now number (λ others signals. signals ≡ others)) }
    ensures frame { ReadsOnly S.Store tx.old tx.new result }
{
    let sigs = select_sigs(tx, net, number)?;
    let receivers = select_receivers(tx, net, number)?;
    let values = select_sigvalues(tx, net, number)?;
    signals_of(alloc, &sigs, &receivers, &values)
}

/// The signals of the network's message with the number, without receivers and value texts.
fn bare_signals_at<S: Alter>(
    alloc: Global,
    tx: &mut Transaction<'_, S>,
    net: &[u8],
    number: u32,
) -> Result<Signals, Error>
    ensures found { Asks S.Store tx.old tx.new result
        (OnSignals net.now number (λ others signals. signals ≡ map bare_signal others)) }
    ensures frame { ReadsOnly S.Store tx.old tx.new result }
{
    let sigs = select_sigs(tx, net, number)?;
    signals_of(alloc, &sigs, &[], &[])
}

/// The signals of the network's message with the number, without value texts.
fn received_signals_at<S: Alter>(
    alloc: Global,
    tx: &mut Transaction<'_, S>,
    net: &[u8],
    number: u32,
) -> Result<Signals, Error>
    ensures found { Asks S.Store tx.old tx.new result
        (OnSignals net.now number (λ others signals. signals ≡ map received_signal others)) }
    ensures frame { ReadsOnly S.Store tx.old tx.new result }
{
    let sigs = select_sigs(tx, net, number)?;
    let receivers = select_receivers(tx, net, number)?;
    signals_of(alloc, &sigs, &receivers, &[])
}

/// The signals of the network's message with the number, as far as they are wanted.
pub(crate) fn signals_for<S: Alter>(
    alloc: Global,
    tx: &mut Transaction<'_, S>,
    net: &[u8],
    number: u32,
    detail: SignalParts,
) -> Result<Signals, Error>
    ensures found { Asks S.Store tx.old tx.new result
        (OnSignals net.now number (λ others signals. signals ≡ signals_in detail others)) }
    ensures frame { ReadsOnly S.Store tx.old tx.new result }
{
    match detail {
        SignalParts::All => signals_at(alloc, tx, net, number),
        SignalParts::Received => received_signals_at(alloc, tx, net, number),
        SignalParts::RowOnly => bare_signals_at(alloc, tx, net, number),
    }
}

/// The live message of the name, with its owner, `None` where the network has none.
pub fn message_at<S: Alter>(
    alloc: Global,
    tx: &mut Transaction<'_, S>,
    name: &NetName,
    message: &Name,
) -> Result<Option<LiveMessage>, Error>
    ensures found { Asks S.Store tx.old tx.new result
        (OnLive name.now (λ live found. found ≡ live_named live message.now)) }
    ensures frame { ReadsOnly S.Store tx.old tx.new result }
{
    let rows = select_msg_named(tx, name.as_bytes(), message.as_bytes())?;
    match rows.first() {
        None => Ok(None),
        Some(row) => {
            let number = number_at(row, 0)?;
            let signals = signals_at(alloc, tx, name.as_bytes(), number)?;
            Ok(Some(live_message_of(alloc, row, signals)?))
        }
    }
}
