//! All live messages of a network, each put together of its own rows.
ghost use Rattle.std.specs.Prelude.{◌≡◌, List, map, OnOk};
ghost use Rattle.std.specs.List.{AllByRecursion};
ghost use Rattle.can_id.specs.Ident.{dbc_number};
ghost use Rattle.store_tables.specs.Tables.{IsOffice};
ghost use Rattle.office_types.specs.declared.state.LiveMessage.{LiveMessage as Live};
ghost use Rattle.sqlite.specs.Held.{state};
ghost use Rattle.sqlite.specs.State.{HasCleanDisk};
ghost use Rattle.store_rows.specs.Listed.{AreShown};
ghost use Rattle.store_rows.specs.Live.{AreSignalsOf, live_rows, OnLive};
ghost use Rattle.store_rows.specs.SignalShowing.{ShowsLive};
ghost use Rattle.store_net.specs.SignalParts.{live_in};
ghost use Rattle.store_tables.specs.Frames.{Asks, ReadsOnly, ReadsWhileOpen};

use crate::message::signals_for;
use crate::orphans::refuse_orphans;
use crate::signal_parts::SignalParts;
use base::Items;
use office_types::{LiveMessage, NetName};
use sqlite::{Alter, Error, Row, Transaction};
use std::alloc::Global;
use store_rows::{live_message_of, number_at};
use store_statements::select_msgs;

/// The message that the row shows, with its signals as far as they are wanted.
fn with_signals<S: Alter>(
    alloc: Global,
    tx: &mut Transaction<'_, S>,
    net: &[u8],
    row: &Row,
    detail: SignalParts,
) -> Result<LiveMessage, Error>
    ensures found { Asks S.Store tx.old tx.new result
        (λ found t. (other : Live) → ShowsLive other row.now
        → AreSignalsOf net.now (dbc_number other.message.ident)
        (live_rows net.now t) other.message.signals → found ≡ live_in detail other) }
    ensures unchanged { HasCleanDisk (state S.Store tx.new.conn.now)
        → IsOffice (state S.Store tx.old.conn.now).now
        → OnOk result ((state S.Store tx.new.conn.now).now ≡ (state S.Store tx.old.conn.now).now) }
    ensures frame { ReadsWhileOpen S.Store tx.old tx.new result }
{
    let number = number_at(row, 0)?;
    let signals = signals_for(alloc, tx, net, number, detail)?;
    live_message_of(alloc, row, signals)
}

/// The messages that the rows show, each with its signals as far as they are wanted.
fn each_with_signals<S: Alter>(
    alloc: Global,
    tx: &mut Transaction<'_, S>,
    net: &[u8],
    rows: &[Row],
    detail: SignalParts,
) -> Result<Vec<LiveMessage>, Error>
    ensures found { Asks S.Store tx.old tx.new result
        (λ found t. (live : List Live) → AreShown ShowsLive live rows.now
        → AllByRecursion (λ (m : Live). AreSignalsOf net.now (dbc_number m.message.ident)
        (live_rows net.now t) m.message.signals) live → found.items ≡ map (live_in detail) live) }
    ensures frame { ReadsWhileOpen S.Store tx.old tx.new result }
{
    let mut messages = Vec::new(alloc);
    for row in rows {
        let message = with_signals(alloc, tx, net, row, detail)?;
        messages.push(message)?;
    }
    Ok(messages)
}

/// The live messages of the network, in ascending order of their DBC numbers, with their signals as far as they are
/// wanted. It isn't looked whether there are rows of signals, receivers or value texts that none of them has.
pub(crate) fn messages_with<S: Alter>(
    alloc: Global,
    tx: &mut Transaction<'_, S>,
    name: &NetName,
    detail: SignalParts,
) -> Result<Items<LiveMessage>, Error>
    ensures found { Asks S.Store tx.old tx.new result
        (OnLive name.now (λ live found. found ≡ map (live_in detail) live)) }
    ensures frame { ReadsOnly S.Store tx.old tx.new result }
{
    let rows = select_msgs(tx, name.as_bytes())?;
    let messages = each_with_signals(alloc, tx, name.as_bytes(), &rows, detail)?;
    Ok(Items::from_vec(messages))
}

/// The live messages of the network, in ascending order of their DBC numbers. `InvalidQuery` also where there are rows
/// of signals, receivers or value texts that none of them has.
pub fn live_messages<S: Alter>(
    alloc: Global,
    tx: &mut Transaction<'_, S>,
    name: &NetName,
) -> Result<Items<LiveMessage>, Error>
    ensures found { Asks S.Store tx.old tx.new result
        (OnLive name.now (λ live found. found ≡ live)) }
    ensures frame { ReadsOnly S.Store tx.old tx.new result }
{
    let messages = messages_with(alloc, tx, name, SignalParts::All)?;
    refuse_orphans(tx, name.as_bytes(), messages.as_slice())?;
    Ok(messages)
}
