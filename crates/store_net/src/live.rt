//! The live sheet of a network, and the texts that show it.
ghost use Rattle.std.specs.Prelude.{◌≡◌, [], false, Option, IfOk, OnOk};
ghost use Rattle.std.specs.List.Sorted.{IsStrictlySortedBy};
ghost use Rattle.std.specs.Option.{option_map};
ghost use Rattle.base.specs.Keyed.{put};
ghost use Rattle.dbc_sheet.specs.Messages.{by_number, has_number, number_of};
ghost use Rattle.office_views.specs.Table.{table_of};
ghost use Rattle.office_types.specs.State.{live_messages, sheet_of, sheet_with};
ghost use Rattle.store_net.specs.Texts.{live_chart, live_table, live_text};
ghost use Rattle.store_tables.specs.Frames.{Asks, ReadsOnly};
ghost use Rattle.store_net.specs.Reading.{OnNet};

use crate::live_list::{live_messages, messages_with};
use crate::message::message_at;
use crate::parts::head_of;
use crate::signal_parts::SignalParts;
use base::Copying;
use dbc_sheet::{Message, Sheet};
use dbc_words::{Name, SheetCode};
use dbc_write::text_of;
use office_types::{Head, LiveMessage, NetName};
use office_views::{message_chart, table_of};
use sqlite::{Alter, Error, Transaction};
use std::alloc::{AllocError, Global};
use std::mem::replace;

/// The frame of the head, without a message.
fn frame_of(alloc: Global, head: Head) -> Sheet
    ensures { result ≡ record head.frame { messages = [] } }
{
    let mut head = head;
    let mut frame = replace(&mut head.frame, Sheet::new(alloc));
    let _messages = frame.take_messages();
    frame
}

/// Adds a message that the sheet doesn't have. An error is out of memory, or `InvalidQuery` where one sheet can't have
/// both.
fn add_message(alloc: Global, sheet: &mut Sheet, message: Message) -> Result<(), Error>
    ensures ok { OnOk result (sheet.new
        ≡ record sheet.old { messages = put by_number message sheet.old.messages }) }
    ensures absent { OnOk result (has_number sheet.old.messages (number_of message) ≡ false) }
{
    match sheet.with_message(alloc, message) {
        Ok(()) => Ok(()),
        Err(fault) => match fault.code {
            SheetCode::Memory => Err(Error::from(AllocError)),
            _ => Err(Error::InvalidQuery),
        },
    }
}

/// The live sheet: the frame with the live messages, which are in ascending order of their DBC numbers. An error is out
/// of memory, or `InvalidQuery` where these messages can't be in one sheet.
pub fn live_sheet(alloc: Global, head: Head, live: &[LiveMessage]) -> Result<Sheet, Error>
    ensures { IfOk result (λ sheet. IsStrictlySortedBy by_number (live_messages live.now)
        → sheet ≡ sheet_with head.frame live.now) }
{
    let mut sheet = frame_of(alloc, head);
    for one in live {
        add_message(alloc, &mut sheet, one.message.duplicate(alloc)?)?;
    }
    // The messages of a sheet ascend, so they are the live ones in the same order.
    let _ascending = sheet.messages();
    Ok(sheet)
}

/// The network's live sheet, `None` where the network isn't there. An error is out of memory, what `sqlite` answers, or
/// `InvalidQuery` where the rows are no network's.
fn sheet_at<S: Alter>(
    alloc: Global,
    tx: &mut Transaction<'_, S>,
    name: &NetName,
) -> Result<Option<Sheet>, Error>
    ensures found { Asks S.Store tx.old tx.new result
        (OnNet name.now (λ net found. found ≡ option_map sheet_of net)) }
    ensures frame { ReadsOnly S.Store tx.old tx.new result }
{
    let Some(head) = head_of(alloc, tx, name)? else {
        return Ok(None);
    };
    let live = live_messages(alloc, tx, name)?;
    let sheet = live_sheet(alloc, head, live.as_slice())?;
    Ok(Some(sheet))
}

/// The network's live sheet without receivers and value texts: its table is that of the live sheet. `None` where the
/// network isn't there. The errors are those of [`sheet_at`].
fn bare_sheet_at<S: Alter>(
    alloc: Global,
    tx: &mut Transaction<'_, S>,
    name: &NetName,
) -> Result<Option<Sheet>, Error>
    ensures found { Asks S.Store tx.old tx.new result
        (OnNet name.now (λ net found. option_map table_of found ≡ live_table net)) }
    ensures frame { ReadsOnly S.Store tx.old tx.new result }
{
    let Some(head) = head_of(alloc, tx, name)? else {
        return Ok(None);
    };
    let live = messages_with(alloc, tx, name, SignalParts::RowOnly)?;
    let sheet = live_sheet(alloc, head, live.as_slice())?;
    Ok(Some(sheet))
}

/// The canonical text of the network's live sheet, `None` where the network isn't there. An error is out of memory,
/// what `sqlite` answers, or `InvalidQuery` where the rows are no network's.
pub fn live_text<S: Alter>(
    alloc: Global,
    tx: &mut Transaction<'_, S>,
    name: &NetName,
) -> Result<Option<Vec<u8>>, Error>
    ensures found { Asks S.Store tx.old tx.new result
        (OnNet name.now (λ net found. option_map (λ text. text.items) found ≡ live_text net)) }
    ensures frame { ReadsOnly S.Store tx.old tx.new result }
{
    let Some(sheet) = sheet_at(alloc, tx, name)? else {
        return Ok(None);
    };
    Ok(Some(text_of(alloc, &sheet)?))
}

/// The table of the network's live messages, `None` where the network isn't there. The errors are those of
/// [`live_text`].
pub fn live_table<S: Alter>(
    alloc: Global,
    tx: &mut Transaction<'_, S>,
    name: &NetName,
) -> Result<Option<Vec<u8>>, Error>
    ensures found { Asks S.Store tx.old tx.new result
        (OnNet name.now (λ net found. option_map (λ text. text.items) found ≡ live_table net)) }
    ensures frame { ReadsOnly S.Store tx.old tx.new result }
{
    let Some(sheet) = bare_sheet_at(alloc, tx, name)? else {
        return Ok(None);
    };
    Ok(Some(table_of(alloc, &sheet)?))
}

/// The chart of the network's live message of the name, `None` where the network or the message isn't there. The errors
/// are those of [`live_text`].
pub fn live_chart<S: Alter>(
    alloc: Global,
    tx: &mut Transaction<'_, S>,
    name: &NetName,
    message: &Name,
) -> Result<Option<Vec<u8>>, Error>
    ensures found { Asks S.Store tx.old tx.new result (OnNet name.now (λ net found.
        option_map (λ text. text.items) found ≡ live_chart net message.now)) }
    ensures frame { ReadsOnly S.Store tx.old tx.new result }
{
    match message_at(alloc, tx, name, message)? {
        None => Ok(None),
        Some(live) => Ok(Some(message_chart(alloc, &live.message)?)),
    }
}
