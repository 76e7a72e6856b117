//! The first fault of what is gathered of a text's statements, if that can't be in one sheet.
//!
//! Each kind of item is searched separately, in the file's order. The fault with the lowest offset of those that are
//! found is the first of the file. Nodes, value tables and messages are searched without the other statements too
//! (`definitions`).
ghost use Rattle.std.specs.Prelude.{◌≡◌, ◌⊎◌, ◌≤◌, IfNone, IfOk, IfSome, None, is_some, length, nat_lt};
ghost use Rattle.std.specs.List.{AllByRecursion};
ghost use Rattle.dbc_words.specs.Limits.{value_text_limit};
ghost use Rattle.dbc_words.specs.Named.{has_name};
ghost use Rattle.dbc_sheet.specs.WellFormed.{AreFewTexts};
ghost use Rattle.dbc_lex.specs.declared.fault.ReadCode.TheVariants.{TooMany};
ghost use Rattle.dbc_read.specs.Built.{CanBeSheet};
ghost use Rattle.dbc_read.specs.Described.{described};
ghost use Rattle.dbc_read.specs.Faults.{AreDefined, AreMessageLines, AreNamedWithin, AreNumbered, AreSignalLines};
ghost use Rattle.dbc_read.specs.Faults.{HaveOneMultiplexor, HaveSignalLines, IsEntriesFault, IsFault, IsFaultAt};
ghost use Rattle.dbc_read.specs.Faults.{IsFaultOfDefinitions, IsFaultOfMessages, IsFaultOfSignals};
ghost use Rattle.dbc_read.specs.Faults.{IsMultiplexorFault, IsNameRefused, IsNumberFault, IsSignalsFault, entries_of};

use crate::described::{DescribedSignal, described_signals};
use crate::gathered::Gathered;
use crate::items::NamedItem;
use base::Copying;
use dbc_lex::{ReadCode, ReadFault};
use dbc_statements::{Entries, MessageLine, TableLine};
use dbc_words::{MESSAGE_LIMIT, NODE_LIMIT, SIGNAL_LIMIT, TABLE_LIMIT};
use std::alloc::{AllocError, Global};
use std::collections::BTreeSet;

/// The fault with the lower offset, of at most two.
fn earlier(a: Option<ReadFault>, b: Option<ReadFault>) -> Option<ReadFault>
    ensures one { (result ≡ a) ⊎ (result ≡ b) }
    ensures none { IfNone result ((a ≡ None) × (b ≡ None)) }
    ensures first { IfSome result (λ fault. IfSome a (λ x. fault.at ≤ x.at)) }
    ensures second { IfSome result (λ fault. IfSome b (λ x. fault.at ≤ x.at)) }
{
    match (a, b) {
        (Some(a), Some(b)) => Some(if b.at < a.at { b } else { a }),
        (Some(a), None) => Some(a),
        (None, b) => b,
    }
}

/// Whether one of the items has the name.
fn is_named<T: NamedItem>(items: &[T], name: &[u8]) -> bool
    ensures { result ≡ has_name T.name_of items.now name.now }
{
    for item in items {
        if item.name().as_bytes() == name {
            return true;
        }
    }
    false
}

/// How many items are few. Comparing the names of so few takes no memory and less time than a set of them.
const FEW_ITEMS: usize = 16;

/// The fault at the first of few items that is above the limit, or has the name of an earlier one.
fn few_names_fault<T: NamedItem>(items: &[T], limit: usize) -> Option<ReadFault>
    ensures none { IfNone result (AreNamedWithin T.name_of limit items.now) }
    ensures fault { IfSome result
        (IsFaultAt T.offset_of (IsNameRefused T.name_of limit) items.now) }
{
    let mut before = 0;
    for item in items {
        let at = item.name_at();
        if before >= limit {
            return Some(ReadFault {
                code: ReadCode::TooMany,
                at,
            });
        }
        if is_named(&items[..before], item.name().as_bytes()) {
            return Some(ReadFault {
                code: ReadCode::DoubleName,
                at,
            });
        }
        before += 1;
    }
    None
}

/// The fault at the first item that is above the limit, or has the name of an earlier one.
fn name_fault<T: NamedItem>(
    alloc: Global,
    items: &[T],
    limit: usize,
) -> Result<Option<ReadFault>, AllocError>
    ensures none { IfOk result (λ found. IfNone found (AreNamedWithin T.name_of limit items.now)) }
    ensures fault { IfOk result (λ found. IfSome found
        (IsFaultAt T.offset_of (IsNameRefused T.name_of limit) items.now)) }
{
    if items.len() <= FEW_ITEMS {
        return Ok(few_names_fault(items, limit));
    }
    let mut before = BTreeSet::new(alloc);
    for item in items {
        let at = item.name_at();
        if before.len() >= limit {
            return Ok(Some(ReadFault {
                code: ReadCode::TooMany,
                at,
            }));
        }
        let name = item.name().duplicate(alloc)?;
        if !before.insert(name)? {
            return Ok(Some(ReadFault {
                code: ReadCode::DoubleName,
                at,
            }));
        }
    }
    Ok(None)
}

/// The fault at the first message that is above the limit, or has the number of an earlier one.
fn number_fault(alloc: Global, messages: &[MessageLine]) -> Result<Option<ReadFault>, AllocError>
    ensures none { IfOk result (λ found. IfNone found (AreNumbered messages.now)) }
    ensures fault { IfOk result (λ found. IfSome found (IsNumberFault messages.now)) }
{
    let mut before = BTreeSet::new(alloc);
    for message in messages {
        if before.len() >= MESSAGE_LIMIT {
            return Ok(Some(ReadFault {
                code: ReadCode::TooMany,
                at: message.at,
            }));
        }
        if !before.insert(message.ident.to_dbc())? {
            return Ok(Some(ReadFault {
                code: ReadCode::DoubleNumber,
                at: message.at,
            }));
        }
    }
    Ok(None)
}

/// The fault at the second multiplexor of a message.
fn multiplexor_fault(signals: &[DescribedSignal]) -> Option<ReadFault>
    ensures none { IfNone result (HaveOneMultiplexor signals.now) }
    ensures fault { IfSome result (IsMultiplexorFault signals.now) }
{
    let mut has_multiplexor = false;
    for signal in signals {
        if signal.is_multiplexor() {
            if has_multiplexor {
                return Some(ReadFault {
                    code: ReadCode::TwoMultiplexors,
                    at: signal.mux_at(),
                });
            }
            has_multiplexor = true;
        }
    }
    None
}

/// The first fault of the signals of a message.
fn signal_fault(alloc: Global, message: &MessageLine) -> Result<Option<ReadFault>, AllocError>
    ensures none { IfOk result (λ found. IfNone found (AreSignalLines (described message.now))) }
    ensures fault { IfOk result (λ found. IfSome found (IsFaultOfSignals (described message.now))) }
{
    let signals = described_signals(alloc, message)?;
    let name = name_fault(alloc, &signals, SIGNAL_LIMIT)?;
    Ok(earlier(name, multiplexor_fault(&signals)))
}

/// The first fault of signals, of the first message that has one.
fn signals_fault(alloc: Global, messages: &[MessageLine]) -> Result<Option<ReadFault>, AllocError>
    ensures none { IfOk result (λ found. IfNone found (HaveSignalLines messages.now)) }
    ensures fault { IfOk result (λ found. IfSome found (IsSignalsFault messages.now)) }
{
    for message in messages {
        let fault = signal_fault(alloc, message)?;
        if fault.is_some() {
            return Ok(fault);
        }
    }
    Ok(None)
}

/// The fault at the first entry above the limit, if there are more.
fn entries_fault(entries: &Entries) -> Option<ReadFault>
    ensures variant { is_some result ≡ nat_lt value_text_limit (length entries.now) }
    ensures code { IfSome result (λ fault. fault.code ≡ TooMany) }
{
    let at = entries.above()?;
    Some(ReadFault {
        code: ReadCode::TooMany,
        at,
    })
}

/// The first fault of the entries of value tables.
fn tables_fault(tables: &[TableLine]) -> Option<ReadFault>
    ensures none { IfNone result (AllByRecursion AreFewTexts (entries_of tables.now)) }
    ensures fault { IfSome result (IsEntriesFault (entries_of tables.now)) }
{
    let mut first = None;
    for table in tables {
        first = earlier(first, entries_fault(&table.entries));
    }
    first
}

/// The first fault of the texts for the values of signals.
fn values_fault(values: &[Entries]) -> Option<ReadFault>
    ensures none { IfNone result (AllByRecursion AreFewTexts values.now) }
    ensures fault { IfSome result (IsEntriesFault values.now) }
{
    let mut first = None;
    for entries in values {
        first = earlier(first, entries_fault(entries));
    }
    first
}

/// The first fault of messages and their signals.
fn messages_fault(alloc: Global, messages: &[MessageLine]) -> Result<Option<ReadFault>, AllocError>
    ensures none { IfOk result (λ found. IfNone found (AreMessageLines messages.now)) }
    ensures fault { IfOk result (λ found. IfSome found (IsFaultOfMessages messages.now)) }
{
    let number = number_fault(alloc, messages)?;
    let name = name_fault(alloc, messages, MESSAGE_LIMIT)?;
    let signal = signals_fault(alloc, messages)?;
    Ok(earlier(number, earlier(name, signal)))
}

/// The first fault of the nodes, value tables and messages that are gathered.
pub(crate) fn definition_fault(
    alloc: Global,
    gathered: &Gathered,
) -> Result<Option<ReadFault>, AllocError>
    ensures none { IfOk result (λ found. IfNone found (AreDefined gathered.now)) }
    ensures fault { IfOk result (λ found. IfSome found (IsFaultOfDefinitions gathered.now)) }
{
    let node = name_fault(alloc, gathered.nodes.as_slice(), NODE_LIMIT)?;
    let table = name_fault(alloc, gathered.tables.as_slice(), TABLE_LIMIT)?;
    let message = messages_fault(alloc, gathered.messages.as_slice())?;
    let named = earlier(node, earlier(table, message));
    let entry = tables_fault(gathered.tables.as_slice());
    Ok(earlier(named, entry))
}

/// The first fault of what is gathered, or `None` if that can be in one sheet.
pub(crate) fn first_fault(
    alloc: Global,
    gathered: &Gathered,
) -> Result<Option<ReadFault>, AllocError>
    ensures none { IfOk result (λ found. IfNone found (CanBeSheet gathered.now)) }
    ensures fault { IfOk result (λ found. IfSome found (IsFault gathered.now)) }
{
    let definition = definition_fault(alloc, gathered)?;
    let value = values_fault(gathered.signal_values.as_slice());
    Ok(earlier(definition, value))
}
