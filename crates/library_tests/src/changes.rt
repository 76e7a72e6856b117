//! What changes a message, a sheet or a list and can't be refused.
use crate::lists::put_all;
use crate::made::{add_value, decimal, message, name, signal};
use base::Items;
use bitlayout::Mux;
use dbc_sheet::{Message, Sheet, Signal, ValueTexts, same_messages_are_equal};
use dbc_words::Spn;
use std::alloc::{AllocError, Global};

/// A message with the multiplexor `Sel` and the signal `Val` under 1.
fn two_signals(alloc: Global) -> Option<Message> {
    let mut made = message(alloc, 256, b"A")?;
    let selector = signal(alloc, b"Sel", 0, Mux::Multiplexor)?;
    made.with_signal(alloc, selector).ok()?;
    let value = signal(alloc, b"Val", 8, Mux::Under(1))?;
    made.with_signal(alloc, value).ok()?;
    Some(made)
}

fn off_text(alloc: Global) -> Option<ValueTexts> {
    let mut entries = Vec::new(alloc);
    add_value(alloc, &mut entries, b"0", b"Off")?;
    ValueTexts::of(entries)
}

fn is_changed(signal: &Signal) -> bool {
    signal.spn.number() == 84 && signal.values.as_slice().len() == 1
}

/// Whether the signal of the name, and no other, is changed and then taken out, and what is left then.
fn changes(
    alloc: Global,
    bytes: &[u8],
    there: bool,
    left: usize,
    multiplexed: bool,
) -> Option<bool> {
    let mut made = two_signals(alloc)?;
    let signals = &mut made.signals;
    let named = name(alloc, bytes)?;
    let texts = off_text(alloc)?;
    let numbered = signals.set_spn(&named, Spn::new(84)?);
    let described = signals.set_values(&named, texts);
    let right = signals
        .as_slice()
        .iter()
        .all(|signal| is_changed(signal) == (signal.name == named));
    let removed = signals.remove(&named).is_some();
    let same = signals.as_slice().len() == left && signals.are_multiplexed() == multiplexed;
    Some(numbered == there && described == there && removed == there && right && same)
}

#[test]
fn signals_are_changed_by_their_names(rt: HostRuntime) {
    let rows: [(&[u8], bool, usize, bool); 3] = [
        (b"Sel", true, 1, false),
        (b"Val", true, 1, true),
        (b"Other", false, 2, true),
    ];
    for (bytes, there, left, multiplexed) in rows {
        assert!(rt; changes(rt.alloc(), bytes, there, left, multiplexed) == Some(true));
    }
}

/// Whether the messages of a sheet are taken out in order, and their names and numbers are free again.
fn takes_messages(alloc: Global) -> Option<bool> {
    let mut sheet = Sheet::new(alloc);
    for (number, bytes) in [(257, b"B"), (256, b"A")] {
        sheet
            .with_message(alloc, message(alloc, number, bytes)?)
            .ok()?;
    }
    let taken = sheet.take_messages();
    let left = sheet.messages().len();
    let again = sheet
        .with_message(alloc, message(alloc, 256, b"A")?)
        .is_ok();
    let numbers = taken.as_slice().iter().map(|message| message.number());
    Some(left == 0 && again && numbers.eq([256, 257]))
}

#[test]
fn messages_are_taken_out(rt: HostRuntime) {
    assert!(rt; takes_messages(rt.alloc()) == Some(true));
}

/// The numbers in ascending order, each once, without one of them.
fn put_without(alloc: Global, numbers: &[u32], out: u32) -> Result<Items<u32>, AllocError> {
    let mut items = put_all(alloc, numbers)?;
    items.retain(|number| *number != out);
    Ok(items)
}

fn is_put_without(alloc: Global, numbers: &[u32], out: u32, wanted: &[u32]) -> bool {
    match put_without(alloc, numbers, out) {
        Ok(items) => items.as_slice() == wanted,
        Err(_) => false,
    }
}

#[test]
fn numbers_are_put_and_kept(rt: HostRuntime) {
    let rows: [(&[u32], u32, &[u32]); 4] = [
        (&[1, 2, 3], 4, &[1, 2, 3]),
        (&[3, 1, 2, 3, 1], 2, &[1, 3]),
        (&[2, 2], 2, &[]),
        (&[], 0, &[]),
    ];
    for (numbers, out, wanted) in rows {
        assert!(rt; is_put_without(rt.alloc(), numbers, out, wanted));
    }
}

/// Whether the message is equal to itself with another spelling of its first factor.
fn equals_with(alloc: Global, spelling: &[u8]) -> Option<bool> {
    let mut other = message(alloc, 256, b"A")?;
    let mut selector = signal(alloc, b"Sel", 0, Mux::Multiplexor)?;
    selector.factor = decimal(spelling)?;
    other.with_signal(alloc, selector).ok()?;
    let value = signal(alloc, b"Val", 8, Mux::Under(1))?;
    other.with_signal(alloc, value).ok()?;
    Some(two_signals(alloc)? == other)
}

#[test]
fn messages_are_equal_by_values(rt: HostRuntime) {
    same_messages_are_equal();
    let rows: [(&[u8], bool); 3] = [(b"1.00", true), (b"10e-1", true), (b"1.01", false)];
    for (spelling, equal) in rows {
        assert!(rt; equals_with(rt.alloc(), spelling) == Some(equal));
    }
}
