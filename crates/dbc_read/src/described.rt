//! The signals of a message with the offsets of where they are described, which faults are about.
ghost use Rattle.std.specs.Prelude.{◌≡◌, IfOk};
ghost use Rattle.bitlayout.specs.Mux.{is_multiplexor};
ghost use Rattle.dbc_read.specs.Described.{described, own_offsets};

use crate::items::NamedItem;
use dbc_sheet::Signal;
use dbc_statements::{MessageLine, SignalOffsets};
use dbc_words::Name;
use std::alloc::{AllocError, Global};
use std::marker::Model;

/// A signal, and where it is described. Contracts see both.
#[derive(Drop)]
pub(crate) struct DescribedSignal<'s> {
    signal: &'s Signal,
    offsets: SignalOffsets,
}

impl<'s> Model for DescribedSignal<'s> {
    ghost use Rattle.dbc_read.specs.Described.{Described};

    ghost Value = { Described };

    ghost view = { λ s. record { signal = s.signal.now; offsets = s.offsets } };
}

impl DescribedSignal<'_> {
    /// Whether it is marked as the multiplexor.
    pub(crate) fn is_multiplexor(&self) -> bool
        ensures { result ≡ is_multiplexor self.now.signal.mux }
    {
        self.signal.mux.is_multiplexor()
    }

    /// The offset of its multiplexer indicator, or of the colon.
    pub(crate) fn mux_at(&self) -> usize
        ensures { result ≡ self.now.offsets.mux_at }
    {
        self.offsets.mux_at
    }
}

impl NamedItem for DescribedSignal<'_> {
    ghost name_of = { λ s. s.signal.name };

    ghost offset_of = { λ s. s.offsets.at };

    fn name(&self) -> &Name {
        &self.signal.name
    }

    fn name_at(&self) -> usize {
        self.offsets.at
    }
}

/// The offsets for a signal of the message that has none.
fn own_offsets(line: &MessageLine) -> SignalOffsets
    ensures { result ≡ own_offsets line.now }
{
    SignalOffsets {
        at: line.at,
        mux_at: line.at,
    }
}

/// The signals of the message, with their offsets.
pub(crate) fn described_signals(
    alloc: Global,
    line: &MessageLine,
) -> Result<Vec<DescribedSignal<'_>>, AllocError>
    ensures { IfOk result (λ found. found.items ≡ described line.now) }
{
    let mut found = Vec::with_capacity(alloc, line.signals.len())?;
    let mut left: &[SignalOffsets] = &line.offsets;
    for signal in &line.signals {
        let offsets = match left {
            [first, rest @ ..] => {
                left = rest;
                *first
            }
            [] => own_offsets(line),
        };
        found.push(DescribedSignal { signal, offsets })?;
    }
    Ok(found)
}
