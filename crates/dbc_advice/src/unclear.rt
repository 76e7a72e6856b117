//! What is stated of messages that aren't clear.
ghost use Rattle.std.specs.Prelude.{◌≡◌, ◌++◌, IfOk, codes, string_bytes};
ghost use Rattle.dbc_advice.specs.Unclear.{bit_text, clash_text, message_text, name_at, outside_text, reason_text};

use crate::reasons::ClashReason;
use bitlayout::Clash;
use columns::concat;
use dbc_sheet::{Message, Signal};
use std::alloc::{AllocError, Global};

/// The name of the signal at an index.
fn name_at(signals: &[Signal], index: usize) -> &[u8]
    ensures { result.now ≡ name_at signals.now index }
{
    match signals.get(index) {
        Some(signal) => signal.name.as_bytes(),
        None => &[],
    }
}

/// The message's name, and its identifier in hexadecimal digits.
fn message_text(alloc: Global, message: &Message) -> Result<Vec<u8>, AllocError>
    ensures { IfOk result (λ text. text.items ≡ message_text message.now) }
{
    let number = message.ident.number();
    let identifier = format!(in alloc; " (0x{number:X})")?;
    let name = message.name.as_bytes();
    concat(alloc, &[b"message ", name, identifier.as_bytes()])
}

/// `bit N`, or bits past the payload.
fn bit_text(alloc: Global, bit: Option<u32>) -> Result<String, AllocError>
    ensures { IfOk result (λ text. string_bytes text ≡ bit_text bit) }
{
    match bit {
        None => format!(in alloc; "bits past the payload"),
        Some(bit) => format!(in alloc; "bit {bit}"),
    }
}

/// That something is outside the payload of the message.
fn outside_text(alloc: Global, message: &Message) -> Result<Vec<u8>, AllocError>
    ensures { IfOk result (λ text. text.items ≡ outside_text message.now) }
{
    let bytes = message.length.bytes();
    let words = format!(in alloc; " is outside the {bytes} bytes of ")?;
    let whole = message_text(alloc, message)?;
    concat(alloc, &[words.as_bytes(), &whole])
}

/// What is stated of a signal that leaves the payload.
fn leaving_text(
    alloc: Global,
    message: &Message,
    bit: Option<u32>,
    index: usize,
) -> Result<Vec<u8>, AllocError>
    ensures { IfOk result (λ text. text.items ≡ clash_text message.now bit (Clash.Outside index)) }
{
    let bit = bit_text(alloc, bit)?;
    let outside = outside_text(alloc, message)?;
    let name = name_at(message.signals.as_slice(), index);
    concat(alloc, &[bit.as_bytes(), b" of signal ", name, &outside])
}

/// `signal`, the name of the signal at the index, these words, and the message.
fn signal_text(
    alloc: Global,
    message: &Message,
    index: usize,
    words: &[u8],
) -> Result<Vec<u8>, AllocError>
    ensures { IfOk result
        (λ text. text.items
        ≡ codes "signal " ++ (name_at message.now.signals index
        ++ (words.now ++ message_text message.now))) }
{
    let whole = message_text(alloc, message)?;
    let name = name_at(message.signals.as_slice(), index);
    concat(alloc, &[b"signal ", name, words, &whole])
}

/// What is stated of two signals that share a bit.
fn overlap_text(
    alloc: Global,
    message: &Message,
    bit: Option<u32>,
    earlier: usize,
    later: usize,
) -> Result<Vec<u8>, AllocError>
    ensures { IfOk result (λ text. text.items ≡ clash_text message.now bit
        (Clash.Overlap earlier later)) }
{
    let bit = bit_text(alloc, bit)?;
    let whole = message_text(alloc, message)?;
    let signals = message.signals.as_slice();
    let one = name_at(signals, earlier);
    let other = name_at(signals, later);
    concat(
        alloc,
        &[
            b"signals ",
            one,
            b" and ",
            other,
            b" share ",
            bit.as_bytes(),
            b" in ",
            &whole,
        ],
    )
}

/// What is stated of a reason why the message isn't clear: both signals' names and the first shared bit, or the first
/// bit outside the payload; and the message's name and identifier, in hexadecimal digits. The error is out of memory.
pub(crate) fn reason_text(
    alloc: Global,
    message: &Message,
    reason: ClashReason,
) -> Result<Vec<u8>, AllocError>
    ensures { IfOk result (λ text. text.items ≡ reason_text message.now reason) }
{
    match reason.clash {
        Clash::Outside(index) => leaving_text(alloc, message, reason.bit, index),
        Clash::TwoMultiplexors(index) => {
            signal_text(alloc, message, index, b" is a second multiplexor of ")
        }
        Clash::NoMultiplexor(index) => signal_text(
            alloc,
            message,
            index,
            b" depends on a multiplexor, and no signal is marked M in ",
        ),
        Clash::Overlap { earlier, later } => {
            overlap_text(alloc, message, reason.bit, earlier, later)
        }
    }
}
