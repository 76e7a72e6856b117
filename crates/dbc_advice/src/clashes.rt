//! What is reported of messages that aren't clear.
ghost use Rattle.std.specs.Prelude.{◌≡◌, ◌≤◌, ◌++◌, IfOk, OnOk, length, map, take};
ghost use Rattle.bitlayout.specs.Clash.{faulty_index};
ghost use Rattle.dbc_sheet.specs.Signals.{places_of};
ghost use Rattle.dbc_advice.specs.Clashes.{AreClashLines, AreCutLines, IsClashLine, bytes_of, clash_label, clash_sentence};
ghost use Rattle.dbc_advice.specs.Clashes.{clashes_of};
ghost use Rattle.dbc_advice.specs.First.{IsFirstClash, IsStatedClash};
ghost use Rattle.dbc_advice.specs.Limits.{clashes_reported};
ghost use Rattle.dbc_advice.specs.Reasons.{AreReasons};
ghost use Rattle.dbc_advice.specs.ReportedLine.{AreLinesOf};

use crate::first::Stated;
use crate::notes::Source;
use crate::offsets::{Heading, headings, message_offset, signal_offset};
use crate::position::position_of;
use crate::reasons::{ClashReason, reasons_of};
use crate::sentences::{code_label, more_line, reported_line};
use crate::unclear::reason_text;
use bitlayout::{Clash, first_clash};
use columns::concat;
use dbc_sheet::{Message, Sheet};
use dbc_words::SheetCode;
use std::alloc::{AllocError, Global};

/// How many reasons are reported why messages aren't clear.
pub const CLASHES_REPORTED: usize = 100;

/// The index of the signal at which the clash is reported.
fn signal_index(clash: Clash) -> usize
    ensures { result ≡ faulty_index clash }
{
    match clash {
        Clash::Outside(index) | Clash::TwoMultiplexors(index) | Clash::NoMultiplexor(index) => {
            index
        }
        Clash::Overlap { later, .. } => later,
    }
}

/// The offset of the signal at which the reason is reported.
fn reason_offset(text: &[u8], headings: &[Heading], message: &Message, reason: ClashReason) -> usize
    ensures { result ≤ length text.now }
{
    let from = message_offset(headings, message.number()).min(text.len());
    match message.signals.as_slice().get(signal_index(reason.clash)) {
        Some(signal) => signal_offset(text, from, signal.name.as_bytes()),
        None => from,
    }
}

/// The code of a clash, and its name.
fn clash_label(alloc: Global, clash: Clash) -> Result<Vec<u8>, AllocError>
    ensures { IfOk result (λ label. label.items ≡ clash_label clash) }
{
    let code = SheetCode::from(clash);
    code_label(alloc, code.number(), code.name())
}

/// The line of a reason why the message isn't clear.
fn clash_line(
    alloc: Global,
    source: Source,
    headings: &[Heading],
    message: &Message,
    reason: ClashReason,
) -> Result<Vec<u8>, AllocError>
    ensures { IfOk result (λ line. IsClashLine source.entry.name.now source.entry.text.now
        (message.now, reason) line.items) }
{
    let label = clash_label(alloc, reason.clash)?;
    let words = reason_text(alloc, message, reason)?;
    let at = reason_offset(source.text, headings, message, reason);
    let position = position_of(source.text, at);
    reported_line(alloc, source.name, position, &label, &words)
}

/// The lines of these reasons why the message isn't clear, in order.
fn clash_lines(
    alloc: Global,
    source: Source,
    headings: &[Heading],
    message: &Message,
    reasons: &[ClashReason],
) -> Result<Vec<u8>, AllocError>
    ensures { IfOk result (λ lines. AreLinesOf
        (λ r. IsClashLine source.entry.name.now source.entry.text.now
        (message.now, r)) reasons.now lines.items) }
{
    let mut lines = Vec::new(alloc);
    for reason in reasons {
        let line = clash_line(alloc, source, headings, message, *reason)?;
        lines.extend_from_slice(&line)?;
    }
    Ok(lines)
}

/// Why the message isn't clear: all reasons, or more than are reported.
fn message_reasons(alloc: Global, message: &Message) -> Result<Vec<ClashReason>, AllocError>
    ensures { IfOk result (λ reasons. AreReasons message.now.length (places_of message.now.signals)
        reasons.items) }
{
    let places = message.signals.places(alloc)?;
    let bytes = message.length.bytes();
    // Most messages are clear, and then no two signals are compared.
    if first_clash(&places, bytes).is_none() {
        return Ok(Vec::new(alloc));
    }
    reasons_of(alloc, &places, bytes)
}

/// The lines of the first of these reasons, so many as there is room for, and a last one: there are more.
fn cut_lines(
    alloc: Global,
    source: Source,
    headings: &[Heading],
    message: &Message,
    reasons: &[ClashReason],
) -> Result<Vec<u8>, AllocError>
    ensures { IfOk result
        (λ out. AreCutLines source.entry.name.now source.entry.text.now message.now reasons.now
        out.items) }
{
    let mut lines = clash_lines(alloc, source, headings, message, reasons)?;
    let more = more_line(alloc, source.name, CLASHES_REPORTED, "clashes")?;
    lines.extend_from_slice(&more)?;
    Ok(lines)
}

/// What is stated of the reason why the message isn't clear.
fn stated_reason(
    alloc: Global,
    text: &[u8],
    message: &Message,
    reason: ClashReason,
) -> Result<Stated, AllocError>
    ensures { IfOk result (IsStatedClash text.now (message.now, reason)) }
{
    let headings = headings(alloc, text)?;
    let label = clash_label(alloc, reason.clash)?;
    let sentence = reason_text(alloc, message, reason)?;
    let at = reason_offset(text, &headings, message, reason);
    Ok(Stated {
        position: position_of(text, at),
        label,
        sentence,
    })
}

/// Why the first message of the sheet that isn't clear isn't; `None` where all are clear. The error is out of memory.
pub(crate) fn first_unclear(
    alloc: Global,
    text: &[u8],
    sheet: &Sheet,
) -> Result<Option<Stated>, AllocError>
    ensures { IfOk result (IsFirstClash text.now (clashes_of sheet.now.messages)) }
{
    for message in sheet.messages() {
        let reasons = message_reasons(alloc, message)?;
        if let Some(reason) = reasons.first() {
            return Ok(Some(stated_reason(alloc, text, message, *reason)?));
        }
    }
    Ok(None)
}

/// The name of the code of a reason, and what is stated of it.
fn clash_sentence(
    alloc: Global,
    message: &Message,
    reason: ClashReason,
) -> Result<Vec<u8>, AllocError>
    ensures { IfOk result (λ text. text.items ≡ clash_sentence (message.now, reason)) }
{
    let words = reason_text(alloc, message, reason)?;
    let name = SheetCode::from(reason.clash).name();
    concat(alloc, &[name.as_bytes(), b": ", &words])
}

/// Adds the sentences of these reasons why the message isn't clear, in order.
fn add_sentences(
    alloc: Global,
    sentences: &mut Vec<Vec<u8>>,
    message: &Message,
    reasons: &[ClashReason],
) -> Result<(), AllocError>
    ensures { OnOk result (map bytes_of sentences.new.items ≡ map bytes_of sentences.old.items
        ++ map (λ r. clash_sentence (message.now, r)) reasons.now) }
{
    for reason in reasons {
        let sentence = clash_sentence(alloc, message, *reason)?;
        sentences.push(sentence)?;
    }
    Ok(())
}

/// Why messages of the sheet aren't clear: the sentences of the first [`CLASHES_REPORTED`] reasons, each after the name
/// of its code. The error is out of memory.
pub fn clash_sentences(alloc: Global, sheet: &Sheet) -> Result<Vec<Vec<u8>>, AllocError>
    ensures { IfOk result (λ found. map bytes_of found.items
        ≡ map clash_sentence (take clashes_reported (clashes_of sheet.now.messages))) }
{
    let mut sentences = Vec::new(alloc);
    for message in sheet.messages() {
        let reasons = message_reasons(alloc, message)?;
        let room = CLASHES_REPORTED - sentences.len();
        if reasons.len() > room {
            add_sentences(alloc, &mut sentences, message, &reasons[..room])?;
            return Ok(sentences);
        }
        add_sentences(alloc, &mut sentences, message, &reasons)?;
    }
    Ok(sentences)
}

/// Why messages of the sheet aren't clear: a line for each of the first [`CLASHES_REPORTED`] reasons, and a last one if
/// there are more. The error is out of memory.
pub(crate) fn unclear(alloc: Global, source: Source, sheet: &Sheet) -> Result<Vec<u8>, AllocError>
    ensures { IfOk result
        (λ out. AreClashLines source.entry.name.now source.entry.text.now sheet.now.messages
        out.items) }
{
    let mut lines = Vec::new(alloc);
    let headings = headings(alloc, source.text)?;
    let mut reported = 0;
    for message in sheet.messages() {
        let reasons = message_reasons(alloc, message)?;
        let room = CLASHES_REPORTED - reported;
        if reasons.len() > room {
            let last = cut_lines(alloc, source, &headings, message, &reasons[..room])?;
            lines.extend_from_slice(&last)?;
            return Ok(lines);
        }
        let all = clash_lines(alloc, source, &headings, message, &reasons)?;
        lines.extend_from_slice(&all)?;
        reported += reasons.len();
    }
    Ok(lines)
}
