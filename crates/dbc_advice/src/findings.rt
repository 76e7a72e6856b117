//! The faults of a text, one after the other.
ghost use Rattle.std.specs.Prelude.{◌≡◌, ◌<◌, ◌≤◌, ◌*◌, ◌↔◌, All, IfOk, IsTrue, length};
ghost use Rattle.dbc_advice.specs.FaultyLines.{AreLines};
ghost use Rattle.dbc_advice.specs.Limits.{bytes_read_again};
ghost use Rattle.dbc_advice.specs.MayBeThere.{MayBeThere};
ghost use Rattle.dbc_advice.specs.Pieces.{statement_before};
ghost use Rattle.dbc_advice.specs.Findings.{IsBlankUpTo, AreFindings, IsNext, IsReported, without};
ghost use Rattle.dbc_read.specs.Reading.{IsReadFault};

use crate::blanking::blanked;
use crate::candidate::Candidate;
use crate::faulty_lines::{Lines, lines_at_fault};
use crate::hint::{Hint, hint_for};
use crate::lines::line_start;
use crate::pieces::alone;
use crate::wanted::wanted_after;
use dbc_read::{ReadCode, ReadFault, Reading, read};
use std::alloc::{AllocError, Global};

/// How many faults of one text are reported.
pub const FAULTS_REPORTED: usize = 100;

/// How many bytes are read again to find further faults: 400 MB, which takes some ten seconds.
pub const BYTES_READ_AGAIN: usize = 400_000_000;

/// A fault, and what people need to know of it.
#[derive(Drop)]
pub(crate) struct Reported {
    /// The fault.
    pub fault: ReadFault,
    /// The lines that it is about, which are blanked before the text is read again.
    pub lines: Lines,
    /// What may be there, if the fault is an unexpected token.
    pub wanted: Vec<Candidate>,
    /// What is plain to do.
    pub hint: Option<Hint>,
}

/// Why no more faults are reported.
#[derive(Drop)]
pub(crate) enum Ending {
    /// What is left of the text reads as a sheet.
    Reads(Reading),
    /// [`FAULTS_REPORTED`] faults are reported.
    Many,
    /// To read the text once more would be more than [`BYTES_READ_AGAIN`].
    Long,
    /// The lines of the last fault, and all before them, are blank already.
    Unchanged,
}

/// The faults of a text.
#[derive(Drop)]
pub(crate) struct Findings {
    /// The faults, in the order in which they were found.
    pub reported: Vec<Reported>,
    /// Why no more are reported.
    pub ending: Ending,
}

/// What a text gives next: a fault, or an end.
#[derive(Drop)]
pub(crate) enum Next {
    /// It reads as a sheet.
    Reads(Reading),
    /// It has a fault.
    Fault(Reported),
}

/// Above this many bytes of a statement, nothing is tested of what may come after them.
const LONG_STATEMENT: usize = 65_536;

/// The text from the line of the offset `first` up to the offset `at`, as a text of its own.
fn statement_before(
    alloc: Global,
    text: &[u8],
    first: usize,
    at: usize,
) -> Result<Vec<u8>, AllocError>
    requires ordered { first ≤ at }
    requires within { at ≤ length text.now }
    ensures { IfOk result (λ before. before.items ≡ statement_before text.now first at) }
{
    alone(alloc, &text[line_start(text, first)..at])
}

/// What may be at the fault's offset, after the beginning of these lines.
fn wanted_at(
    alloc: Global,
    text: &[u8],
    fault: ReadFault,
    lines: Lines,
) -> Result<Vec<Candidate>, AllocError>
    requires lines { AreLines text.now fault.at lines }
    requires at { fault.at ≤ length text.now }
    ensures { IfOk result (λ wanted. All
        (MayBeThere (statement_before text.now lines.first fault.at)) wanted.items) }
{
    match fault.code {
        ReadCode::Unexpected if fault.at - lines.first <= LONG_STATEMENT => {
            let before = statement_before(alloc, text, lines.first, fault.at)?;
            wanted_after(alloc, &before)
        }
        _ => Ok(Vec::new(alloc)),
    }
}

/// Whether the lines are blank already. The error is out of memory.
fn are_blank(alloc: Global, text: &[u8], lines: Lines) -> Result<bool, AllocError>
    requires ordered { lines.first ≤ lines.last }
    requires within { lines.last ≤ length text.now }
    ensures { IfOk result (λ are. IsTrue are ↔ (without lines text.now ≡ text.now)) }
{
    let rest = blanked(alloc, text, lines.first, lines.last)?;
    Ok(rest.as_slice() == text)
}

/// The lines to blank for the fault. If those that it is about are blank already, they are all up to its own.
fn lines_to_blank(alloc: Global, text: &[u8], fault: ReadFault) -> Result<Lines, AllocError>
    requires { fault.at ≤ length text.now }
    ensures lines { IfOk result (AreLines text.now fault.at) }
    ensures blank { IfOk result
        (λ lines. without lines text.now ≡ text.now → IsBlankUpTo text.now fault.at) }
{
    let lines = lines_at_fault(alloc, text, fault)?;
    if are_blank(alloc, text, lines)? {
        Ok(Lines {
            first: 0,
            last: fault.at,
        })
    } else {
        Ok(lines)
    }
}

/// The fault of the text, with what people need to know of it.
fn reported_of(alloc: Global, text: &[u8], fault: ReadFault) -> Result<Reported, AllocError>
    requires { IsReadFault text.now fault }
    ensures { IfOk result (IsReported text.now) }
{
    let lines = lines_to_blank(alloc, text, fault)?;
    let wanted = wanted_at(alloc, text, fault, lines)?;
    let hint = hint_for(text, fault, lines);
    Ok(Reported {
        fault,
        lines,
        wanted,
        hint,
    })
}

/// What the text reads as, or its fault with what people need to know of it.
pub(crate) fn reported_next(alloc: Global, text: &[u8]) -> Result<Next, AllocError>
    ensures { IfOk result (IsNext text.now) }
{
    match read(alloc, text) {
        Ok(reading) => Ok(Next::Reads(reading)),
        Err(fault) => match fault.code {
            ReadCode::Memory => Err(AllocError),
            _ => Ok(Next::Fault(reported_of(alloc, text, fault)?)),
        },
    }
}

/// Whether a text of this size is too long to be read once more after this many faults.
fn is_long(size: usize, reported: usize) -> bool
    ensures { IsTrue result ↔ (bytes_read_again < reported * size) }
{
    reported.saturating_mul(size) > BYTES_READ_AGAIN
}

/// The faults of the text: its fault, then that of the text with the lines of this fault blanked, and so on, until what
/// is left reads as a sheet, or [`FAULTS_REPORTED`] are reported, or the text would be read again for more than
/// [`BYTES_READ_AGAIN`], or all up to the last fault is blank already. The error is out of memory.
pub(crate) fn reported_faults(alloc: Global, source: &[u8]) -> Result<Findings, AllocError>
    ensures { IfOk result (AreFindings source.now) }
{
    let mut reported = Vec::new(alloc);
    let mut text = Vec::from_slice(alloc, source)?;
    for count in 0..FAULTS_REPORTED {
        if is_long(source.len(), count) {
            let ending = Ending::Long;
            return Ok(Findings { reported, ending });
        }
        match reported_next(alloc, &text)? {
            Next::Reads(reading) => {
                let ending = Ending::Reads(reading);
                return Ok(Findings { reported, ending });
            }
            Next::Fault(fault) => {
                let Lines { first, last } = fault.lines;
                let rest = blanked(alloc, &text, first, last)?;
                reported.push(fault)?;
                let same = rest == text;
                if same {
                    let ending = Ending::Unchanged;
                    return Ok(Findings { reported, ending });
                }
                text = rest;
            }
        }
    }
    let ending = Ending::Many;
    Ok(Findings { reported, ending })
}
