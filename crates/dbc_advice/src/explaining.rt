//! All that is reported of a file.
ghost use Rattle.std.specs.Prelude.{◌≡◌, IfOk};
ghost use Rattle.dbc_advice.specs.Explained.{AreFaultLines, IsExplained, IsFaultLine, IsRest, IsStatedOfSheet};
ghost use Rattle.dbc_advice.specs.Explained.{count_line, ending_text, fault_word};

use crate::clashes::unclear;
use crate::faulty_lines::keyword_at;
use crate::findings::{Ending, Findings, Reported, reported_faults};
use crate::found::found_at;
use crate::leaving::left_out;
use crate::notes::Source;
use crate::position::position_of;
use crate::sentences::{code_label, reported_line, sentence};
use columns::concat;
use dbc_read::Reading;
use std::alloc::{AllocError, Global};

/// The line of a fault.
fn fault_line(alloc: Global, source: Source, reported: &Reported) -> Result<Vec<u8>, AllocError>
    ensures { IfOk result (λ line. IsFaultLine source.entry.name.now source.entry.text.now
        reported.now line.items) }
{
    let at = reported.fault.at.min(source.text.len());
    let first = reported.lines.first.min(source.text.len());
    let code = reported.fault.code;
    let label = code_label(alloc, code.number(), code.name())?;
    let found = found_at(source.text, at);
    let statement = keyword_at(source.text, first);
    let words = sentence(
        alloc,
        code,
        found,
        &reported.wanted,
        statement,
        reported.hint,
    )?;
    reported_line(
        alloc,
        source.name,
        position_of(source.text, at),
        &label,
        &words,
    )
}

/// The lines of the faults, in order.
fn fault_lines(alloc: Global, source: Source, reported: &[Reported]) -> Result<Vec<u8>, AllocError>
    ensures { IfOk result
        (λ lines. AreFaultLines source.entry.name.now source.entry.text.now reported.now
        lines.items) }
{
    let mut lines = Vec::new(alloc);
    for one in reported {
        let line = fault_line(alloc, source, one)?;
        lines.extend_from_slice(&line)?;
    }
    Ok(lines)
}

/// Why no more faults are reported.
fn ending_text(ending: &Ending) -> &'static str
    ensures { result.now ≡ ending_text ending.now }
{
    match ending {
        Ending::Reads(_) => "the rest is valid",
        Ending::Many => "there may be more",
        Ending::Long => "the file is too long to look for more",
        Ending::Unchanged => "no more can be looked for",
    }
}

/// One fault, or so many faults.
fn fault_word(count: usize) -> &'static str
    ensures { result.now ≡ fault_word count }
{
    if count == 1 { "fault" } else { "faults" }
}

/// The last line: how many faults are shown, and why no more.
fn count_line(
    alloc: Global,
    file: &[u8],
    count: usize,
    ending: &Ending,
) -> Result<Vec<u8>, AllocError>
    ensures { IfOk result (λ line. line.items ≡ count_line file.now count ending.now) }
{
    let rest = ending_text(ending);
    let faults = fault_word(count);
    let words = format!(in alloc; ": {count} {faults} shown; {rest}\n")?;
    concat(alloc, &[file, words.as_bytes()])
}

/// What is stated of a file that reads: each reason why a message isn't clear, and what the sheet leaves out.
fn stated_of_sheet(alloc: Global, source: Source, reading: &Reading) -> Result<Vec<u8>, AllocError>
    ensures { IfOk result (λ out. IsStatedOfSheet source.entry.name.now source.entry.text.now
        reading.now out.items) }
{
    let mut lines = unclear(alloc, source, &reading.sheet)?;
    lines.extend_from_slice(&left_out(alloc, source, reading)?)?;
    Ok(lines)
}

/// What is stated after the faults: of a file that reads what is stated of its sheet, and else how many faults are
/// reported.
fn rest_of(alloc: Global, source: Source, findings: &Findings) -> Result<Vec<u8>, AllocError>
    ensures { IfOk result
        (λ rest. IsRest source.entry.name.now source.entry.text.now findings.now.reported.items
        findings.now.ending
        rest.items) }
{
    let count = findings.reported.len();
    match &findings.ending {
        Ending::Reads(reading) if count == 0 => stated_of_sheet(alloc, source, reading),
        ending => count_line(alloc, source.name, count, ending),
    }
}

/// All that is reported of a DBC file beside what is answered. The error is out of memory.
///
/// Of one that can't be read, a line for its fault, one for that of the text with the lines of the first blanked, and
/// so on, at most [`FAULTS_REPORTED`](crate::FAULTS_REPORTED) and for at most
/// [`BYTES_READ_AGAIN`](crate::BYTES_READ_AGAIN); and a last one with their count. Of one that reads, a line for each
/// reason why a message isn't clear, at most [`CLASHES_REPORTED`](crate::CLASHES_REPORTED) and then that there are
/// more, and what [`left_out`](crate::left_out) says.
pub fn explained(alloc: Global, source: Source) -> Result<Vec<u8>, AllocError>
    ensures { IfOk result (λ out. IsExplained source.entry.name.now source.entry.text.now
        out.items) }
{
    let findings = reported_faults(alloc, source.text)?;
    let mut lines = fault_lines(alloc, source, &findings.reported)?;
    let rest = rest_of(alloc, source, &findings)?;
    lines.extend_from_slice(&rest)?;
    Ok(lines)
}
