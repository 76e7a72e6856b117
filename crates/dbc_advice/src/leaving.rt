//! What is stated of statements that are skipped: those that cite what isn't in the file one by one, the others kind by
//! kind.
ghost use Rattle.std.specs.Prelude.{◌≡◌, IfOk, codes, option_map, string_bytes};
ghost use Rattle.dbc_advice.specs.Citation.{cited_of};
ghost use Rattle.dbc_advice.specs.LeftOut.{ArePartedFrom, count_text, has_keyword, kind_count, kinds_text};
ghost use Rattle.dbc_advice.specs.LeftOut.{left_out, line_after, missing_at, missing_line, passed_label, passed_line};
ghost use Rattle.dbc_advice.specs.Limits.{citations_reported};
ghost use Rattle.dbc_advice.specs.Names.{AreNamesOf};
ghost use Rattle.dbc_advice.specs.ReportedLine.{more_text};

use crate::citation::{Citation, citation_at, citation_text, is_missing};
use crate::names::{Names, names_of};
use crate::notes::Source;
use crate::position::position_of;
use crate::sentences::{more_line, reported_line};
use columns::concat;
use dbc_read::{Passed, Reading};
use dbc_sheet::Sheet;
use dbc_words::Keyword;
use std::alloc::{AllocError, Global};

/// How many statements that cite what isn't in the file are reported one by one.
pub const CITATIONS_REPORTED: usize = 100;

/// `passed` and the keyword.
fn passed_label(alloc: Global, keyword: Keyword) -> Result<Vec<u8>, AllocError>
    ensures { IfOk result (λ label. label.items ≡ passed_label keyword) }
{
    let text = format!(in alloc; "passed {}", keyword.text())?;
    Ok(text.into_bytes())
}

/// The line of what is stated of a skipped statement: at its keyword, and with this as its label.
fn passed_line(
    alloc: Global,
    source: Source,
    passed: Passed,
    sentence: &[u8],
) -> Result<Vec<u8>, AllocError>
    ensures { IfOk result
        (λ line. line.items ≡ passed_line source.entry.name.now source.entry.text.now passed
        sentence.now) }
{
    let label = passed_label(alloc, passed.keyword)?;
    let at = passed.at.min(source.text.len());
    let position = position_of(source.text, at);
    reported_line(alloc, source.name, position, &label, sentence)
}

/// What the skipped statement cites, if the sheet, whose names these are, doesn't have it.
fn missing_at<'a>(
    sheet: &Sheet,
    names: &Names,
    text: &'a [u8],
    passed: Passed,
) -> Option<Citation<'a>>
    ensures { AreNamesOf names.now sheet.now
        → option_map cited_of result ≡ missing_at sheet.now text.now passed }
{
    let citation = citation_at(text, passed.at)?;
    if is_missing(sheet, names, citation) {
        Some(citation)
    } else {
        None
    }
}

/// The line of a skipped statement that cites what isn't in the file.
fn missing_line(
    alloc: Global,
    source: Source,
    passed: Passed,
    citation: Citation,
) -> Result<Vec<u8>, AllocError>
    ensures { IfOk result (λ line. line.items ≡ missing_line source.entry.name.now
        source.entry.text.now
        (passed, cited_of citation.entry)) }
{
    let sentence = citation_text(alloc, citation)?;
    passed_line(alloc, source, passed, &sentence)
}

/// The same after so many reports: nothing, if there are enough.
fn line_after(
    alloc: Global,
    reported: usize,
    source: Source,
    passed: Passed,
    citation: Citation,
) -> Result<Vec<u8>, AllocError>
    ensures { IfOk result (λ line. line.items ≡ line_after reported source.entry.name.now
        source.entry.text.now
        (passed, cited_of citation.entry)) }
{
    if reported < CITATIONS_REPORTED {
        missing_line(alloc, source, passed, citation)
    } else {
        Ok(Vec::new(alloc))
    }
}

/// The skipped statements of this keyword that cite nothing, or what the sheet has: how many of them there are.
fn kind_count(passed: &[Passed], keyword: Keyword) -> usize
    ensures { result ≡ kind_count keyword passed.now }
{
    passed
        .iter()
        .filter(|other| other.keyword.text() == keyword.text())
        .count()
}

/// Whether a statement of this keyword is among these.
fn has_keyword(passed: &[Passed], keyword: Keyword) -> bool
    ensures { result ≡ has_keyword keyword passed.now }
{
    passed
        .iter()
        .any(|other| other.keyword.text() == keyword.text())
}

/// What is stated of so many statements of a kind.
fn count_text(alloc: Global, count: usize) -> Result<String, AllocError>
    ensures { IfOk result (λ text. string_bytes text ≡ count_text count) }
{
    format!(in alloc; "{count} left out, the first one here")
}

/// What is reported one by one, and the statements that are left.
#[derive(Drop)]
struct Parts {
    /// A line for each of the first of those that cite what isn't in the file.
    lines: Vec<u8>,
    /// How many cite what isn't in the file.
    missing: usize,
    /// The other ones.
    others: Vec<Passed>,
}

/// Reports each of the statements that cite what isn't in the file, up to [`CITATIONS_REPORTED`].
fn parted(alloc: Global, source: Source, reading: &Reading) -> Result<Parts, AllocError>
    ensures { IfOk result
        (ArePartedFrom source.entry.name.now source.entry.text.now reading.now.sheet
        reading.now.passed) }
{
    let mut lines = Vec::new(alloc);
    let mut others = Vec::new(alloc);
    let mut missing = 0usize;
    let names = names_of(alloc, &reading.sheet)?;
    for passed in reading.passed.as_slice() {
        match missing_at(&reading.sheet, &names, source.text, *passed) {
            Some(citation) => {
                let line = line_after(alloc, missing, source, *passed, citation)?;
                lines.extend_from_slice(&line)?;
                missing += 1;
            }
            None => others.push(*passed)?,
        }
    }
    Ok(Parts {
        lines,
        missing,
        others,
    })
}

/// The last line of those that are reported one by one: there are more, if so.
fn more_missing(alloc: Global, file: &[u8], missing: usize) -> Result<Vec<u8>, AllocError>
    ensures { IfOk result (λ line. line.items ≡ more_text file.now citations_reported missing
        (codes "citations")) }
{
    if missing > CITATIONS_REPORTED {
        more_line(alloc, file, CITATIONS_REPORTED, "citations")
    } else {
        Ok(Vec::new(alloc))
    }
}

/// The line of the first of these statements that has its keyword, with how many have it.
fn kind_line(
    alloc: Global,
    source: Source,
    passed: &[Passed],
    first: Passed,
) -> Result<Vec<u8>, AllocError>
    ensures { IfOk result (λ line. line.items ≡ passed_line source.entry.name.now
        source.entry.text.now first
        (count_text (kind_count first.keyword passed.now))) }
{
    let sentence = count_text(alloc, kind_count(passed, first.keyword))?;
    passed_line(alloc, source, first, sentence.as_bytes())
}

/// A line for each keyword of these statements, at the first of them.
fn kind_lines(alloc: Global, source: Source, passed: &[Passed]) -> Result<Vec<u8>, AllocError>
    ensures { IfOk result (λ lines. lines.items ≡ kinds_text source.entry.name.now
        source.entry.text.now passed.now 0) }
{
    let mut lines = Vec::new(alloc);
    // The first statement of each keyword: few, so that a further one isn't looked for among all before it.
    let mut firsts = Vec::new(alloc);
    for one in passed {
        if !has_keyword(&firsts, one.keyword) {
            let line = kind_line(alloc, source, passed, *one)?;
            lines.extend_from_slice(&line)?;
            firsts.push(*one)?;
        }
    }
    Ok(lines)
}

/// What the sheet of a file leaves out. The error is out of memory.
///
/// It is a line for each skipped statement that cites a node, a message or a signal which isn't in the file, at most
/// [`CITATIONS_REPORTED`] and then that there are more, and one for each keyword of the other ones, with their count.
pub fn left_out(alloc: Global, source: Source, reading: &Reading) -> Result<Vec<u8>, AllocError>
    ensures { IfOk result
        (λ out. out.items ≡ left_out source.entry.name.now source.entry.text.now reading.now.sheet
        reading.now.passed) }
{
    let parted = parted(alloc, source, reading)?;
    let more = more_missing(alloc, source.name, parted.missing)?;
    let kinds = kind_lines(alloc, source, &parted.others)?;
    concat(alloc, &[&parted.lines, &more, &kinds])
}
