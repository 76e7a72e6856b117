//! Checking DBC texts.
ghost use Rattle.std.specs.Prelude.{◌≡◌, [], IfOk, map};
ghost use Rattle.std.specs.Option.{option_map};
ghost use Rattle.canoffice_cli.specs.Jobs.Checked.{IsCheckedOutcome, IsJudged, IsLintedCheck, IsPlainCheck, IsRemarkedCheck};
ghost use Rattle.canoffice_cli.specs.Jobs.Checked.{IsSheetCheck, clear_kind, fault_line, fault_kind, listed, passed_kind};
ghost use Rattle.canoffice_cli.specs.Jobs.Checked.{remarked, one_row, unclear_kind};
ghost use Rattle.canoffice_cli.specs.Outcome.{outcome_of};
ghost use Rattle.dbc_lint.specs.Listing.{remark_rows};
ghost use Rattle.dbc_read.specs.Passed.{start_and_keyword};
ghost use Rattle.rows.specs.Fact.{fact_of};

use crate::jobs::reading::reading_of;
use crate::report::{ExitStatus, Report};
use dbc_lint::{REMARKS, Remark, remark_rows, remarks_on};
use dbc_read::{Passed, ReadFault, Reading};
use dbc_sheet::Sheet;
use dbc_words::{SheetCode, SheetFault};
use office_views::signal_count;
use rows::{Alignment, Cell, Column, Kind, Rows, Table, list_text, table_text};
use std::alloc::{AllocError, Global};
use std::mem::forget;

/// The columns of a skipped statement.
pub const PASSED: [Column; 2] = [
    Column(*b"offset      ", Alignment::Plain),
    Column(*b"keyword     ", Alignment::Plain),
];

/// The columns of a sheet that is clear.
pub const CLEAR: [Column; 2] = [
    Column(*b"messages    ", Alignment::Plain),
    Column(*b"signals     ", Alignment::Plain),
];

/// The columns of one that isn't: its first clash, and the DBC number of the message.
pub const UNCLEAR: [Column; 3] = [
    Column(*b"code        ", Alignment::Plain),
    Column(*b"name        ", Alignment::Plain),
    Column(*b"number      ", Alignment::Plain),
];

/// The columns of a fault of reading.
pub const FAULT: [Column; 3] = [
    Column(*b"code        ", Alignment::Plain),
    Column(*b"name        ", Alignment::Plain),
    Column(*b"offset      ", Alignment::Plain),
];

/// Rows of this kind, of which there is one.
fn one_row<'a>(
    alloc: Global,
    name: &'static [u8],
    columns: &'static [Column],
    cells: Vec<Cell<'a>>,
) -> Result<Kind<'a>, AllocError>
    ensures { IfOk result (λ kind. kind ≡ one_row name.now columns.now (map fact_of cells.entry.items)) }
{
    let mut rows = Rows::new(alloc);
    rows.push(cells)?;
    Ok(Kind::of(name, columns, rows))
}

/// The skipped statements.
fn passed_kind(alloc: Global, passed: &[Passed]) -> Result<Kind<'_>, AllocError>
    ensures { IfOk result (λ kind. kind ≡ passed_kind (map start_and_keyword passed.now)) }
{
    let mut rows = Rows::new(alloc);
    for statement in passed {
        let cells = vec![in alloc;
            Cell::Number(statement.at as u128),
            Cell::Name(statement.keyword.text().as_bytes()),
        ]?;
        rows.push(cells)?;
    }
    Ok(Kind::of(b"passed ", &PASSED, rows))
}

/// How many messages and signals a clear sheet has.
fn clear_kind<'a>(alloc: Global, sheet: &Sheet) -> Result<Kind<'a>, AllocError>
    ensures { IfOk result (λ kind. kind ≡ clear_kind sheet.now) }
{
    let cells = vec![in alloc;
        Cell::Number(sheet.messages().len() as u128),
        Cell::Number(signal_count(sheet) as u128),
    ]?;
    one_row(alloc, b"ok ", &CLEAR, cells)
}

/// The first clash of a sheet that isn't clear, in the message of this number.
fn unclear_kind<'a>(alloc: Global, code: SheetCode, number: u32) -> Result<Kind<'a>, AllocError>
    ensures { IfOk result (λ kind. kind ≡ unclear_kind code number) }
{
    let cells = vec![in alloc;
        Cell::Number(u128::from(code.number())),
        Cell::Name(code.name().as_bytes()),
        Cell::Number(u128::from(number)),
    ]?;
    one_row(alloc, b"unclear ", &UNCLEAR, cells)
}

/// A fault of reading.
fn fault_kind<'a>(alloc: Global, fault: ReadFault) -> Result<Kind<'a>, AllocError>
    ensures { IfOk result (λ kind. kind ≡ fault_kind fault) }
{
    let code = fault.code;
    let cells = vec![in alloc;
        Cell::Number(u128::from(code.number())),
        Cell::Name(code.name().as_bytes()),
        Cell::Number(fault.at as u128),
    ]?;
    one_row(alloc, b"fault ", &FAULT, cells)
}

/// The line for a fault of reading.
pub(crate) fn fault_line(alloc: Global, fault: ReadFault) -> Result<Vec<u8>, AllocError>
    ensures { IfOk result (λ line. line.items ≡ fault_line fault) }
{
    let kinds = vec![in alloc; fault_kind(alloc, fault)?]?;
    table_text(alloc, &Table::of(kinds, &[], Vec::new(alloc)))
}

/// The report of these lists, as JSON where that is wanted.
fn listed(
    alloc: Global,
    kinds: Vec<Kind<'_>>,
    json: bool,
    status: ExitStatus,
) -> Result<Report, AllocError>
    ensures { IfOk result (λ report. outcome_of report ≡ listed json kinds.entry.items status) }
{
    let table = Table::of(kinds, &[], Vec::new(alloc));
    let output = list_text(alloc, &table, json)?;
    Ok(Report::of_output(alloc, output, status))
}

/// Whether the sheet is clear.
fn judged<'a>(alloc: Global, sheet: &Sheet) -> Result<(Kind<'a>, ExitStatus), AllocError>
    ensures { IfOk result (λ judged. IsJudged sheet.now judged.0 judged.1) }
{
    match sheet.is_clear(alloc) {
        Ok(()) => Ok((clear_kind(alloc, sheet)?, ExitStatus::Success)),
        Err(
            SheetFault {
                code: SheetCode::Memory,
                ..
            },
        ) => Err(AllocError),
        Err(fault) => {
            let Some(number) = fault.number() else {
                unreachable!()
            };
            Ok((
                unclear_kind(alloc, fault.code, number)?,
                ExitStatus::FaultFound,
            ))
        }
    }
}

/// The check of the sheet: what was skipped, and whether the sheet is clear.
fn plain_check(alloc: Global, reading: &Reading, json: bool) -> Result<Report, AllocError>
    ensures { IfOk result (λ report. IsPlainCheck json reading.now.sheet
        (map start_and_keyword reading.now.passed) (outcome_of report)) }
{
    let passed = passed_kind(alloc, reading.passed.as_slice())?;
    let (verdict, status) = judged(alloc, &reading.sheet)?;
    let kinds = vec![in alloc; passed, verdict]?;
    listed(alloc, kinds, json, status)
}

/// The status after so many remarks.
fn remarked(status: ExitStatus, count: usize) -> ExitStatus
    ensures { result ≡ remarked status count }
{
    if count == 0 {
        status
    } else {
        ExitStatus::FaultFound
    }
}

/// The same, and then those of the remarks whose kinds the names choose.
fn remarked_check<'a>(
    alloc: Global,
    source: &[u8],
    reading: &'a Reading,
    names: &str,
    remarks: &'a [Remark],
    json: bool,
) -> Result<Report, AllocError>
    ensures { IfOk result (λ report. IsRemarkedCheck json reading.now.sheet
        (map start_and_keyword reading.now.passed) (remark_rows source.now names.now remarks.now)
        (outcome_of report)) }
{
    let passed = passed_kind(alloc, reading.passed.as_slice())?;
    let (verdict, status) = judged(alloc, &reading.sheet)?;
    let rows = remark_rows(alloc, source, names, remarks)?;
    let status = remarked(status, rows.count());
    let kinds = vec![in alloc; passed, verdict, Kind::of(b"remark ", &REMARKS, rows)]?;
    listed(alloc, kinds, json, status)
}

/// The same, and then the remarks on the sheet whose kinds the names choose.
fn linted_check(
    alloc: Global,
    source: &[u8],
    reading: &Reading,
    names: &str,
    json: bool,
) -> Result<Report, AllocError>
    ensures { IfOk result (λ report. IsLintedCheck json source.now reading.now.sheet
        (map start_and_keyword reading.now.passed) names.now (outcome_of report)) }
{
    match remarks_on(alloc, source, &reading.sheet) {
        Ok(remarks) => remarked_check(alloc, source, reading, names, &remarks, json),
        Err(_) => Err(AllocError),
    }
}

/// The check of the sheet, with remarks where names choose their kinds.
fn sheet_check(
    alloc: Global,
    source: &[u8],
    reading: &Reading,
    lint: Option<&str>,
    json: bool,
) -> Result<Report, AllocError>
    ensures { IfOk result (λ report. IsSheetCheck json (option_map (λ names. names.now) lint.entry)
        source.now reading.now.sheet (map start_and_keyword reading.now.passed) (outcome_of report)) }
{
    match lint {
        None => plain_check(alloc, reading, json),
        Some(names) => linted_check(alloc, source, reading, names, json),
    }
}

/// The check of the DBC text: the skipped statements, and then `ok` with the counts of messages and signals, or `unclear`
/// with the first fault of the sheet; where there are names, then the remarks whose kinds they choose. If the text reads as
/// no sheet, it is only `fault` with its code and offset. The status is `Success` for `ok` without a remark, and else
/// `FaultFound`.
pub fn check_report(
    alloc: Global,
    source: &[u8],
    lint: Option<&str>,
    json: bool,
) -> Result<Report, AllocError>
    ensures { IfOk result (λ report. IsCheckedOutcome json (option_map (λ names. names.now) lint.entry)
        source.now (outcome_of report)) }
{
    match reading_of(alloc, source)? {
        Ok(reading) => {
            let report = sheet_check(alloc, source, &reading, lint, json);
            // The program ends soon, so the many blocks of a sheet aren't given back one by one.
            forget(reading);
            report
        }
        Err(fault) => {
            let kinds = vec![in alloc; fault_kind(alloc, fault)?]?;
            listed(alloc, kinds, json, ExitStatus::FaultFound)
        }
    }
}
