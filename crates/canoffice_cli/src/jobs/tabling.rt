//! Tables of DBC texts.
ghost use Rattle.std.specs.Prelude.{⊤, IfOk};
ghost use Rattle.canoffice_cli.specs.Outcome.{outcome_of};
ghost use Rattle.canoffice_cli.specs.Holding.{source_at};
ghost use Rattle.canoffice_cli.specs.Jobs.{IsOfFile};
ghost use Rattle.canoffice_cli.specs.Jobs.Tabled.{IsTableOutcome};

use crate::files::{FileSource, StandardInput, bytes_at};
use crate::jobs::file_jobs::unreadable_report;
use crate::jobs::reading::{reading_of, unread_report};
use crate::report::{ExitStatus, Report};
use office_views::sheet_table;
use rows::list_text;
use std::alloc::{AllocError, Global};

/// The table of the messages of the sheet that the DBC text reads as, whether it is clear or not, as JSON where that is
/// wanted; or, if the text reads as no sheet, the fault's code and offset on standard error, with the status `FaultFound`.
fn table_of_text(alloc: Global, source: &[u8], json: bool) -> Result<Report, AllocError>
    ensures { IfOk result (λ report. IsTableOutcome json source.now (outcome_of report)) }
{
    match reading_of(alloc, source)? {
        Ok(reading) => {
            let table = sheet_table(alloc, &reading.sheet)?;
            let output = list_text(alloc, &table, json)?;
            Ok(Report::of_output(alloc, output, ExitStatus::Success))
        }
        Err(fault) => unread_report(alloc, fault),
    }
}

/// The same of the file at the path, or that it can't be read.
pub fn table_report<F: FileSource + StandardInput>(
    alloc: Global,
    files: &F,
    path: &str,
    json: bool,
) -> Result<Report, AllocError>
    ensures { IfOk result (λ report. IsOfFile ⊤ (IsTableOutcome json) path.now
        (source_at (F.held files.now) (F.given files.now) path.now) (outcome_of report)) }
{
    match bytes_at(alloc, files, path) {
        Ok(bytes) => table_of_text(alloc, &bytes, json),
        Err(fault) => unreadable_report(alloc, path, fault),
    }
}
