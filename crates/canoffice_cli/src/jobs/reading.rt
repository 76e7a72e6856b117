//! Reading a DBC text, and reporting the fault of one that reads as no sheet.
ghost use Rattle.std.specs.Prelude.{◌≡◌, IfErr, IfOk, map};
ghost use Rattle.canoffice_cli.specs.Jobs.Checked.{fault_line};
ghost use Rattle.canoffice_cli.specs.Jobs.Formatted.{fault_errors};
ghost use Rattle.canoffice_cli.specs.Outcome.{outcome_of};
ghost use Rattle.dbc_grammar.specs.Reads.{Reads, ReadsAs};
ghost use Rattle.dbc_read.specs.Passed.{start_and_keyword};
ghost use Rattle.dbc_read.specs.Reading.{IsReadFault};

use crate::jobs::checking::fault_line;
use crate::report::{ExitStatus, Report};
use dbc_read::{ReadCode, ReadFault, Reading, read};
use std::alloc::{AllocError, Global};

/// What the DBC text reads as, or its fault. The error is out of memory.
pub(crate) fn reading_of(
    alloc: Global,
    source: &[u8],
) -> Result<Result<Reading, ReadFault>, AllocError>
    ensures reads { IfOk result (λ read. IfOk read (λ reading.
        ReadsAs source.now reading.sheet (map start_and_keyword reading.passed))) }
    ensures sheet { IfOk result (λ read. IfOk read (λ reading. Reads source.now reading.sheet)) }
    ensures fault { IfOk result (λ read. IfErr read (IsReadFault source.now)) }
{
    match read(alloc, source) {
        Ok(reading) => Ok(Ok(reading)),
        Err(fault) => match fault.code {
            ReadCode::Memory => Err(AllocError),
            _ => Ok(Err(fault)),
        },
    }
}

/// The report that a DBC text reads as no sheet: the fault's code and offset on standard error, with the status
/// `FaultFound`.
pub(crate) fn unread_report(alloc: Global, fault: ReadFault) -> Result<Report, AllocError>
    ensures { IfOk result (λ report. outcome_of report ≡ fault_errors (fault_line fault)) }
{
    let line = fault_line(alloc, fault)?;
    Ok(Report::of_errors(alloc, line, ExitStatus::FaultFound))
}
