//! Formatting DBC texts.
ghost use Rattle.std.specs.Prelude.{IfOk};
ghost use Rattle.canoffice_cli.specs.Outcome.{outcome_of};
ghost use Rattle.canoffice_cli.specs.Jobs.Formatted.{IsFormatOutcome, IsKeptOutcome, KeepsCanonical, KeepsKept};
ghost use Rattle.canoffice_cli.specs.Jobs.Formatted.{KeepsNothing};

use crate::jobs::reading::{reading_of, unread_report};
use crate::report::{ExitStatus, Report};
use dbc_grammar::texts_read_as_one_sheet;
use dbc_keep::kept_text_of;
use dbc_keep_law::kept_texts_read_as_their_sheets;
use dbc_law::canonical_texts_read_as_their_sheets;
use dbc_write::text_of;
use std::alloc::{AllocError, Global};
use std::mem::forget;

/// The canonical text of the sheet that the DBC text reads as, and in it the statements that are skipped: each
/// verbatim, on a line of its own, at its place. A fault is reported as by [`format_report`]. A text that this printed
/// is printed unchanged.
pub fn kept_report(alloc: Global, source: &[u8]) -> Result<Report, AllocError>
    ensures outcome { IfOk result (λ report. IsKeptOutcome source.now (outcome_of report)) }
    ensures unchanged { IfOk result (λ report. KeepsKept source.now (outcome_of report)) }
    ensures nothing { IfOk result (λ report. KeepsNothing source.now (outcome_of report)) }
{
    kept_texts_read_as_their_sheets();
    texts_read_as_one_sheet();
    match reading_of(alloc, source)? {
        Ok(reading) => {
            let written = kept_text_of(alloc, source, &reading);
            // As in a check, the sheet's blocks aren't given back.
            forget(reading);
            Ok(Report::of_output(alloc, written?, ExitStatus::Success))
        }
        Err(fault) => unread_report(alloc, fault),
    }
}

/// The canonical text of the sheet that the DBC text reads as, whether it is clear or not; or, if the text reads as no
/// sheet, the fault's code and offset on standard error, with the status `FaultFound`. A text that is canonical already
/// is printed unchanged.
pub fn format_report(alloc: Global, source: &[u8]) -> Result<Report, AllocError>
    ensures outcome { IfOk result (λ report. IsFormatOutcome source.now (outcome_of report)) }
    ensures canonical { IfOk result (λ report. KeepsCanonical source.now (outcome_of report)) }
{
    canonical_texts_read_as_their_sheets();
    match reading_of(alloc, source)? {
        Ok(reading) => {
            let written = text_of(alloc, &reading.sheet);
            // As in a check, the sheet's blocks aren't given back.
            forget(reading);
            Ok(Report::of_output(alloc, written?, ExitStatus::Success))
        }
        Err(fault) => unread_report(alloc, fault),
    }
}
