//! Exporting a sheet.
ghost use Rattle.std.specs.Prelude.{◌≡◌, IfOk, option_map};
ghost use Rattle.std.specs.Result.{result_map_both};
ghost use Rattle.canoffice_cli.specs.Jobs.Exported.{IsCompletedOutcome, IsExportWith, IsShownOutcome, IsTextOutcome};
ghost use Rattle.canoffice_cli.specs.Jobs.Exported.{sheet_requested};
ghost use Rattle.canoffice_cli.specs.Outcome.{outcome_of};
ghost use Rattle.canoffice_cli.specs.Jobs.{IsExported};
ghost use Rattle.dbc_keep.specs.Completed.{named_text};
ghost use Rattle.store.specs.Looking.{bytes_of};

use crate::databases::Databases;
use crate::files::{FileSource, StandardInput, bytes_at};
use crate::jobs::file_jobs::unreadable_report;
use crate::jobs::looking::{not_found, shown_report};
use crate::jobs::reading::unread_report;
use crate::report::{ExitStatus, Report};
use canoffice_jobs::Extras;
use dbc_advice::{Source, shown_path};
use dbc_keep::{Besides, complete};
use dbc_read::ReadCode;
use office_types::{Look, NetName};
use std::alloc::{AllocError, Global};
use store::Lost;

fn sheet_requested(net: NetName, number: u32) -> Look
    ensures { result ≡ sheet_requested net number }
{
    if number == 0 {
        Look::Live(net)
    } else {
        Look::Release(net, number)
    }
}

/// The report with the text of the sheet and what is wanted besides. What of the original is left out is on standard
/// error.
fn completed_report(alloc: Global, text: Vec<u8>, besides: Besides) -> Result<Report, AllocError>
    ensures { IfOk result (λ report. IsCompletedOutcome
        (option_map named_text besides.entry.original) besides.entry.j1939 text.items
        (outcome_of report)) }
{
    match complete(alloc, text, besides) {
        Ok(made) => {
            let (text, left_out) = made.into_parts();
            Ok(Report {
                output: text,
                errors: left_out,
                status: ExitStatus::Success,
            })
        }
        Err(fault) => match fault.code {
            ReadCode::Memory => Err(AllocError),
            _ => unread_report(alloc, fault),
        },
    }
}

/// The same, or the text alone if nothing is wanted besides.
fn text_report(alloc: Global, text: Vec<u8>, besides: Besides) -> Result<Report, AllocError>
    ensures { IfOk result (λ report. IsTextOutcome (option_map named_text besides.entry.original)
        besides.entry.j1939 text.items (outcome_of report)) }
{
    match besides.original {
        Some(_) => completed_report(alloc, text, besides),
        None => {
            if besides.j1939 {
                completed_report(alloc, text, besides)
            } else {
                Ok(Report::of_output(alloc, text, ExitStatus::Success))
            }
        }
    }
}

/// The same, or that nothing was found, or why that was lost.
fn sheet_report(
    alloc: Global,
    shown: Result<Option<Vec<u8>>, Lost>,
    besides: Besides,
) -> Result<Report, AllocError>
    ensures { IfOk result (λ report. IsShownOutcome
        (option_map named_text besides.entry.original) besides.entry.j1939
        (result_map_both bytes_of (λ lost. lost) shown) (outcome_of report)) }
{
    match shown {
        Ok(Some(text)) => text_report(alloc, text, besides),
        Ok(None) => not_found(alloc),
        Err(lost) => shown_report(alloc, Err(lost)),
    }
}

/// Prints the sheet of the network with what is wanted besides, or that there is no such sheet.
fn export_with<D: Databases>(
    alloc: Global,
    databases: &mut D,
    path: &str,
    net: &str,
    number: u32,
    besides: Besides,
) -> Result<Report, AllocError>
    ensures { IfOk result (λ report. IsExportWith (D.known databases.old) (D.known databases.new)
        path.now net.now number (option_map named_text besides.entry.original)
        besides.entry.j1939 (outcome_of report)) }
{
    match NetName::of(alloc, net.as_bytes())? {
        None => not_found(alloc),
        Some(net) => {
            let look = sheet_requested(net, number);
            sheet_report(alloc, databases.look(alloc, path, &look), besides)
        }
    }
}

/// Prints the release of the network with this number, or for 0 its live sheet, as the office in the database of the
/// path has it, with what is wanted besides; or that there is no such sheet. There is no such sheet where NET hasn't
/// the form of a network's name: then the database isn't opened; nor where the database is absent: then it isn't made.
/// The file of an original is read before. The error is out of memory for the report.
pub fn export_report<F: FileSource + StandardInput, D: Databases>(
    alloc: Global,
    files: &F,
    databases: &mut D,
    path: &str,
    net: &str,
    number: u32,
    extras: Extras<'_>,
) -> Result<Report, AllocError>
    ensures { IfOk result (λ report. IsExported (F.held files.now) (F.given files.now)
        (D.known databases.old)
        (D.known databases.new) path.now net.now number extras.entry (outcome_of report)) }
{
    let j1939 = extras.j1939;
    let Some(file) = extras.original else {
        let besides = Besides {
            original: None,
            j1939,
        };
        return export_with(alloc, databases, path, net, number, besides);
    };
    match bytes_at(alloc, files, file) {
        Ok(bytes) => {
            let shown = shown_path(alloc, file)?;
            let source = Source {
                name: shown.as_bytes(),
                text: &bytes,
            };
            let besides = Besides {
                original: Some(source),
                j1939,
            };
            export_with(alloc, databases, path, net, number, besides)
        }
        Err(fault) => unreadable_report(alloc, file, fault),
    }
}
